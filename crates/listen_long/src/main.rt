// A run of the program `listen` on 70,000 bytes, with groups across byte 65,536 and behind it.
#![tactic(auto)]

fn main(rt: HostRuntime) {
    listening::listen(&rt, &rt.stderr());
}
