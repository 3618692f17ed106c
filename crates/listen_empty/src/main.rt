// The program `listen` on an empty recording.
#![tactic(auto)]

fn main(rt: HostRuntime) {
    listening::listen(&rt, &rt.stderr());
}
