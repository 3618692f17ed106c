// The program `listen -s` on the recording of listen_roof.
#![tactic(auto)]

fn main(rt: HostRuntime) {
    listening::listen(&rt, &rt.stderr());
}
