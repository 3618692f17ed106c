// The program `listen`, and its run on a clean recording.
#![tactic(auto)]

fn main(rt: HostRuntime) {
    listening::listen(&rt, &rt.stderr());
}
