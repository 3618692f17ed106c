// A run of the program `mark`: the same nonsense, the key taken away.
#![tactic(auto)]

fn main(rt: HostRuntime) {
    desk::mark(&rt, &rt.stderr());
}
