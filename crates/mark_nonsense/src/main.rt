// A run of the program `mark`: nonsense, with a good key.
#![tactic(auto)]

fn main(rt: HostRuntime) {
    desk::mark(&rt, &rt.stderr());
}
