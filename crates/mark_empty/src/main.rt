// A run of the program `mark`: an empty submission, with a good key.
#![tactic(auto)]

fn main(rt: HostRuntime) {
    desk::mark(&rt, &rt.stderr());
}
