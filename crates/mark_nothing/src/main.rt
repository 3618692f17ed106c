// A run of the program `mark`: nothing at all on standard input, with a good key.
#![tactic(auto)]

fn main(rt: HostRuntime) {
    desk::mark(&rt, &rt.stderr());
}
