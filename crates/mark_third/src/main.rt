// A run of the program `mark`: the third exercise of three, with a bit turned in block 4093.
#![tactic(auto)]

fn main(rt: HostRuntime) {
    desk::mark(&rt, &rt.stderr());
}
