// A run of the program `mark`: the last exercise of the longest sheet, 13,325 bytes, a good group more than there may be.
#![tactic(auto)]

fn main(rt: HostRuntime) {
    desk::mark(&rt, &rt.stderr());
}
