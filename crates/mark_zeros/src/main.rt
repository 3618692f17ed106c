// A run of the program `mark keys 08 submission`: exercise 8 of the longest sheet, 13,312 bytes, the most that there may
// be; it passes.
#![tactic(auto)]

fn main(rt: HostRuntime) {
    desk::mark(&rt, &rt.stderr());
}
