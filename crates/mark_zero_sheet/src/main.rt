// A run of the program `mark`: a sheet of 80 zero bytes.
#![tactic(auto)]

fn main(rt: HostRuntime) {
    desk::mark(&rt, &rt.stderr());
}
