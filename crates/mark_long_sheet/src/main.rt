// A run of the program `mark`: a sheet of 257 good records, too long for any exercise.
#![tactic(auto)]

fn main(rt: HostRuntime) {
    desk::mark(&rt, &rt.stderr());
}
