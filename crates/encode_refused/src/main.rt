// A run of the program `encode`: the third key is not good, and nothing is written to standard output.
#![tactic(auto)]

fn main(rt: HostRuntime) {
    desk::encode(&rt, &rt.stderr());
}
