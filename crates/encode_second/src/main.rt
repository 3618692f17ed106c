// A run of the program `encode keys 01`: the second exercise of two, no text.
#![tactic(auto)]

fn main(rt: HostRuntime) {
    desk::encode(&rt, &rt.stderr());
}
