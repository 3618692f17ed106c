// The program `encode`, and its run with no key: nothing is written to standard output.
#![tactic(auto)]

fn main(rt: HostRuntime) {
    desk::encode(&rt, &rt.stderr());
}
