// The program `mark`, and its run with no key and nothing handed in.
#![tactic(auto)]

fn main(rt: HostRuntime) {
    desk::mark(&rt, &rt.stderr());
}
