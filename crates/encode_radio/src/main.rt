// A run of the program `encode`, with nothing at all on standard input: PI D3C2, PTY 10, TP 1, "RADIO-UM", no text.
#![tactic(auto)]

fn main(rt: HostRuntime) {
    desk::encode(&rt, &rt.stderr());
}
