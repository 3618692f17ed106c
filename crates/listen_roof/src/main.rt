// A run of the program `listen -x`: the file of that name has noise before, a damaged stretch, a bit slip and bad blocks.
#![tactic(auto)]

fn main(rt: HostRuntime) {
    listening::listen(&rt, &rt.stderr());
}
