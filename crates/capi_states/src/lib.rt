// What keeps a state, for callers in other languages: the receiver, whose state is bytes that the caller keeps, and the
// station record after groups in bytes. A part of `capi`, apart so that each is soon proved.
#![tactic(auto)]

pub mod hearing;
pub mod stations;
