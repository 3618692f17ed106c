// The bench for callers in other languages: functions on numbers and byte slices, each a thin call of the floor below.
// An answer is one number, and what takes more room than that is written into a buffer that the caller lends.
#![tactic(auto)]

pub mod af;
pub mod block;
pub mod group;
pub mod marking;
pub mod times;
