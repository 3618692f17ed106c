// The functions of `capi` under their names in C: each calls the function of its name and states its promise again.
#![tactic(auto)]

mod af;
mod block;
mod group;
mod marking;
mod times;
