// The functions of `capi_states` under their names in C: each calls the function of its name and states its promise
// again.
#![tactic(auto)]

mod hearing;
mod stations;
