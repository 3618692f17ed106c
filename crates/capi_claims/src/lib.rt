// The library for other languages: no second answer meets a promise of `capi` or `capi_states`. There is no code of its
// own here.
#![tactic(auto)]
