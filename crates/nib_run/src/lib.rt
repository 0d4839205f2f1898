// `nib run` and `nib explain`.
#![tactic(auto)]

pub mod running;
