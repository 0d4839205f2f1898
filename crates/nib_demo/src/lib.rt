// `nib demo`.
#![tactic(auto)]

pub mod demo;
