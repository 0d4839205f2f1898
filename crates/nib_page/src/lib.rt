// `nib page`.
#![tactic(auto)]

pub mod pages;
