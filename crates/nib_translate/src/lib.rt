// `nib text` and `nib text -d`.
#![tactic(auto)]

pub mod texts;
