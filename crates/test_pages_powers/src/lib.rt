// Power-ons for test_pages: the parts of its cases and what is done to them, and a line for what power-on answers and leaves.
#![tactic(auto)]

pub mod parts;
pub mod powers;
