// The generator's lines: the traces of a part and a kind, and the power-ons of a kind, each of which is a line.
#![tactic(auto)]

pub mod cases;
pub mod lines;
