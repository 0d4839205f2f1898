// The proved model, lent what the table of tools/expect/cases.py says, and records that are spoiled.
#![tactic(auto)]

pub mod bench;
mod spoils;
