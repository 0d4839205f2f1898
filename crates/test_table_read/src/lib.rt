// Reads the table of tools/expect/cases.py word by word, and counts and tells what is compared with it.
#![tactic(auto)]

pub mod reading;
pub mod tally;
