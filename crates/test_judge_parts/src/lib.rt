// The generator of judge/generate.c in Rattle, its first part: the state that it keeps, random numbers, what it
// writes, and parts.
#![tactic(auto)]

pub mod buffers;
pub mod knobs;
pub mod parts;
pub mod show;
pub mod state;
mod tables;
pub mod tally;
pub mod trace;
