// The generator's traces: jobs one after the other, wrong cycles, and noise.
#![tactic(auto)]

pub mod job;
mod polls;
pub mod traces;
