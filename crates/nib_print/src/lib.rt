// What nib writes: bytes and numbers on a paper that goes out when it is full, and events, replies and refusals in words.
#![tactic(auto)]

pub mod bytes;
pub mod input;
pub mod pen;
pub mod say;
