// What nib and the library say in words of events, replies and refusals: bytes on a desk, which is a lent slice and the place
// where the next byte goes. What does not fit is left out. The words stand here alone: nib prints them, C and Python are handed
// them.
#![tactic(auto)]

pub mod desk;
pub mod say;
