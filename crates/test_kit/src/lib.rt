// What the test programs share: numbers that have an answer everywhere, random numbers and digests, comparing and
// counting, files of data/, and writing lines.
#![tactic(auto)]

pub mod compare;
pub mod files;
pub mod numbers;
pub mod random;
pub mod write;
