// A trace told as whole jobs: what stands at a place of it (`lines`), what is told of a job (`phrases`), and both in words
// (`words`).
#![tactic(auto)]

pub mod lines;
pub mod phrases;
pub mod words;
