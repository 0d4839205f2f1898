// `explain`: data in a row is told in one line (`fold`), the events are counted by their answers (`tally`), and the words of both,
// of a status byte and of a row (`words`).
#![tactic(auto)]

pub mod fold;
pub mod tally;
pub mod words;
