// nib dump and nib diff: a page of a folder's array, and where two folders differ. Neither changes a file.
#![tactic(auto)]

pub mod diff;
pub mod dump;
pub mod walk;
