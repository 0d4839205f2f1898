// Part folders: files by folder and name, and the part that a folder holds.
#![tactic(auto)]

pub mod fields;
pub mod files;
pub mod part;
