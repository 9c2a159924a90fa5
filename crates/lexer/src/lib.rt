// The words and marks of a program's text.
#![tactic(auto)]

pub mod class;
pub mod lines;
pub mod token;
