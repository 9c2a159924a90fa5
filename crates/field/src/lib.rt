// The byte form of one record: a field of a tag, a length and a payload.
#![tactic(auto)]

pub mod kind;
pub mod records;
pub mod rows;
mod words;
