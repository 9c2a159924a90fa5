// Programs as text: the instructions that a text stands for, in a lent table.
#![tactic(auto)]

pub mod error;
mod labels;
mod passes;
pub mod preamble;
mod resolve;
mod scan;
pub mod text;
