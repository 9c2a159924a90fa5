// Words of 32 bits: what TinyRAM's operators make of them, and the bytes of a cell.
#![tactic(auto)]

pub mod cell;
pub mod operator;
pub mod outcome;
