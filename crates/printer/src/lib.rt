// Programs as text: the listing of instructions.
#![tactic(auto)]

pub mod listing;
mod operation;
