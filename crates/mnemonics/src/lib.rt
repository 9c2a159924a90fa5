// Instructions by their names.
#![tactic(auto)]

pub mod name;
