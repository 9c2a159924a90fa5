// One line of a program.
#![tactic(auto)]

mod number;
pub mod operand;
pub mod statement;
