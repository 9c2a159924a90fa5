// Instructions: the two words that they are stored as, and the operations that these say.
#![tactic(auto)]

pub mod instruction;
pub mod mnemonic;
pub mod operation;
