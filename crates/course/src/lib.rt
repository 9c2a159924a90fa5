// What a checking says when it is closed: its verdict and receipt, and the numbers of findings and refusals.
#![tactic(auto)]

pub mod number;
pub mod receipt;
pub mod verdict;
