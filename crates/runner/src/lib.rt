// A program's run, logged into tables that the caller lends.
#![tactic(auto)]

pub mod ending;
pub mod job;
mod label;
mod limits;
mod log;
pub mod refusal;
pub mod run;
mod touch;
