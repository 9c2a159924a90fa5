// A dossier: what is kept of a run, so that it can be checked when the run's memory is gone.
#![tactic(auto)]

pub mod listed;
pub mod opened;
pub mod questions;
pub mod record;
pub mod refusal;
mod text;
