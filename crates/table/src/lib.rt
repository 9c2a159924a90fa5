// Layer 2: a dossier in the tables that a run has filled.
#![tactic(auto)]

mod entry;
pub mod holder;
