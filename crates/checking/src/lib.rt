// The checking of a dossier from its questions alone, by turns.
#![tactic(auto)]

pub mod calls;
pub mod checking;
