// Dossiers in bytes: the fields of a file, one after the other.
#![tactic(auto)]

pub mod holder;
pub mod layout;
