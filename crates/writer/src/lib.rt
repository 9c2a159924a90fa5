// The writer of any dossier into lent bytes.
#![tactic(auto)]

mod parts;
pub mod refusal;
pub mod write;
