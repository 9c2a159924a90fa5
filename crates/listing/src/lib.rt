// What a dossier in bytes answers, as text.
#![tactic(auto)]

pub mod ask;
pub mod found;
