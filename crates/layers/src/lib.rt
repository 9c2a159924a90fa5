// Layers over any dossier: each is a dossier again, so that piles of them are types.
#![tactic(auto)]

pub mod cache;
pub mod pair;
