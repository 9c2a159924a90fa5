// The check of one unit of a dossier: its item, and its rules in their order.
#![tactic(auto)]

mod item;
mod line;
mod link;
mod row;
mod step;
pub mod turn;
