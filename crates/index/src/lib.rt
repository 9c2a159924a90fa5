// Maps from cells to their entries: one over a table that its user lends, and one that owns its entries.
#![tactic(auto)]

pub mod entry;
pub mod map;
pub mod order;
pub mod tree;
