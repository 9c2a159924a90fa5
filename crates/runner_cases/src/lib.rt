// Runs into tables, compared with logs that an interpreter apart from the crates has worked out.
#![tactic(auto)]

#[cfg(test)]
mod check;
#[cfg(test)]
mod map;
#[cfg(test)]
mod refusals;
#[cfg(test)]
mod runs;
