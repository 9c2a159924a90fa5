// Tests of single steps, by tables that an interpreter apart from the crates has worked out.
#![tactic(auto)]

#[cfg(test)]
mod bits;
#[cfg(test)]
mod case;
#[cfg(test)]
mod compares;
#[cfg(test)]
mod formed;
#[cfg(test)]
mod integers;
#[cfg(test)]
mod jumps;
#[cfg(test)]
mod memory;
#[cfg(test)]
mod moves;
#[cfg(test)]
mod shifts;
#[cfg(test)]
mod tapes;
#[cfg(test)]
mod tests;
