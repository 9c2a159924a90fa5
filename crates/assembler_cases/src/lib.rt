// Tests of the assembler and the printer, by tables that a script apart from the crates has worked out.
#![tactic(auto)]

#[cfg(test)]
mod bad;
#[cfg(test)]
mod case;
#[cfg(test)]
mod good;
#[cfg(test)]
mod limits;
#[cfg(test)]
mod programs;
#[cfg(test)]
mod refused;
#[cfg(test)]
mod tests;
