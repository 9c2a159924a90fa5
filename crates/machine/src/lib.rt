// TinyRAM, Harvard variant, with words of 32 bits and 16 registers: its state and one step.
// The step is split so that a run, which has memory and tapes, and a checking,
// which has only the rows of a log, share all of it.
#![tactic(auto)]

pub mod cpu;
pub mod marked;
pub mod step;
