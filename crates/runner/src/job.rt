// What a run is given.
use encoding::instruction::Instruction;

// The program, its tapes, and the bound on its steps.
#[derive(Clone, Copy)]
pub struct Job<'a> {
    pub program: &'a [Instruction],
    pub primary: &'a [u32],
    pub auxiliary: &'a [u32],
    pub bound: u32,
}
