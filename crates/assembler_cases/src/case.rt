// A table of four entries, and what assembling into it answers.
use assembler::error::{AssemblyError, Refusal};
use assembler::text::assemble;
use encoding::instruction::Instruction;

// What stands in every entry before.
pub const OLD: Instruction = Instruction {
    first: 0xA5A5_A5A5,
    second: 0x5A5A_5A5A,
};

// The length of the program, or the refusal by its number.
pub fn answer(text: &str, table: &mut [Instruction]) -> Result<usize, Refusal> {
    assemble(text, table).map_err(AssemblyError::refusal)
}

pub fn refusal(number: u8, value: usize) -> Result<usize, Refusal> {
    Err(Refusal { number, value })
}

// The tables of cases have an instruction by its two words.
pub fn instruction(words: (u32, u32)) -> Instruction {
    Instruction {
        first: words.0,
        second: words.1,
    }
}
