// The state of the machine but for its memory and its auxiliary tape.
ghost use Rattle.std.specs.Prelude.{◌≡◌};
ghost use Rattle.machine.specs.State.{start, register_of, value_of, holds, advanced, jumped, written, flagged, passed};

use encoding::operation::{Condition, Operand};

// The program counter, the registers, the flag, and how many primary words were read.
#[derive(Clone, Copy, PartialEq, Eq, Default, Debug)]
pub struct Cpu {
    pub pc: u32,
    pub registers: [u32; 16],
    pub flag: bool,
    pub place: u32,
}

impl Cpu {
    // All is 0 at the start.
    pub fn start() -> Cpu
        ensures { result ≡ start }
    {
        Cpu::default()
    }

    // The word in register `i`. An instruction names no other than the 16.
    pub(crate) fn register(&self, i: u8) -> u32
        ensures { result ≡ register_of self.now i }
    {
        self.registers.get(usize::from(i)).copied().unwrap_or(0)
    }

    // The word that an operand stands for.
    pub(crate) fn value(&self, a: Operand) -> u32
        ensures { result ≡ value_of self.now a }
    {
        match a {
            Operand::Register(i) => self.register(i),
            Operand::Immediate(word) => word,
        }
    }

    pub(crate) fn meets(&self, when: Condition) -> bool
        ensures { result ≡ holds when self.now.flag }
    {
        match when {
            Condition::Always => true,
            Condition::IfFlag => self.flag,
            Condition::UnlessFlag => !self.flag,
        }
    }

    // On to the next instruction.
    pub(crate) fn advance(self) -> Cpu
        ensures { result ≡ advanced self }
    {
        Cpu {
            pc: self.pc.wrapping_add(1),
            ..self
        }
    }

    pub(crate) fn jump(self, pc: u32) -> Cpu
        ensures { result ≡ jumped self pc }
    {
        Cpu { pc, ..self }
    }

    // A word into register `i`.
    pub(crate) fn write(mut self, i: u8, word: u32) -> Cpu
        ensures { result ≡ written self i word }
    {
        if i < 16 {
            self.registers[usize::from(i)] = word;
        }
        self
    }

    pub(crate) fn set_flag(self, flag: bool) -> Cpu
        ensures { result ≡ flagged self flag }
    {
        Cpu { flag, ..self }
    }

    // Past one word of the primary tape.
    pub(crate) fn pass(self) -> Cpu
        ensures { result ≡ passed self }
    {
        Cpu {
            place: self.place.wrapping_add(1),
            ..self
        }
    }
}
