// What an instruction says.
ghost use Rattle.std.specs.Prelude.{◌≡◌, ◌<◌, Some};
ghost use Rattle.encoding.specs.Encoding.{decoded, packed, placed, encoded, named};

use crate::instruction::Instruction;
use crate::mnemonic::Mnemonic;
use word::cell::Size;
use word::operator::{Arithmetic, Comparison};

// When a jump takes place.
#[derive(Clone, Copy, PartialEq, Eq, Debug)]
pub enum Condition {
    Always,
    IfFlag,
    UnlessFlag,
}

// `A`: a register's number, or the word itself. A register goes by its number, since it is an index into the machine's
// registers wherever it is used; an enum of sixteen would be turned into that number at each use.
#[derive(Clone, Copy, PartialEq, Eq, Debug)]
pub enum Operand {
    Register(u8),
    Immediate(u32),
}

// The 29 instructions, grouped by what they do. Registers go by their numbers.
#[derive(Clone, Copy, PartialEq, Eq, Debug)]
pub enum Operation {
    Compute {
        by: Arithmetic,
        to: u8,
        left: u8,
        right: Operand,
    },
    Not {
        to: u8,
        from: Operand,
    },
    Compare {
        by: Comparison,
        left: u8,
        right: Operand,
    },
    Move {
        to: u8,
        from: Operand,
    },
    MoveIfFlag {
        to: u8,
        from: Operand,
    },
    Jump {
        when: Condition,
        target: Operand,
    },
    Store {
        size: Size,
        from: u8,
        address: Operand,
    },
    Load {
        size: Size,
        to: u8,
        address: Operand,
    },
    Read {
        to: u8,
        tape: Operand,
    },
    Answer {
        value: Operand,
    },
}

impl Operation {
    // What the machine executes where there is no instruction, or one that is ill formed.
    pub const ANSWER_ONE: Operation = Operation::Answer {
        value: Operand::Immediate(1),
    };
}

impl Operand {
    // Whether the register, if it is one, is one of the 16.
    fn is_named(self) -> bool
        ensures { result ≡ named self }
    {
        match self {
            Operand::Register(i) => i < 16,
            Operand::Immediate(_) => true,
        }
    }
}

fn pack(mnemonic: Mnemonic, i: u8, j: u8, a: Operand) -> Instruction
    requires { (i < 16) × (j < 16) }
    ensures { result ≡ packed mnemonic i j a }
{
    let (immediate, second) = match a {
        Operand::Register(k) => (0, u32::from(k)),
        Operand::Immediate(word) => (1, word),
    };
    let first = mnemonic.opcode() * 0x800_0000
        + immediate * 0x400_0000
        + u32::from(i) * 0x40_0000
        + u32::from(j) * 0x4_0000;
    Instruction { first, second }
}

// The instruction with the registers `i` and `j` and the operand `a`, if these are registers. TinyRAM's own letters; the
// four are an instruction's fields, and a struct of them would be one more between `Operation` and `Instruction`.
pub fn place(mnemonic: Mnemonic, i: u8, j: u8, a: Operand) -> Option<Instruction>
    ensures { result ≡ placed mnemonic i j a }
{
    if i < 16 && j < 16 && a.is_named() {
        Some(pack(mnemonic, i, j, a))
    } else {
        None
    }
}

impl Operation {
    // Apart from `encode`, whose second promise is proved from the first.
    fn write(self) -> Option<Instruction>
        ensures { result ≡ encoded self }
    {
        match self {
            Operation::Compute {
                by,
                to,
                left,
                right,
            } => place(Mnemonic::Compute(by), to, left, right),
            Operation::Not { to, from } => place(Mnemonic::Not, to, 0, from),
            Operation::Compare { by, left, right } => place(Mnemonic::Compare(by), 0, left, right),
            Operation::Move { to, from } => place(Mnemonic::Move, to, 0, from),
            Operation::MoveIfFlag { to, from } => place(Mnemonic::MoveIfFlag, to, 0, from),
            Operation::Jump { when, target } => place(Mnemonic::Jump(when), 0, 0, target),
            Operation::Store {
                size,
                from,
                address,
            } => place(Mnemonic::Store(size), from, 0, address),
            Operation::Load { size, to, address } => place(Mnemonic::Load(size), to, 0, address),
            Operation::Read { to, tape } => place(Mnemonic::Read, to, 0, tape),
            Operation::Answer { value } => place(Mnemonic::Answer, 0, 0, value),
        }
    }

    // The instruction that says this, or `None` where a register's number is above 15.
    pub fn encode(self) -> Option<Instruction>
        ensures value { result ≡ encoded self }
        ensures back { (n : Instruction) → result ≡ Some n → decoded n ≡ Some self }
    {
        self.write()
    }
}
