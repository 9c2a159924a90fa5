// The opcodes.
ghost use Rattle.std.specs.Prelude.{◌≡◌, ◌<◌};
ghost use Rattle.encoding.specs.Opcodes.{mnemonic_of, opcode_of};

use crate::operation::Condition;
use word::cell::Size;
use word::operator::{Arithmetic, Comparison};

// An instruction without its operands.
#[derive(Clone, Copy, PartialEq, Eq, Debug)]
pub enum Mnemonic {
    Compute(Arithmetic),
    Not,
    Compare(Comparison),
    Move,
    MoveIfFlag,
    Jump(Condition),
    Store(Size),
    Load(Size),
    Read,
    Answer,
}

// By opcode; 23, 24 and 25 stand for nothing.
const MNEMONICS: [Option<Mnemonic>; 32] = [
    Some(Mnemonic::Compute(Arithmetic::And)),
    Some(Mnemonic::Compute(Arithmetic::Or)),
    Some(Mnemonic::Compute(Arithmetic::Xor)),
    Some(Mnemonic::Not),
    Some(Mnemonic::Compute(Arithmetic::Add)),
    Some(Mnemonic::Compute(Arithmetic::Sub)),
    Some(Mnemonic::Compute(Arithmetic::Mull)),
    Some(Mnemonic::Compute(Arithmetic::Umulh)),
    Some(Mnemonic::Compute(Arithmetic::Smulh)),
    Some(Mnemonic::Compute(Arithmetic::Udiv)),
    Some(Mnemonic::Compute(Arithmetic::Umod)),
    Some(Mnemonic::Compute(Arithmetic::Shl)),
    Some(Mnemonic::Compute(Arithmetic::Shr)),
    Some(Mnemonic::Compare(Comparison::Equal)),
    Some(Mnemonic::Compare(Comparison::Above)),
    Some(Mnemonic::Compare(Comparison::AboveOrEqual)),
    Some(Mnemonic::Compare(Comparison::Greater)),
    Some(Mnemonic::Compare(Comparison::GreaterOrEqual)),
    Some(Mnemonic::Move),
    Some(Mnemonic::MoveIfFlag),
    Some(Mnemonic::Jump(Condition::Always)),
    Some(Mnemonic::Jump(Condition::IfFlag)),
    Some(Mnemonic::Jump(Condition::UnlessFlag)),
    None,
    None,
    None,
    Some(Mnemonic::Store(Size::Byte)),
    Some(Mnemonic::Load(Size::Byte)),
    Some(Mnemonic::Store(Size::Word)),
    Some(Mnemonic::Load(Size::Word)),
    Some(Mnemonic::Read),
    Some(Mnemonic::Answer),
];

impl Mnemonic {
    // The mnemonic of an opcode, which has 5 bits; no `TryFrom`, since nothing asks with another number.
    pub(crate) fn of(opcode: usize) -> Option<Mnemonic>
        requires { opcode < 32 }
        ensures { result ≡ mnemonic_of opcode }
    {
        MNEMONICS[opcode]
    }

    // Its opcode. The table read backwards would be a search; the match names all 29, as the compiler sees.
    pub(crate) fn opcode(self) -> u32
        ensures value { result ≡ opcode_of self }
        ensures bound { result < 32 }
    {
        match self {
            Mnemonic::Compute(Arithmetic::And) => 0,
            Mnemonic::Compute(Arithmetic::Or) => 1,
            Mnemonic::Compute(Arithmetic::Xor) => 2,
            Mnemonic::Not => 3,
            Mnemonic::Compute(Arithmetic::Add) => 4,
            Mnemonic::Compute(Arithmetic::Sub) => 5,
            Mnemonic::Compute(Arithmetic::Mull) => 6,
            Mnemonic::Compute(Arithmetic::Umulh) => 7,
            Mnemonic::Compute(Arithmetic::Smulh) => 8,
            Mnemonic::Compute(Arithmetic::Udiv) => 9,
            Mnemonic::Compute(Arithmetic::Umod) => 10,
            Mnemonic::Compute(Arithmetic::Shl) => 11,
            Mnemonic::Compute(Arithmetic::Shr) => 12,
            Mnemonic::Compare(Comparison::Equal) => 13,
            Mnemonic::Compare(Comparison::Above) => 14,
            Mnemonic::Compare(Comparison::AboveOrEqual) => 15,
            Mnemonic::Compare(Comparison::Greater) => 16,
            Mnemonic::Compare(Comparison::GreaterOrEqual) => 17,
            Mnemonic::Move => 18,
            Mnemonic::MoveIfFlag => 19,
            Mnemonic::Jump(Condition::Always) => 20,
            Mnemonic::Jump(Condition::IfFlag) => 21,
            Mnemonic::Jump(Condition::UnlessFlag) => 22,
            Mnemonic::Store(Size::Byte) => 26,
            Mnemonic::Load(Size::Byte) => 27,
            Mnemonic::Store(Size::Word) => 28,
            Mnemonic::Load(Size::Word) => 29,
            Mnemonic::Read => 30,
            Mnemonic::Answer => 31,
        }
    }
}
