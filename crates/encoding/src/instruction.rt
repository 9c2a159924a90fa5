// An instruction as it is stored: two words.
ghost use Rattle.std.specs.Prelude.{◌≡◌, is_some, Some};
ghost use Rattle.encoding.specs.Encoding.{operand_of, arranged, decoded, encoded, meant};
ghost use Rattle.encoding.specs.Formed.{well_formed};

use crate::mnemonic::Mnemonic;
use crate::operation::{Operand, Operation};

// From the top, `first` holds the opcode (5 bits), the immediate bit, the destination
// and the source register (4 bits each) and 18 bits of padding; `second` holds the operand.
#[derive(Clone, Copy, PartialEq, Eq, Debug)]
pub struct Instruction {
    pub first: u32,
    pub second: u32,
}

fn operand_in(immediate: bool, second: u32) -> Option<Operand>
    ensures { result ≡ operand_of immediate second }
{
    if immediate {
        Some(Operand::Immediate(second))
    } else if second < 16 {
        Some(Operand::Register(second as u8))
    } else {
        None
    }
}

// The operation on the registers `i` and `j` and the operand `a`, if those that it does not use are 0.
fn arrange(mnemonic: Mnemonic, i: u8, j: u8, a: Operand) -> Option<Operation>
    ensures { result ≡ arranged mnemonic i j a }
{
    match mnemonic {
        Mnemonic::Compute(by) => Some(Operation::Compute {
            by,
            to: i,
            left: j,
            right: a,
        }),
        Mnemonic::Not if j == 0 => Some(Operation::Not { to: i, from: a }),
        Mnemonic::Compare(by) if i == 0 => Some(Operation::Compare {
            by,
            left: j,
            right: a,
        }),
        Mnemonic::Move if j == 0 => Some(Operation::Move { to: i, from: a }),
        Mnemonic::MoveIfFlag if j == 0 => Some(Operation::MoveIfFlag { to: i, from: a }),
        Mnemonic::Jump(when) if i == 0 && j == 0 => Some(Operation::Jump { when, target: a }),
        Mnemonic::Store(size) if j == 0 => Some(Operation::Store {
            size,
            from: i,
            address: a,
        }),
        Mnemonic::Load(size) if j == 0 => Some(Operation::Load {
            size,
            to: i,
            address: a,
        }),
        Mnemonic::Read if j == 0 => Some(Operation::Read { to: i, tape: a }),
        Mnemonic::Answer if i == 0 && j == 0 => Some(Operation::Answer { value: a }),
        _ => None,
    }
}

impl Instruction {
    // Apart from `decode`, whose second promise is proved from the first.
    fn read(self) -> Option<Operation>
        ensures { result ≡ decoded self }
    {
        if self.first % 0x4_0000 != 0 {
            return None;
        }
        let mnemonic = Mnemonic::of((self.first >> 27) as usize)?;
        let a = operand_in((self.first >> 26) % 2 == 1, self.second)?;
        let i = ((self.first >> 22) % 16) as u8;
        let j = ((self.first >> 18) % 16) as u8;
        arrange(mnemonic, i, j, a)
    }

    // What the instruction says, or `None` where it is ill formed. Only this instruction says so.
    pub fn decode(self) -> Option<Operation>
        ensures value { result ≡ decoded self }
        ensures only { (o : Operation) → result ≡ Some o → encoded o ≡ Some self }
    {
        self.read()
    }

    // Apart from `well_formed`, whose words are proved to be this test.
    fn is_readable(self) -> bool
        ensures { result ≡ is_some (decoded self) }
    {
        self.read().is_some()
    }

    // Whether the opcode is one of the 29, the fields that it does not use are 0,
    // and a register in the operand is at most 15.
    pub fn well_formed(self) -> bool
        ensures { result ≡ well_formed self }
    {
        self.is_readable()
    }

    // What the machine executes: an ill-formed instruction is taken as `answer 1`.
    pub fn operation(self) -> Operation
        ensures { result ≡ meant self }
    {
        self.decode().unwrap_or(Operation::ANSWER_ONE)
    }
}
