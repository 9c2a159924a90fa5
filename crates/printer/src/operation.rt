// An operation as a line of text.
ghost use Rattle.std.specs.Prelude.{Some};
ghost use Rattle.printer.specs.Listing.{operand_text, two_text, operation_text};

use encoding::mnemonic::Mnemonic;
use encoding::operation::{Operand, Operation};
use mnemonics::name::name_of;
use std::fmt::{self, Display};

// `A`
#[derive(Clone, Copy)]
struct OperandText(Operand);

impl Display for OperandText {
    ghost output = { λ a. Some (operand_text a.0) };

    fn fmt<W: fmt::Write>(&self, f: &mut fmt::Formatter<W>) -> fmt::Result {
        match self.0 {
            Operand::Register(i) => write!(f, "r{i}"),
            Operand::Immediate(n) => write!(f, "{n}"),
        }
    }
}

// An instruction on a register and an operand, in this order.
#[derive(Clone, Copy)]
struct PairText(Mnemonic, u8, Operand);

impl Display for PairText {
    ghost output = { λ p. Some (two_text p.0 p.1 p.2) };

    fn fmt<W: fmt::Write>(&self, f: &mut fmt::Formatter<W>) -> fmt::Result {
        let name = name_of(self.0);
        let register = self.1;
        let operand = OperandText(self.2);
        write!(f, "{name} r{register}, {operand}")
    }
}

#[derive(Clone, Copy)]
pub(crate) struct OperationText(pub(crate) Operation);

impl Display for OperationText {
    ghost output = { λ o. Some (operation_text o.0) };

    fn fmt<W: fmt::Write>(&self, f: &mut fmt::Formatter<W>) -> fmt::Result {
        match self.0 {
            Operation::Compute {
                by,
                to,
                left,
                right,
            } => {
                let name = name_of(Mnemonic::Compute(by));
                let right = OperandText(right);
                write!(f, "{name} r{to}, r{left}, {right}")
            }
            Operation::Not { to, from } => PairText(Mnemonic::Not, to, from).fmt(f),
            Operation::Compare { by, left, right } => {
                PairText(Mnemonic::Compare(by), left, right).fmt(f)
            }
            Operation::Move { to, from } => PairText(Mnemonic::Move, to, from).fmt(f),
            Operation::MoveIfFlag { to, from } => PairText(Mnemonic::MoveIfFlag, to, from).fmt(f),
            Operation::Jump { when, target } => {
                let name = name_of(Mnemonic::Jump(when));
                let target = OperandText(target);
                write!(f, "{name} {target}")
            }
            Operation::Store {
                size,
                from,
                address,
            } => {
                let name = name_of(Mnemonic::Store(size));
                let address = OperandText(address);
                write!(f, "{name} {address}, r{from}")
            }
            Operation::Load { size, to, address } => {
                PairText(Mnemonic::Load(size), to, address).fmt(f)
            }
            Operation::Read { to, tape } => PairText(Mnemonic::Read, to, tape).fmt(f),
            Operation::Answer { value } => {
                let name = name_of(Mnemonic::Answer);
                let value = OperandText(value);
                write!(f, "{name} {value}")
            }
        }
    }
}
