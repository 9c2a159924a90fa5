// How far a checking has come.
use crate::finding::Finding;
use dossier::record::{Head, Line, Row};
use encoding::instruction::Instruction;
use machine::cpu::Cpu;

// What is taken and checked at once: an item, by its part and its place there. The head is a part too and no unit, which
// is why this is no pair of the two.
#[derive(Clone, Copy, PartialEq, Eq, Debug)]
pub enum Unit {
    Instruction(u32),
    Word(u32),
    Line(u32),
    Row(u32),
}

// An item that was read.
#[derive(Clone, Copy, PartialEq, Eq, Debug)]
pub enum Item {
    Instruction(Instruction),
    Word(u32),
    Line(Line),
    Row(Row),
}

// The kind of unit that is being taken, and what has to be kept from unit to unit.
#[derive(Clone, Copy, PartialEq, Eq, Debug)]
pub enum Stage {
    Instructions,
    Words,
    // the former line's cell
    Lines { former: Option<u32> },
    // the machine after the rows that were taken, and whether an advice end was among them
    Rows { cpu: Cpu, ended: bool },
}

// The head's numbers, or zeros without a head, which a receipt then prints; units in all and taken; the stage; the finding, if there is one.
#[derive(Clone, Copy, PartialEq, Eq, Debug)]
pub struct Progress {
    pub head: Head,
    pub total: u32,
    pub taken: u32,
    pub stage: Stage,
    pub finding: Option<Finding>,
}
