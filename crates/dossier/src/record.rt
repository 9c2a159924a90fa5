// The records of a dossier.
ghost use Rattle.std.specs.Prelude.{◌≡◌, ℕ, List};
ghost use Rattle.std.proofs.Common.{rules};
ghost use Rattle.dossier.specs.Numbers.{Numbered, row_kind, kind_number, touch_in, same, head_numbers, instruction_numbers, word_numbers, line_numbers, row_numbers};

use encoding::instruction::Instruction;

// How long a dossier's four lists are, and the bound on the run's steps.
#[derive(Clone, Copy, PartialEq, Eq, Default, Debug)]
pub struct Head {
    pub instructions: u32,
    pub words: u32,
    pub lines: u32,
    pub rows: u32,
    pub bound: u32,
}

// An opening line: a cell that the run touches, and the step of its first touch, counted from 1.
#[derive(Clone, Copy, PartialEq, Eq, Default, Debug)]
pub struct Line {
    pub cell: u32,
    pub step: u32,
}

// A touch: a load or a store of a cell, with the cell's value before and after the step.
// `origin` leads back: to the cell's opening line, counted from 0, or to the step of the touch before.
// `next` leads on: to the step of the following touch, or it is 0.
#[derive(Clone, Copy, PartialEq, Eq, Default, Debug)]
pub struct Touch {
    pub cell: u32,
    pub before: u32,
    pub after: u32,
    pub origin: u32,
    pub next: u32,
}

// What a step did that the log shows.
#[derive(Clone, Copy, PartialEq, Eq, Debug)]
pub enum Row {
    Plain,
    // the first touch of a cell; its origin is an opening line
    FromLine(Touch),
    // a later touch; its origin is a step
    FromStep(Touch),
    // a word read from the auxiliary tape
    Advice(u32),
    // a read past the end of the auxiliary tape
    AdviceEnd,
}

// The kinds of row, and their numbers in the records.
#[derive(Clone, Copy, PartialEq, Eq, Debug)]
pub enum RowKind {
    Plain = 0,
    FromLine = 1,
    FromStep = 2,
    Advice = 3,
    AdviceEnd = 4,
}

impl Row {
    // What the row says of a touch.
    pub fn touch(&self) -> Option<Touch>
        ensures { result ≡ touch_in self.now }
    {
        match *self {
            Row::FromLine(touch) | Row::FromStep(touch) => Some(touch),
            _ => None,
        }
    }

    pub fn kind(&self) -> RowKind
        ensures { result ≡ row_kind self.now }
    {
        match self {
            Row::Plain => RowKind::Plain,
            Row::FromLine(_) => RowKind::FromLine,
            Row::FromStep(_) => RowKind::FromStep,
            Row::Advice(_) => RowKind::Advice,
            Row::AdviceEnd => RowKind::AdviceEnd,
        }
    }
}

impl From<RowKind> for u8 {
    ghost from_gives = { λ kind number. number ≡ kind_number kind };

    fn from(kind: RowKind) -> u8 {
        kind as u8
    }
}

// A number that no kind of row has.
#[derive(Clone, Copy, PartialEq, Eq, Debug)]
pub struct UnknownKind(pub u8);

impl TryFrom<u8> for RowKind {
    type Error = UnknownKind;

    ghost try_from_gives = { Numbered };

    fn try_from(number: u8) -> Result<RowKind, UnknownKind> {
        match number {
            0 => Ok(RowKind::Plain),
            1 => Ok(RowKind::FromLine),
            2 => Ok(RowKind::FromStep),
            3 => Ok(RowKind::Advice),
            4 => Ok(RowKind::AdviceEnd),
            _ => Err(UnknownKind(number)),
        }
    }
}

// A record is made of numbers, and two records are equal exactly where these are.
pub trait Record: Copy + PartialEq {
    ghost numbers: { Self → List ℕ };

    ghost equal_by_numbers: { (a b : Self) → Self.eq a b ≡ same numbers a b };
}

impl Record for Head {
    ghost numbers = { head_numbers };

    ghost equal_by_numbers = { Prim.search rules };
}

impl Record for Instruction {
    ghost numbers = { instruction_numbers };

    ghost equal_by_numbers = { Prim.search rules };
}

impl Record for u32 {
    ghost numbers = { word_numbers };

    ghost equal_by_numbers = { Prim.search rules };
}

impl Record for Line {
    ghost numbers = { line_numbers };

    ghost equal_by_numbers = { Prim.search rules };
}

impl Record for Row {
    ghost numbers = { row_numbers };

    ghost equal_by_numbers = { Prim.search rules };
}
