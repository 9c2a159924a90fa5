// A record of any part, and the text of what is found and of what is refused.
use dossier::record::{Head, Line, Row};
use dossier::refusal::Refusal;
use encoding::instruction::Instruction;
use std::fmt;

#[derive(Clone, Copy, PartialEq, Eq, Debug)]
pub enum Found {
    Head(Head),
    Instruction(Instruction),
    Word(u32),
    Line(Line),
    Row(Row),
}

impl fmt::Display for Found {
    fn fmt<W: fmt::Write>(&self, f: &mut fmt::Formatter<W>) -> fmt::Result {
        match self {
            Found::Head(head) => write!(f, "{head}"),
            Found::Instruction(Instruction { first, second }) => write!(
                f,
                "instruction {first} {second}"
            ),
            Found::Word(word) => write!(f, "word {word}"),
            Found::Line(line) => write!(f, "{line}"),
            Found::Row(row) => write!(f, "{row}"),
        }
    }
}

// An answer as text.
#[derive(Clone, Copy)]
pub struct Shown(pub Result<Found, Refusal>);

impl fmt::Display for Shown {
    fn fmt<W: fmt::Write>(&self, f: &mut fmt::Formatter<W>) -> fmt::Result {
        match &self.0 {
            Ok(found) => write!(f, "{found}"),
            Err(refusal) => write!(f, "{refusal}"),
        }
    }
}
