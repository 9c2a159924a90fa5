// Records and refusals as text.
use crate::record::{Head, Line, Row, Touch, UnknownKind};
use crate::refusal::{Fault, Refusal};
use std::error::Error;
use std::fmt;

impl fmt::Display for Head {
    fn fmt<W: fmt::Write>(&self, f: &mut fmt::Formatter<W>) -> fmt::Result {
        let Head {
            instructions,
            words,
            lines,
            rows,
            bound,
        } = *self;
        write!(
            f,
            "head instructions {instructions} words {words} lines {lines} rows {rows} bound {bound}"
        )
    }
}

impl fmt::Display for Line {
    fn fmt<W: fmt::Write>(&self, f: &mut fmt::Formatter<W>) -> fmt::Result {
        write!(f, "line cell {} step {}", self.cell, self.step)
    }
}

impl fmt::Display for Row {
    fn fmt<W: fmt::Write>(&self, f: &mut fmt::Formatter<W>) -> fmt::Result {
        match self {
            Row::Plain => write!(f, "row plain"),
            Row::FromLine(touch) => write_touch(f, "line", *touch),
            Row::FromStep(touch) => write_touch(f, "step", *touch),
            Row::Advice(word) => write!(f, "row advice {word}"),
            Row::AdviceEnd => write!(f, "row advice end"),
        }
    }
}

// A touch's text says where its origin leads.
fn write_touch<W: fmt::Write>(f: &mut fmt::Formatter<W>, from: &str, touch: Touch) -> fmt::Result {
    let Touch {
        cell,
        before,
        after,
        origin,
        next,
    } = touch;
    write!(
        f,
        "row touch cell {cell} before {before} after {after} from {from} {origin} next {next}"
    )
}

impl fmt::Display for UnknownKind {
    fn fmt<W: fmt::Write>(&self, f: &mut fmt::Formatter<W>) -> fmt::Result {
        write!(f, "no kind of row has number {}", self.0)
    }
}

impl Error for UnknownKind {}

impl fmt::Display for Refusal {
    fn fmt<W: fmt::Write>(&self, f: &mut fmt::Formatter<W>) -> fmt::Result {
        let number = self.number();
        match *self {
            Refusal::Past { part, place } => {
                let part = u32::from(part);
                write!(f, "refusal {number} part {part} place {place}")
            }
            Refusal::Unreadable(Fault { part, place, layer }) => {
                let part = u32::from(part);
                write!(
                    f,
                    "refusal {number} part {part} place {place} layer {layer}"
                )
            }
        }
    }
}

impl Error for Refusal {}
