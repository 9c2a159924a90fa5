// Findings: the first rule that a dossier breaks, and where.
ghost use Rattle.std.specs.Prelude.{◌≡◌, Some};
ghost use Rattle.rules.specs.Text.{rule_number, finding_text};

use dossier::refusal::{Fault, Part};
use std::fmt;

// The rules, by the numbers of their findings. Number 22 is an item that cannot be read.
#[derive(Clone, Copy, PartialEq, Eq, Debug)]
pub enum Rule {
    // there is a head
    Head = 20,
    // the head's numbers are within their limits
    Limits = 21,
    // the instruction is well formed
    WellFormed = 23,
    // the line's cell is a multiple of 4 and above the former line's
    LineOrder = 24,
    // the line's step is 1 to T, and its row is a touch from this line
    LineStep = 25,
    // the step executes no `answer` but 0
    OtherAnswer = 26,
    // `answer 0` is executed at row T and nowhere else
    LastAnswer = 27,
    // the row's kind fits the step
    Kind = 28,
    // no advice word follows an advice end
    AdviceEnd = 29,
    // the touch's cell and after-value are those that the instruction makes from its before-value
    Touch = 30,
    // the touch comes from where it says
    Origin = 31,
    // the touch leads on to where it says
    Next = 32,
}

// A finding tells the part and place of the unit that was to be taken.
#[derive(Clone, Copy, PartialEq, Eq, Debug)]
pub enum Finding {
    Broken {
        rule: Rule,
        part: Part,
        place: u32,
    },
    // finding 22, with the whole fault that came up from below
    Unreadable {
        part: Part,
        place: u32,
        fault: Fault,
    },
}

impl From<Rule> for u8 {
    ghost from_gives = { λ rule number. number ≡ rule_number rule };

    fn from(rule: Rule) -> u8 {
        rule as u8
    }
}

// A finding's number, part and place, and for an unreadable item the whole fault.
impl fmt::Display for Finding {
    ghost output = { λ x. Some (finding_text x) };

    fn fmt<W: fmt::Write>(&self, f: &mut fmt::Formatter<W>) -> fmt::Result {
        match *self {
            Finding::Broken { rule, part, place } => {
                let number = u8::from(rule);
                let part = u32::from(part);
                write!(f, "{number} {part} {place}")
            }
            Finding::Unreadable { part, place, fault } => {
                let part = u32::from(part);
                let Fault {
                    part: fault_part,
                    place: fault_place,
                    layer,
                } = fault;
                let fault_part = u32::from(fault_part);
                write!(
                    f,
                    "22 {part} {place} fault {fault_part} {fault_place} {layer}"
                )
            }
        }
    }
}
