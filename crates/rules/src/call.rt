// The calls of a checking, and their answers.
ghost use Rattle.std.specs.Prelude.{Some};
ghost use Rattle.rules.specs.Text.{outcome_text};

use crate::finding::Finding;
use std::fmt;

// The laws range over lists of these.
#[derive(Clone, Copy, PartialEq, Eq, Debug)]
pub enum Call {
    Advance(u32),
    Ask,
}

// What an advance answers: the units that it was to take, or the finding at which it stopped.
// In a `Result` within that of the call, a finding would read as a failure of the call, which it is not.
#[derive(Clone, Copy, PartialEq, Eq, Debug)]
pub enum Advanced {
    Took(u32),
    Found(Finding),
}

// Why an advance is refused.
#[derive(Clone, Copy, PartialEq, Eq, Debug)]
pub enum Refused {
    // refusal 3: by 0
    ByZero,
    // refusal 4: by more than is left, with the units left
    TooMany(u32),
    // refusal 5: after a finding
    AfterFinding(Finding),
}

// What a checking tells when it is asked: units taken and left, and the finding, if there is one.
#[derive(Clone, Copy, PartialEq, Eq, Debug)]
pub struct Report {
    pub taken: u32,
    pub left: u32,
    pub finding: Option<Finding>,
}

// What a checking says when it is closed.
#[derive(Clone, Copy, PartialEq, Eq, Debug)]
pub enum Outcome {
    // with the number of steps
    Accepted(u32),
    Found(Finding),
    // with the units left
    Unfinished(u32),
}

impl fmt::Display for Outcome {
    ghost output = { λ x. Some (outcome_text x) };

    fn fmt<W: fmt::Write>(&self, f: &mut fmt::Formatter<W>) -> fmt::Result {
        match *self {
            Outcome::Accepted(_) => write!(f, "accepted"),
            Outcome::Found(finding) => write!(f, "finding {finding}"),
            Outcome::Unfinished(left) => write!(f, "unfinished {left}"),
        }
    }
}
