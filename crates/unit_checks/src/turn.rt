// A unit that is checked, and how its check goes from rule to rule.
ghost use Rattle.std.specs.Prelude.{◌≡◌, ◌+◌};
ghost use Rattle.rules.specs.Units.{unit_at, part_of, place_of, opened, entered, unless, unreadable, needed};

use dossier::record::Head;
use dossier::refusal::{Fault, Part, Refusal};
use machine::cpu::Cpu;
use rules::finding::{Finding, Rule};
use rules::progress::{Stage, Unit};

// The turn of a unit, under the head that says how long the dossier's lists are.
#[derive(Clone, Copy, PartialEq, Eq, Debug)]
pub struct Turn {
    pub head: Head,
    pub unit: Unit,
}

// Unit number `taken`: instructions come first, then primary words, lines and rows.
fn unit_at(head: Head, taken: u32) -> Unit
    ensures { result ≡ unit_at head taken }
{
    if taken < head.instructions {
        return Unit::Instruction(taken);
    }
    let place = taken - head.instructions;
    if place < head.words {
        return Unit::Word(place);
    }
    let place = place - head.words;
    if place < head.lines {
        return Unit::Line(place);
    }
    Unit::Row(place - head.lines)
}

impl Turn {
    // The turn of the unit that comes after this many.
    pub fn new(head: Head, taken: u32) -> Turn
        ensures head { result.head ≡ head }
        ensures unit { result.unit ≡ unit_at head taken }
    {
        Turn {
            head,
            unit: unit_at(head, taken),
        }
    }

    fn part(self) -> Part
        ensures { result ≡ part_of self.unit }
    {
        match self.unit {
            Unit::Instruction(_) => Part::Instruction,
            Unit::Word(_) => Part::Word,
            Unit::Line(_) => Part::Line,
            Unit::Row(_) => Part::Row,
        }
    }

    pub(crate) fn place(self) -> u32
        ensures { result ≡ place_of self.unit }
    {
        match self.unit {
            Unit::Instruction(place) | Unit::Word(place) | Unit::Line(place) | Unit::Row(place) =>
                place,
        }
    }

    // The step of a row's unit: steps are counted from 1.
    pub(crate) fn step(self) -> u64
        ensures { result ≡ place_of self.unit + 1 }
    {
        u64::from(self.place()) + 1
    }

    // The stage in which a unit of this part is taken first.
    fn opening(self) -> Stage
        ensures { result ≡ opened self.unit }
    {
        match self.unit {
            Unit::Instruction(_) => Stage::Instructions,
            Unit::Word(_) => Stage::Words,
            Unit::Line(_) => Stage::Lines { former: None },
            Unit::Row(_) => Stage::Rows {
                cpu: Cpu::start(),
                ended: false,
            },
        }
    }

    // The stage in which the unit is taken: the first of a part opens a new one.
    pub fn stage(self, former: Stage) -> Stage
        ensures { result ≡ entered self.unit former }
    {
        if self.place() == 0 {
            self.opening()
        } else {
            former
        }
    }

    // The rule is broken at the unit unless the test holds.
    pub(crate) fn check(self, test: bool, rule: Rule) -> Result<(), Finding>
        ensures { result ≡ unless test self.unit rule }
    {
        test.then_some(()).ok_or_else(|| Finding::Broken {
            rule,
            part: self.part(),
            place: self.place(),
        })
    }

    // Finding 22 at the unit, with the whole fault. An item past its list is never asked for; a `From` for faults
    // would offer the layer 0 that fills its place here to everyone.
    fn find_fault(self, refusal: Refusal) -> Finding
        ensures { result ≡ unreadable self.unit refusal }
    {
        let fault = match refusal {
            Refusal::Past { part, place } => Fault {
                part,
                place,
                layer: 0,
            },
            Refusal::Unreadable(fault) => fault,
        };
        Finding::Unreadable {
            part: self.part(),
            place: self.place(),
            fault,
        }
    }

    // The record that was asked for; finding 22 at the unit where it is unreadable.
    pub(crate) fn need<R>(self, answer: Result<R, Refusal>) -> Result<R, Finding>
        ensures { result ≡ needed self.unit answer }
    {
        answer.map_err(|refusal| self.find_fault(refusal))
    }
}
