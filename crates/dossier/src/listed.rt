// The kinds of record that stand in a list, and the question for each.
ghost use Rattle.std.specs.Prelude.{◌≡◌, ℕ, List};
ghost use Rattle.std.specs.List.{slice_get};
ghost use Rattle.dossier.specs.declared.record.Head.{Head};
ghost use Rattle.dossier.specs.declared.refusal.Part.{Part};
ghost use Rattle.dossier.specs.declared.refusal.Part.TheVariants as part;
ghost use Rattle.dossier.specs.Meaning.{Item, Meaning, Made, Listed, item_answer};

use crate::questions::Dossier;
use crate::record::{Head, Line, Record, Row};
use crate::refusal::{Part, Refusal};
use encoding::instruction::Instruction;

pub trait ListedRecord: Record {
    ghost PART: { Part };

    const PART: Part;

    ghost list: { Meaning → List (Item Self) };

    ghost count: { Head → ℕ };

    // How many records of this kind a dossier has under its head.
    fn count(head: Head) -> u32
        ensures { result ≡ count head };

    fn ask<D: Dossier>(dossier: &mut D, place: u32) -> Result<Self, Refusal>
        requires { D.Dossier.rule dossier.old }
        ensures kept { D.Dossier.rule dossier.new }
        ensures same { D.Dossier.meaning dossier.new ≡ D.Dossier.meaning dossier.old }
        ensures answer { result ≡ item_answer PART place (slice_get (list (D.Dossier.meaning dossier.old)) place) };

    ghost listed: { (m : Meaning) → Made m → Listed m.head count Self.numbers (list m) };
}

impl ListedRecord for Instruction {
    ghost PART = { part.Instruction };

    const PART: Part = Part::Instruction;

    ghost list = { λ m. m.instructions };

    ghost count = { λ h. h.instructions };

    ghost listed = { λ m made. made.instructions };

    #[inline(always)]
    fn count(head: Head) -> u32 {
        head.instructions
    }

    #[inline(always)]
    fn ask<D: Dossier>(dossier: &mut D, place: u32) -> Result<Instruction, Refusal> {
        dossier.instruction(place)
    }
}

impl ListedRecord for u32 {
    ghost PART = { part.Word };

    const PART: Part = Part::Word;

    ghost list = { λ m. m.words };

    ghost count = { λ h. h.words };

    ghost listed = { λ m made. made.words };

    #[inline(always)]
    fn count(head: Head) -> u32 {
        head.words
    }

    #[inline(always)]
    fn ask<D: Dossier>(dossier: &mut D, place: u32) -> Result<u32, Refusal> {
        dossier.word(place)
    }
}

impl ListedRecord for Line {
    ghost PART = { part.Line };

    const PART: Part = Part::Line;

    ghost list = { λ m. m.lines };

    ghost count = { λ h. h.lines };

    ghost listed = { λ m made. made.lines };

    #[inline(always)]
    fn count(head: Head) -> u32 {
        head.lines
    }

    #[inline(always)]
    fn ask<D: Dossier>(dossier: &mut D, place: u32) -> Result<Line, Refusal> {
        dossier.line(place)
    }
}

impl ListedRecord for Row {
    ghost PART = { part.Row };

    const PART: Part = Part::Row;

    ghost list = { λ m. m.rows };

    ghost count = { λ h. h.rows };

    ghost listed = { λ m made. made.rows };

    #[inline(always)]
    fn count(head: Head) -> u32 {
        head.rows
    }

    #[inline(always)]
    fn ask<D: Dossier>(dossier: &mut D, place: u32) -> Result<Row, Refusal> {
        dossier.row(place)
    }
}
