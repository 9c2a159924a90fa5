// Where the parts of a file begin. The sums are below 2^38, so that they fit.
// The fields of 23, 11, 7, 11 and 24 bytes are the format's; a sum for each part is plainer than one over the kinds.
ghost use Rattle.std.specs.Prelude.{◌≡◌, ℕ, ◌+◌, ◌*◌};
ghost use Rattle.dossier.specs.declared.record.Head.{Head};
ghost use Rattle.codec.specs.Layout.{instructions_start, words_start, lines_start, rows_start, file_size};
ghost use Rattle.codec.specs.Held.{PartOfFile, instructions_placed, words_placed, lines_placed, rows_placed};

use dossier::listed::ListedRecord;
use dossier::record::{Head, Line, Row};
use encoding::instruction::Instruction;
use field::kind::Kind;
use std::ops::Range;

pub const HEAD_SIZE: usize = 23;

pub fn words_start(head: Head) -> usize
    ensures { result ≡ words_start head }
{
    HEAD_SIZE + 11 * head.instructions as usize
}

pub fn lines_start(head: Head) -> usize
    ensures { result ≡ lines_start head }
{
    words_start(head) + 7 * head.words as usize
}

pub fn rows_start(head: Head) -> usize
    ensures { result ≡ rows_start head }
{
    lines_start(head) + 11 * head.lines as usize
}

pub fn file_size(head: Head) -> usize
    ensures { result ≡ file_size head }
{
    rows_start(head) + 24 * head.rows as usize
}

// The kinds of record that stand in a part of a file: their fields, one after the other.
pub trait FilePart: ListedRecord + Kind {
    ghost start: { Head → ℕ };

    fn start(head: Head) -> usize
        ensures { result ≡ start head };

    // The part's list is what stands there, and the part ends within the file.
    ghost placed: { PartOfFile Self.TAG Self.SIZE Self.parsed Self.list Self.count start };
}

// Where the field of an item stands in a file.
pub fn field_range<R: FilePart>(head: Head, place: u32) -> Range<usize>
    ensures start { result.start ≡ R.FilePart.start head + (3 + R.Kind.SIZE) * place }
    ensures end { result.end ≡ R.FilePart.start head + (3 + R.Kind.SIZE) * (place + 1) }
{
    let size = 3 + R::SIZE as usize;
    let start = R::start(head) + size * place as usize;
    start..start + size
}

impl FilePart for Instruction {
    ghost start = { instructions_start };

    ghost placed = { instructions_placed };

    fn start(_head: Head) -> usize {
        HEAD_SIZE
    }
}

impl FilePart for u32 {
    ghost start = { words_start };

    ghost placed = { words_placed };

    fn start(head: Head) -> usize {
        words_start(head)
    }
}

impl FilePart for Line {
    ghost start = { lines_start };

    ghost placed = { lines_placed };

    fn start(head: Head) -> usize {
        lines_start(head)
    }
}

impl FilePart for Row {
    ghost start = { rows_start };

    ghost placed = { rows_placed };

    fn start(head: Head) -> usize {
        rows_start(head)
    }
}
