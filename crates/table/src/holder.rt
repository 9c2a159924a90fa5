// A bound, and a run's program, words and filled entries, as a dossier.
ghost use Rattle.std.specs.Prelude.{◌≡◌, ◌^◌, ◌<◌, map};
ghost use Rattle.std.specs.List.{slice_get};
ghost use Rattle.dossier.specs.Meaning.{item_answer};
ghost use Rattle.table.specs.Held.{head_of, listed, table_meaning};

use crate::entry::Entry;
use dossier::listed::ListedRecord;
use dossier::questions::Dossier;
use dossier::record::{Head, Line, Row};
use dossier::refusal::{Part, Refusal};
use encoding::instruction::Instruction;
use index::entry::CellEntry;

const LAYER: u32 = 2;

// What is lent, and the head that counts it. The bound and the lists are named one by one, as the promise of `new`
// and the meaning name them.
#[derive(Drop)]
pub struct TableDossier<'a> {
    bound: u32,
    program: &'a [Instruction],
    primary: &'a [u32],
    cells: &'a [CellEntry],
    rows: &'a [Row],
    head: Option<Head>,
}

impl<'a> TableDossier<'a> {
    // There is no head if a list has more than 4,294,967,295 items.
    pub fn new(
        bound: u32,
        program: &'a [Instruction],
        primary: &'a [u32],
        cells: &'a [CellEntry],
        rows: &'a [Row],
    ) -> TableDossier<'a>
        ensures rule { ⟦<TableDossier<'a> as Dossier>⟧.rule result }
        ensures meant { ⟦<TableDossier<'a> as Dossier>⟧.meaning result ≡ table_meaning bound program.now primary.now cells.now rows.now }
    {
        TableDossier {
            bound,
            program,
            primary,
            cells,
            rows,
            head: head_of(bound, program, primary, cells, rows),
        }
    }
}

impl<'a> Dossier for TableDossier<'a> {
    ghost meaning = { λ d. table_meaning d.bound d.program.now d.primary.now d.cells.now d.rows.now };

    ghost rule = { λ d. (d.bound < 2 ^ 32) × (d.head ≡ head_of d.bound d.program.now d.primary.now d.cells.now d.rows.now) };

    fn head(&mut self) -> Result<Head, Refusal> {
        self.head.ok_or(Refusal::unreadable(Part::Head, 0, LAYER))
    }

    fn instruction(&mut self, place: u32) -> Result<Instruction, Refusal> {
        item(self.head, self.program, place)
    }

    fn word(&mut self, place: u32) -> Result<u32, Refusal> {
        item(self.head, self.primary, place)
    }

    fn line(&mut self, place: u32) -> Result<Line, Refusal> {
        item(self.head, self.cells, place)
    }

    fn row(&mut self, place: u32) -> Result<Row, Refusal> {
        item(self.head, self.rows, place)
    }
}

fn head_of(
    bound: u32,
    program: &[Instruction],
    primary: &[u32],
    cells: &[CellEntry],
    rows: &[Row],
) -> Option<Head>
    ensures { result ≡ head_of bound program.now primary.now cells.now rows.now }
{
    Some(Head {
        instructions: u32::try_from(program.len()).ok()?,
        words: u32::try_from(primary.len()).ok()?,
        lines: u32::try_from(cells.len()).ok()?,
        rows: u32::try_from(rows.len()).ok()?,
        bound,
    })
}

// The item that the entry at a place of a table gives; without a head there is none. The place is compared with the length
// and not taken by `get`, since a must-fail edit moves this comparison by one.
fn item<E: Entry>(head: Option<Head>, entries: &[E], place: u32) -> Result<E::Record, Refusal>
    ensures { result ≡ item_answer E.Record.ListedRecord.PART place (slice_get (listed head (map E.Entry.recorded entries.now)) place) }
{
    let part = <E::Record as ListedRecord>::PART;
    match head {
        None => Err(Refusal::Past { part, place }),
        Some(_) if place as usize >= entries.len() => Err(Refusal::Past { part, place }),
        Some(_) => Ok(entries[place as usize].record()),
    }
}
