// The records of a dossier, taken into tables.
use dossier::listed::ListedRecord;
use dossier::questions::Dossier;
use dossier::record::{Head, Line, Row};
use dossier::refusal::Refusal;
use encoding::instruction::Instruction;
use index::entry::CellEntry;
use std::alloc::{AllocError, AllocFailed, Global};

// Why a dossier's records are in no tables.
#[derive(Clone, Copy, Debug)]
pub(crate) enum ReadError {
    Refused(Refusal),
    OutOfMemory,
}

impl From<Refusal> for ReadError {
    fn from(refusal: Refusal) -> ReadError {
        ReadError::Refused(refusal)
    }
}

impl<T: Drop> From<AllocFailed<T>> for ReadError {
    fn from(_failed: AllocFailed<T>) -> ReadError {
        ReadError::OutOfMemory
    }
}

impl From<AllocError> for ReadError {
    fn from(_error: AllocError) -> ReadError {
        ReadError::OutOfMemory
    }
}

#[derive(Drop)]
pub(crate) struct Tables {
    pub(crate) bound: u32,
    pub(crate) program: Vec<Instruction>,
    pub(crate) words: Vec<u32>,
    pub(crate) cells: Vec<CellEntry>,
    pub(crate) rows: Vec<Row>,
}

// The records of one part. The rule is a clause, since the dossier is borrowed, as in crate `writer`.
fn part<R: ListedRecord, D: Dossier>(
    heap: Global,
    dossier: &mut D,
    head: Head,
) -> Result<Vec<R>, ReadError>
    requires { D.Dossier.rule dossier.old }
    ensures { D.Dossier.rule dossier.new }
{
    let mut records = Vec::new(heap);
    for place in 0..R::count(head) {
        records.push(R::ask(dossier, place)?)?;
    }
    Ok(records)
}

// All records of a dossier that is readable throughout.
pub(crate) fn read<D: Dossier>(heap: Global, dossier: &mut D) -> Result<Tables, ReadError>
    requires { D.Dossier.rule dossier.old }
{
    let head = dossier.head()?;
    let program = part(heap, dossier, head)?;
    let words = part(heap, dossier, head)?;
    let lines: Vec<Line> = part(heap, dossier, head)?;
    let rows = part(heap, dossier, head)?;
    let cells = lines
        .iter()
        .map(|line| CellEntry {
            cell: line.cell,
            first: line.step,
            ..CellEntry::default()
        })
        .collect(heap)?;
    Ok(Tables {
        bound: head.bound,
        program,
        words,
        cells,
        rows,
    })
}
