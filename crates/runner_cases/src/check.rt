// Tables with a mark in every entry, and what a run leaves in them.
use dossier::record::Row;
use index::entry::CellEntry;
use runner::ending::Run;
use runner::job::Job;
use runner::refusal::RunRefusal;
use runner::run::run;
use std::alloc::Global;
use std::process::Abort;
use std::test::Fail;

const MARKED_ROW: Row = Row::Advice(77);

const MARKED_ENTRY: CellEntry = CellEntry {
    cell: 1,
    first: 2,
    last: 3,
    value: 4,
};

// How a run ends, and what its tables begin with.
#[derive(Clone, Copy)]
pub struct Log<'a> {
    pub run: Run,
    pub rows: &'a [Row],
    pub cells: &'a [CellEntry],
}

// How many rows and how many cells the tables have room for.
#[derive(Clone, Copy)]
pub struct Room {
    pub rows: usize,
    pub cells: usize,
}

// Whether the rows begin with those expected, and have their mark beyond.
fn check_rows(rt: &impl Abort, rows: &[Row], expected: &[Row]) {
    assert!(rt; expected.len() <= rows.len());
    let (front, rest) = rows.split_at(expected.len());
    assert_eq!(rt; front, expected);
    assert!(rt; rest.iter().all(|row| *row == MARKED_ROW));
}

// All numbers of an entry, since entries compare by their cells alone.
fn numbers_of(entry: CellEntry) -> [u32; 4] {
    [entry.cell, entry.first, entry.last, entry.value]
}

// Whether the entries begin with those expected, and have their mark beyond.
fn check_cells(rt: &impl Abort, cells: &[CellEntry], expected: &[CellEntry]) {
    assert!(rt; expected.len() <= cells.len());
    for (place, entry) in cells.iter().enumerate() {
        let wanted = expected.get(place).copied().unwrap_or(MARKED_ENTRY);
        assert_eq!(rt; numbers_of(*entry), numbers_of(wanted));
    }
}

// Whether a run ends so, with these rows and entries.
pub fn check_run(rt: &impl Abort, heap: Global, job: Job, log: Log) {
    let mut rows = [MARKED_ROW; 24];
    let mut cells = [MARKED_ENTRY; 24];
    assert_eq!(rt; run(heap, job, &mut rows, &mut cells), Ok(log.run));
    check_rows(rt, &rows, log.rows);
    check_cells(rt, &cells, log.cells);
}

// Whether a run with so much room is refused so, and leaves both tables.
pub fn check_refusal(
    rt: &impl Abort,
    heap: Global,
    job: Job,
    room: Room,
    refusal: RunRefusal,
) -> Result<(), Fail> {
    let mut rows = vec![in heap; MARKED_ROW; room.rows]?;
    let mut cells = vec![in heap; MARKED_ENTRY; room.cells]?;
    assert_eq!(rt; run(heap, job, &mut rows, &mut cells), Err(refusal));
    check_rows(rt, &rows, &[]);
    check_cells(rt, &cells, &[]);
    Ok(())
}
