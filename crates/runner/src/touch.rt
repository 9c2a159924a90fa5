// What the touch of a cell records.
ghost use Rattle.std.specs.Prelude.{◌≡◌};
ghost use Rattle.runner.specs.Sofar.{link_to, first_touch, later_touch, opened_entry};

use dossier::record::{Row, Touch};
use index::entry::CellEntry;

// A touch's row, linked on to the next touch of its cell.
pub fn linked(row: Row, next: u32) -> Row
    ensures { result ≡ link_to next row }
{
    match row {
        Row::FromLine(touch) => Row::FromLine(Touch { next, ..touch }),
        Row::FromStep(touch) => Row::FromStep(Touch { next, ..touch }),
        _ => row,
    }
}

// What the first touch of a cell records. Its origin is the number of the cell's entry until the cells are in order.
pub fn first_record(cell: u32, number: u32, after: u32) -> Touch
    ensures { result ≡ first_touch cell number after }
{
    Touch {
        cell,
        after,
        origin: number,
        ..Touch::default()
    }
}

// What a later touch records of a cell with this entry.
pub fn later_record(entry: CellEntry, after: u32) -> Touch
    ensures { result ≡ later_touch entry after }
{
    Touch {
        cell: entry.cell,
        before: entry.value,
        after,
        origin: entry.last,
        ..Touch::default()
    }
}

// The entry of a cell at its first touch.
pub fn opened(cell: u32, step: u32, value: u32) -> CellEntry
    ensures { result ≡ opened_entry cell step value }
{
    CellEntry {
        cell,
        first: step,
        last: step,
        value,
    }
}
