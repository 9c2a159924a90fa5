// The first touches' origins: the numbers of the opening lines.
ghost use Rattle.std.specs.Prelude.{◌≡◌, ◌^◌, ◌<◌, ◌≤◌, length};
ghost use Rattle.run_log.specs.Rules.{row_at};
ghost use Rattle.runner.specs.Label.{with_line, Openings, Labelled, first_of};

use dossier::record::{Row, Touch};
use index::entry::CellEntry;

// A first touch's row, with its line as origin.
fn with_line(row: Row, line: u32) -> Row
    ensures { result ≡ with_line line row }
{
    match row {
        Row::FromLine(touch) => Row::FromLine(Touch {
            origin: line,
            ..touch
        }),
        _ => row,
    }
}

// Gives the first touch of each of these cells its line.
pub fn label(rows: &mut [Row], cells: &[CellEntry])
    requires openings { Openings (length cells.now) (length rows.old) (first_of cells.now) }
    requires short { length cells.now < 2 ^ 32 }
    ensures { Labelled (length cells.now) (first_of cells.now) (row_at rows.old) (row_at rows.new) }
{
    for (line, entry) in cells.iter().enumerate() {
        let at = entry.first as usize - 1;
        rows[at] = with_line(rows[at], line as u32);
    }
}
