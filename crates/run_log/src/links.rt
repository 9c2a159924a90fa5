// The link rules, tried on rows and lines that are at hand.
ghost use Rattle.std.specs.Prelude.{◌≡◌, ◌<◌, ◌==◌, length, Decides};
ghost use Rattle.run_log.specs.Log.{zeroed, IsLog};
ghost use Rattle.run_log.specs.Rules.{row_at, line_at, from_line, opens_touch, from_step, leads_to};
ghost use Rattle.run_log.specs.Rules.{test_line_order, test_line_step, test_line_origin, test_step_origin, test_next_link};
ghost use Rattle.run_log.specs.Rules.{line_finding, link_finding, LinesPass, RowsPass};

use dossier::record::{Line, Row, Touch};

// Whether the row is a touch from this line.
pub fn is_from_line(row: Row, line: u64) -> bool
    ensures { result ≡ from_line line row }
{
    matches!(row, Row::FromLine(touch) if u64::from(touch.origin) == line)
}

// Whether the row is a touch from this step.
pub fn is_from_step(row: Row, step: u64) -> bool
    ensures { result ≡ from_step step row }
{
    matches!(row, Row::FromStep(touch) if u64::from(touch.origin) == step)
}

// Whether the line opens this touch, which is that of this step, at which the cell was still 0.
pub fn opens(line: Line, touch: Touch, step: u64) -> bool
    ensures { result ≡ opens_touch step touch line }
{
    line.cell == touch.cell && u64::from(line.step) == step && touch.before == 0
}

// Whether the row is a touch of the same cell that leaves what `touch` finds and leads on to this step.
pub fn leads_to(row: Row, touch: Touch, step: u64) -> bool
    ensures { result ≡ leads_to step touch row }
{
    match row {
        Row::FromLine(former) | Row::FromStep(former) => {
            former.cell == touch.cell
                && former.after == touch.before
                && u64::from(former.next) == step
        }
        _ => false,
    }
}

// Row `t`, counted from 1; outside the log there is no touch.
fn row_at(rows: &[Row], t: usize) -> Row
    ensures { result ≡ row_at rows.now t }
{
    t.checked_sub(1)
        .and_then(|i| rows.get(i))
        .copied()
        .unwrap_or(Row::Plain)
}

// Rule 24: the cell of this line, which is line `j`, is a multiple of 4 and above the former line's.
fn keeps_order(lines: &[Line], j: usize, line: Line) -> bool
    requires at { line ≡ line_at lines.now j }
    requires inside { j < length lines.now }
    ensures { result ≡ test_line_order lines.now j }
{
    line.cell % 4 == 0 && (j == 0 || lines[j - 1].cell < line.cell)
}

// Rule 25: the line's step is in the log, and its row is a touch from this line.
fn opens_row(rows: &[Row], j: usize, line: Line) -> bool
    ensures { result ≡ test_line_step rows.now j line }
{
    let step = line.step as usize;
    (1..=rows.len()).contains(&step) && is_from_line(row_at(rows, step), j as u64)
}

// Rule 31 of a touch from a line: the line has its cell and step, and the cell was still 0.
fn comes_from_line(lines: &[Line], t: usize, touch: Touch) -> bool
    ensures { result ≡ test_line_origin zeroed lines.now t touch }
{
    lines
        .get(touch.origin as usize)
        .is_some_and(|line| opens(*line, touch, t as u64))
}

// Rule 31 of a touch from a step: an earlier touch of its cell left what it finds, and leads on to it.
fn comes_from_step(rows: &[Row], t: usize, touch: Touch) -> bool
    ensures { result ≡ test_step_origin rows.now t touch }
{
    let origin = touch.origin as usize;
    origin < t && leads_to(row_at(rows, origin), touch, t as u64)
}

// Rule 32: next is 0, or a later touch from this step.
fn leads_on(rows: &[Row], t: usize, touch: Touch) -> bool
    ensures { result ≡ test_next_link rows.now t touch }
{
    let next = touch.next as usize;
    next == 0 || t < next && is_from_step(row_at(rows, next), t as u64)
}

// Rows and lines that are tried.
#[derive(Clone, Copy)]
struct Log<'a> {
    rows: &'a [Row],
    lines: &'a [Line],
}

impl<'a> Log<'a> {
    // Whether this line, which is line `j`, keeps its rules.
    fn line_keeps(self, j: usize, line: Line) -> bool
        requires at { line ≡ line_at self.lines.now j }
        requires inside { j < length self.lines.now }
        ensures { result ≡ (line_finding self.entry.rows.now self.entry.lines.now j == 0) }
    {
        keeps_order(self.lines, j, line) && opens_row(self.rows, j, line)
    }

    // Whether this row, as row `t`, keeps its link rules.
    fn row_keeps(self, t: usize, row: Row) -> bool
        ensures { result ≡ (link_finding zeroed self.entry.rows.now self.entry.lines.now t row == 0) }
    {
        let Log { rows, lines } = self;
        match row {
            Row::FromLine(touch) => comes_from_line(lines, t, touch) && leads_on(rows, t, touch),
            Row::FromStep(touch) => comes_from_step(rows, t, touch) && leads_on(rows, t, touch),
            _ => true,
        }
    }

    // Whether each line keeps its rules.
    fn lines_keep(self) -> bool
        ensures { Decides result (LinesPass self.entry.rows.now self.entry.lines.now) }
    {
        self.lines
            .iter()
            .enumerate()
            .all(|(j, line)| self.line_keeps(j, *line))
    }

    // Whether each row keeps its link rules.
    fn rows_keep(self) -> bool
        ensures { Decides result (RowsPass zeroed self.entry.rows.now self.entry.lines.now) }
    {
        self.rows
            .iter()
            .enumerate()
            .all(|(i, row)| self.row_keeps(i + 1, *row))
    }
}

// Whether rows and lines keep the link rules: they do exactly when they are the log of what
// the rows say that the steps did, over memory that starts at 0.
pub fn keeps_links(rows: &[Row], lines: &[Line]) -> bool
    ensures { Decides result (IsLog zeroed rows.now lines.now) }
{
    let log = Log { rows, lines };
    log.lines_keep() && log.rows_keep()
}
