// The run of a program, and its log in lent tables.
ghost use Rattle.std.specs.Prelude.{◌≡◌, length};
ghost use Rattle.runner.specs.Refused.{refused};
ghost use Rattle.runner.specs.Ending.{run_of};
ghost use Rattle.runner.specs.Ran.{Answers, rows_after, cells_after};

use crate::ending::Run;
use crate::job::Job;
use crate::label::label;
use crate::limits::check;
use crate::log::log_steps;
use crate::refusal::RunRefusal;
use dossier::record::Row;
use index::entry::CellEntry;
use index::order::arrange;
use index::tree::Index;
use std::alloc::Global;

// Runs the program on its tapes for at most `bound` steps. The rows of the log fill the row table, and
// each touched cell, by rising cell, has an entry in the cell table. What is refused leaves both tables.
// The tables are no struct: the labels fill the rows alone, and the sort the entries.
pub fn run(
    heap: Global,
    job: Job,
    rows: &mut [Row],
    cells: &mut [CellEntry],
) -> Result<Run, RunRefusal>
    ensures answer { Answers result (refused job.entry.program.now job.entry.primary.now job.entry.bound (length rows.old) (length cells.old)) (run_of job.entry.program.now job.entry.primary.now job.entry.auxiliary.now job.entry.bound) }
    ensures rows { rows.new ≡ rows_after job.entry.program.now job.entry.primary.now job.entry.auxiliary.now job.entry.bound result rows.old }
    ensures cells { cells.new ≡ cells_after job.entry.program.now job.entry.primary.now job.entry.auxiliary.now job.entry.bound result cells.old }
{
    check(job, rows, cells)?;
    let mut index = Index::new(heap, job.bound as usize)?;
    let run = log_steps(job, &mut index, rows, cells);
    let count = run.cells as usize;
    arrange(cells, count);
    label(rows, &cells[..count]);
    Ok(run)
}
