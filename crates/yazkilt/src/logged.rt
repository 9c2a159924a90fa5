// A program's run, logged into tables, written as a dossier's bytes and read back.
use checking::calls::check_all;
use codec::holder::ByteDossier;
use dossier::record::{Row, Touch};
use index::entry::CellEntry;
use layers::pair::Pair;
use runner::ending::Answered;
use runner::job::Job;
use runner::run::run;
use std::fmt;
use table::holder::TableDossier;
use writer::write::write;

// Room for the bytes of a dossier.
const BYTES: usize = 65_536;

// A row in columns: kind, cell, before, after, origin, next. An advice word takes the cell's column.
// The columns are this program's own text, so a type of its own carries them: `Row` has its text already, and crate `field`
// has these five words for its payload alone.
#[derive(Clone, Copy)]
struct Columns(Row);

impl fmt::Display for Columns {
    fn fmt<W: fmt::Write>(&self, f: &mut fmt::Formatter<W>) -> fmt::Result {
        let kind = u8::from(self.0.kind());
        let Touch {
            cell,
            before,
            after,
            origin,
            next,
        } = match self.0 {
            Row::FromLine(touch) | Row::FromStep(touch) => touch,
            Row::Advice(cell) => Touch {
                cell,
                ..Touch::default()
            },
            Row::Plain | Row::AdviceEnd => Touch::default(),
        };
        write!(f, "row {kind} {cell} {before} {after} {origin} {next}")
    }
}

fn show_rows(rt: &HostRuntime, rows: &[Row]) -> anyhow::Result<()> {
    for row in rows {
        let columns = Columns(*row);
        println!(rt; "{columns}")?;
    }
    Ok(())
}

fn show_cells(rt: &HostRuntime, cells: &[CellEntry]) -> anyhow::Result<()> {
    for entry in cells {
        let CellEntry {
            cell,
            first,
            last,
            value,
        } = *entry;
        println!(rt; "cell {cell} {first} {last} {value}")?;
    }
    Ok(())
}

// Writes the dossier of these tables, reads the bytes back, and checks what both mean.
fn keep<'a>(
    rt: &HostRuntime,
    job: Job<'a>,
    cells: &'a [CellEntry],
    rows: &'a [Row],
) -> anyhow::Result<()> {
    let mut bytes = vec![in rt.alloc(); 0u8; BYTES]?;
    let mut tables = TableDossier::new(job.bound, job.program, job.primary, cells, rows);
    let Ok(length) = write(&mut tables, &mut bytes) else {
        println!(rt; "the dossier was not written")?;
        return Ok(());
    };
    println!(rt; "dossier {length} bytes")?;
    let written = bytes.get(0..length).unwrap_or(&[]);
    let receipt = check_all(Pair::new(tables, ByteDossier::new(written))).receipt();
    print!(rt; "what tables and bytes both mean:\n{receipt}")?;
    Ok(())
}

// Runs the program into tables and prints the answer, the rows and the cells.
pub(crate) fn log_run(rt: &HostRuntime, job: Job) -> anyhow::Result<()> {
    let heap = rt.alloc();
    let mut rows = vec![in heap; Row::Plain; job.bound as usize]?;
    let mut cells = vec![in heap; CellEntry::default(); job.bound as usize]?;
    let ended = match run(heap, job, &mut rows, &mut cells) {
        Ok(ended) => ended,
        Err(refusal) => {
            println!(rt; "refused {}", refusal.number())?;
            return Ok(());
        }
    };
    let count = ended.cells;
    let steps = match ended.answer {
        Some(Answered { value, step }) => {
            println!(rt; "answered {value} in step {step} cells {count}")?;
            step
        }
        None => {
            println!(rt; "out of steps cells {count}")?;
            job.bound
        }
    };
    let rows = rows.get(0..steps as usize).unwrap_or(&[]);
    let cells = cells.get(0..count as usize).unwrap_or(&[]);
    show_rows(rt, rows)?;
    show_cells(rt, cells)?;
    keep(rt, job, cells, rows)
}
