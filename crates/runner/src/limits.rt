// What is tried before a run begins.
ghost use Rattle.std.specs.Prelude.{◌≡◌, length, ◌≤◌, None};
ghost use Rattle.std.specs.Result.{result_err};
ghost use Rattle.runner.specs.Refused.{limit_broken, limit_refused, first_ill_formed, form_refused, room_wanted, refused};

use crate::job::Job;
use crate::refusal::{Limit, RunRefusal};
use dossier::record::Row;
use encoding::instruction::Instruction;
use index::entry::CellEntry;

// The limits on the program, the primary words and the bound. Crate outset has these numbers too: a run's limits and
// a checking's are two rules of the format that happen to have the same numbers, and neither crate is below the other.
const MAX_PROGRAM: usize = 4096;

const MAX_PRIMARY: usize = 4096;

const MAX_BOUND: u32 = 1_000_000;

// Refuses the first number that is outside its limits.
fn check_limits(job: Job) -> Result<(), RunRefusal>
    ensures { result_err result ≡ limit_refused (limit_broken (length job.entry.program.now) (length job.entry.primary.now) job.entry.bound) None }
{
    if !(1..=MAX_PROGRAM).contains(&job.program.len()) {
        Err(RunRefusal::Outside(Limit::Program))
    } else if job.primary.len() > MAX_PRIMARY {
        Err(RunRefusal::Outside(Limit::Primary))
    } else if !(1..=MAX_BOUND).contains(&job.bound) {
        Err(RunRefusal::Outside(Limit::Bound))
    } else {
        Ok(())
    }
}

// The place of the first ill-formed instruction.
fn first_ill_formed(program: &[Instruction]) -> Option<usize>
    ensures { result ≡ first_ill_formed program.now }
{
    program
        .iter()
        .position(|instruction| !instruction.well_formed())
}

// Refuses the first ill-formed instruction of a program that is not too long.
fn check_form(program: &[Instruction]) -> Result<(), RunRefusal>
    requires { length program.now ≤ 4096 }
    ensures { result_err result ≡ form_refused (first_ill_formed program.now) None }
{
    match first_ill_formed(program) {
        Some(place) => Err(RunRefusal::IllFormed {
            place: place as u32,
        }),
        None => Ok(()),
    }
}

// Refuses tables that do not have an entry for each step.
fn check_room(bound: u32, rows: &[Row], cells: &[CellEntry]) -> Result<(), RunRefusal>
    ensures { result_err result ≡ room_wanted bound (length rows.now) (length cells.now) }
{
    if rows.len() < bound as usize || cells.len() < bound as usize {
        Err(RunRefusal::Room { needed: bound })
    } else {
        Ok(())
    }
}

// Refuses what a run cannot begin with: the numbers first, then the instructions, then the tables.
pub fn check(job: Job, rows: &[Row], cells: &[CellEntry]) -> Result<(), RunRefusal>
    ensures { result_err result ≡ refused job.entry.program.now job.entry.primary.now job.entry.bound (length rows.now) (length cells.now) }
{
    check_limits(job)?;
    check_form(job.program)?;
    check_room(job.bound, rows, cells)
}
