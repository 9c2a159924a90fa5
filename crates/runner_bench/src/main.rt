// Steps per second of runs of 1,000,000 steps: one that stores into few cells, two that store into a new cell
// at every other step, and the ratios. What it measures goes to standard error, since it differs from run to run.
#![tactic(auto)]

use dossier::record::Row;
use encoding::instruction::Instruction;
use index::entry::CellEntry;
use runner::job::Job;
use runner::run::run;
use std::alloc::{AllocError, Global};
use std::io;
use std::time::Instant;

const BOUND: u32 = 1_000_000;

// 2,047 times `store.w r1, r2` and `add r1, r1, stride`, then `jmp 0`.
fn stores(heap: Global, stride: u32) -> Result<Vec<Instruction>, AllocError> {
    let mut program = Vec::new(heap);
    for _ in 0..2047 {
        program.push(Instruction {
            first: 0xE080_0000,
            second: 1,
        })?;
        program.push(Instruction {
            first: 0x2444_0000,
            second: stride,
        })?;
    }
    program.push(Instruction {
        first: 0xA400_0000,
        second: 0,
    })?;
    Ok(program)
}

// Steps per second of a run whose stores are a stride apart; 0 of one that is refused.
fn measure(rt: &HostRuntime, stride: u32) -> io::Result<u64> {
    let heap = rt.alloc();
    let program = stores(heap, stride)?;
    let job = Job {
        program: &program,
        primary: &[],
        auxiliary: &[],
        bound: BOUND,
    };
    let mut rows = vec![in heap; Row::Plain; BOUND as usize]?;
    let mut cells = vec![in heap; CellEntry::default(); BOUND as usize]?;
    let start = Instant::now(rt)?;
    let ended = run(heap, job, &mut rows, &mut cells);
    let took = u64::try_from(start.elapsed(rt)?.as_micros()).unwrap_or(u64::MAX);
    let Ok(run) = ended else {
        return Ok(0);
    };
    let touched = run.cells;
    // a clock that shows no time passed gives the rate 0, which is only printed
    let rate = 1_000_000_000_000u64.checked_div(took).unwrap_or(0);
    eprintln!(rt; "stride {stride}: {touched} cells in {took} us, {rate} steps per second")?;
    Ok(rate)
}

// One rate in hundredths of another.
fn hundredths(rate: u64, other: u64) -> u64 {
    rate.saturating_mul(100).checked_div(other).unwrap_or(0)
}

fn main(rt: HostRuntime) -> io::Result<()> {
    let few = measure(&rt, 0)?;
    let rising = hundredths(few, measure(&rt, 4)?);
    let scattered = hundredths(few, measure(&rt, 2_654_435_764)?);
    eprintln!(rt;
        "one cell to many: {rising} to 100 where they rise, {scattered} to 100 where they are scattered"
    )
}
