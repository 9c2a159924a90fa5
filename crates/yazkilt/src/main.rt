// Assembles the sample and the fitting program from text, runs them to their answers, and prints their steps and logs.
#![tactic(auto)]

mod fitting;
mod logged;
mod world;

use assembler::text::assemble;
use encoding::instruction::Instruction;
use fitting::{AUXILIARY, PRIMARY, SAMPLE, TEXT};
use logged::log_run;
use printer::listing::print_program;
use runner::job::Job;
use world::{Happened, World};

// No run here takes more steps.
const BOUND: u32 = 1000;

// Room for the program.
const ROOM: usize = 64;

const EMPTY: Instruction = Instruction {
    first: 0,
    second: 0,
};

// The instruction at the pc as it is written, below the header line of the listing.
fn line_at(listing: &str, pc: u32) -> &str {
    listing.lines().nth(pc as usize + 1).unwrap_or("answer 1")
}

// One line for one step: where it was, what it said and what it changed.
fn show(rt: &HostRuntime, happened: Happened, world: &World) -> anyhow::Result<()> {
    if let Some(i) = happened.destination()
        && let Some(word) = world.cpu.registers.get(usize::from(i))
    {
        print!(rt; " | r{i} = {word}")?;
    }
    if let Some(touch) = happened.touch {
        print!(rt;
            " | cell {}: {} to {}",
            touch.cell, touch.before, touch.after
        )?;
    }
    if happened.answer.is_none() {
        print!(rt; " | flag {}", u8::from(world.cpu.flag))?;
    }
    println!(rt)?;
    Ok(())
}

// Steps the machine until it answers, at most as often as the bound says.
fn trace(rt: &HostRuntime, job: Job) -> anyhow::Result<()> {
    let listing = print_program(rt.alloc(), job.program)?;
    let mut world = World::new(rt.alloc(), job);
    for step in 1..=job.bound {
        let pc = world.cpu.pc;
        let line = line_at(listing.as_str(), pc);
        print!(rt; "step {step} pc {pc}: {line}")?;
        let happened = world.step()?;
        show(rt, happened, &world)?;
        if let Some(answer) = happened.answer {
            println!(rt; "answered {answer} in step {step}")?;
            return Ok(());
        }
    }
    println!(rt; "out of steps")?;
    Ok(())
}

// The program that a text assembles to in the table; a refusal is told in this program's own words, and leaves no program.
fn assembled<'a>(
    rt: &HostRuntime,
    text: &str,
    table: &'a mut [Instruction],
) -> anyhow::Result<&'a [Instruction]> {
    match assemble(text, table) {
        Ok(length) => Ok(table.get(0..length).unwrap_or(&[])),
        Err(error) => {
            let refusal = error.refusal();
            println!(rt; "refused {} {}", refusal.number, refusal.value)?;
            Ok(&[])
        }
    }
}

// The fitting program step by step.
fn fit(rt: &HostRuntime) -> anyhow::Result<()> {
    let mut table = [EMPTY; ROOM];
    let program = assembled(rt, TEXT, &mut table)?;
    let length = program.len();
    let targets = PRIMARY.len();
    let measured = AUXILIARY.len();
    println!(rt; "program {length} primary {targets} auxiliary {measured}")?;
    let job = Job {
        program,
        primary: &PRIMARY,
        auxiliary: &AUXILIARY,
        bound: BOUND,
    };
    trace(rt, job)?;
    println!(rt; "its log:")?;
    log_run(rt, job)
}

// The sample and its log.
fn sample(rt: &HostRuntime) -> anyhow::Result<()> {
    let mut table = [EMPTY; ROOM];
    let program = assembled(rt, SAMPLE, &mut table)?;
    println!(rt; "the sample:")?;
    let job = Job {
        program,
        primary: &[],
        auxiliary: &[7],
        bound: 9,
    };
    log_run(rt, job)
}

fn main(rt: HostRuntime) -> anyhow::Result<()> {
    sample(&rt)?;
    fit(&rt)
}
