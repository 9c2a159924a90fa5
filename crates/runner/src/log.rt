// The steps of a run, logged one by one.
ghost use Rattle.std.specs.Prelude.{◌≡◌, ◌<◌, ◌≤◌, length, None};
ghost use Rattle.machine.specs.State.{start};
ghost use Rattle.machine.specs.declared.step.Demand.TheVariants.{Cell, Advice};
ghost use Rattle.machine.specs.Effects.{asked};
ghost use Rattle.tinyram.specs.Program.{operation, word_at};
ghost use Rattle.index.specs.Map.{Keeps, RoomFor};
ghost use Rattle.runner.specs.Filling.{Logged};
ghost use Rattle.runner.specs.Going.{made, Going, Onward, Finished};

use crate::ending::{Answered, Run};
use crate::job::Job;
use crate::touch::{first_record, later_record, linked, opened};
use dossier::record::Row;
use encoding::operation::Operation;
use index::entry::CellEntry;
use index::tree::{Index, Seat};
use machine::cpu::Cpu;
use machine::step::{Demand, after, asks, execute, fetch};

// A run that is being logged: what it was given, the tables that it fills, the index of the cells, how many were
// touched and how many steps made, the state after them, and the auxiliary words that they left. `Going` says what
// holds between two steps. It is a clause and no ghost field, since the check would ask for it after each call that
// writes to a table, where it does not hold yet.
#[derive(Drop)]
struct Log<'a, 'i, 'r, 'c> {
    job: Job<'a>,
    index: &'i mut Index,
    rows: &'r mut [Row],
    cells: &'c mut [CellEntry],
    touched: usize,
    steps: usize,
    cpu: Cpu,
    unread: &'a [u32],
}

impl<'a, 'i, 'r, 'c> Log<'a, 'i, 'r, 'c> {
    // A log of no step.
    fn new(
        job: Job<'a>,
        index: &'i mut Index,
        rows: &'r mut [Row],
        cells: &'c mut [CellEntry],
    ) -> Log<'a, 'i, 'r, 'c>
        ensures { result ≡ record { job = job.entry; index = index.entry; rows = rows.entry; cells = cells.entry; touched = 0; steps = 0; cpu = start; unread = job.entry.auxiliary } }
    {
        Log {
            job,
            index,
            rows,
            cells,
            touched: 0,
            steps: 0,
            cpu: Cpu::start(),
            unread: job.auxiliary,
        }
    }

    // Makes a step that gets this word or none, and has this row. The steps are counted in the log, since a row is written
    // at its place, and a later touch writes an earlier row as well.
    fn make(&mut self, by: Operation, got: Option<u32>, row: Row)
        requires { self.old.steps < length self.old.rows.now }
        ensures { self.new ≡ made self.old by got row }
    {
        self.rows[self.steps] = row;
        self.cpu = execute(self.cpu, by, got);
        self.steps += 1;
    }

    // A step that reads the auxiliary tape.
    fn hear(&mut self, by: Operation)
        requires going { Going self.old }
        requires more { self.old.steps < self.old.job.bound }
        requires by { by ≡ operation self.old.job.program.now self.old.cpu }
        requires asks { asked by self.old.cpu ≡ Advice }
        ensures { Onward self.old self.new None }
    {
        if let Some((&word, unread)) = self.unread.split_first() {
            self.unread = unread;
            self.make(by, Some(word), Row::Advice(word));
        } else {
            self.make(by, None, Row::AdviceEnd);
        }
    }

    // A step that loads from a cell or stores into it.
    fn touch(&mut self, by: Operation, cell: u32)
        requires going { Going self.old }
        requires more { self.old.steps < self.old.job.bound }
        requires by { by ≡ operation self.old.job.program.now self.old.cpu }
        requires asks { asked by self.old.cpu ≡ Cell cell }
        ensures { Onward self.old self.new None }
    {
        let step = self.steps as u32 + 1;
        let count = self.touched;
        // both are lent at once: the borrow checker has no rule yet for one that is read while the other is lent
        let (index, cells) = (&mut *self.index, &mut *self.cells);
        match index.find(cells, count, cell) {
            Seat::Free(slot) => {
                let value = after(by, &self.cpu, 0);
                let entry = opened(cell, step, value);
                self.index.insert(self.cells, count, slot, entry);
                self.touched += 1;
                let record = first_record(cell, count as u32, value);
                self.make(by, Some(0), Row::FromLine(record));
            }
            Seat::Taken(number) => {
                let entry = self.cells[number];
                let value = after(by, &self.cpu, entry.value);
                self.index.renew(self.cells, count, number, step, value);
                let record = later_record(entry, value);
                self.make(by, Some(entry.value), Row::FromStep(record));
                let former = entry.last as usize - 1;
                self.rows[former] = linked(self.rows[former], step);
            }
        }
    }

    // One step, and what it answers.
    fn step(&mut self) -> Option<u32>
        requires going { Going self.old }
        requires more { self.old.steps < self.old.job.bound }
        ensures { Onward self.old self.new result }
    {
        let by = fetch(self.job.program, self.cpu.pc);
        match asks(by, &self.cpu) {
            Demand::Nothing => self.make(by, None, Row::Plain),
            Demand::Cell(cell) => self.touch(by, cell),
            Demand::Primary => {
                let word = self.job.primary.get(self.cpu.place as usize).copied();
                self.make(by, word, Row::Plain);
            }
            Demand::Advice => self.hear(by),
            Demand::Halt(value) => {
                self.make(by, None, Row::Plain);
                return Some(value);
            }
        }
        None
    }

    // Steps until one answers or the bound is reached.
    fn finish(&mut self) -> Option<Answered>
        requires going { Going self.old }
        requires start { self.old.steps ≡ 0 }
        ensures { Finished self.old self.new result }
    {
        for _ in 0..self.job.bound {
            if let Some(value) = self.step() {
                return Some(Answered {
                    value,
                    step: self.steps as u32,
                });
            }
        }
        None
    }
}

// Logs the steps of a run. The cells stand in the order of their first touches.
pub fn log_steps(job: Job, index: &mut Index, rows: &mut [Row], cells: &mut [CellEntry]) -> Run
    requires keeps { Keeps index.old cells.old 0 }
    requires room { RoomFor index.old job.bound }
    requires rows { job.bound ≤ length rows.old }
    requires cells { job.bound ≤ length cells.old }
    requires few { job.bound ≤ 1000000 }
    ensures { Logged job.entry result index.new rows.old rows.new cells.old cells.new }
{
    let mut log = Log::new(job, index, rows, cells);
    let answer = log.finish();
    Run {
        answer,
        cells: log.touched as u32,
    }
}
