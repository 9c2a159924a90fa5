// A machine with its memory and its auxiliary tape. Crate `runner` logs whole runs and gives no single step out, which the
// trace prints.
use encoding::operation::Operation;
use machine::cpu::Cpu;
use machine::step::{Demand, after, asks, execute, fetch};
use runner::job::Job;
use std::alloc::{AllocError, Global};
use std::collections::BTreeMap;

// A cell that a step touched, with its value before and after.
#[derive(Clone, Copy)]
pub struct Access {
    pub cell: u32,
    pub before: u32,
    pub after: u32,
}

// What a step did.
#[derive(Clone, Copy)]
pub struct Happened {
    pub operation: Operation,
    pub touch: Option<Access>,
    pub answer: Option<u32>,
}

impl Happened {
    // The register that the operation may change.
    pub(crate) fn destination(&self) -> Option<u8> {
        match self.operation {
            Operation::Compute { to, .. }
            | Operation::Not { to, .. }
            | Operation::Move { to, .. }
            | Operation::MoveIfFlag { to, .. }
            | Operation::Load { to, .. }
            | Operation::Read { to, .. } => Some(to),
            _ => None,
        }
    }
}

// What the machine was given, its state, its memory by cells, and the auxiliary words that are left.
#[derive(Drop)]
pub struct World<'a> {
    job: Job<'a>,
    pub cpu: Cpu,
    memory: BTreeMap<u32, u32>,
    unread: &'a [u32],
}

impl<'a> World<'a> {
    // All is 0 at the start.
    pub(crate) fn new(heap: Global, job: Job<'a>) -> World<'a> {
        World {
            job,
            cpu: Cpu::start(),
            memory: BTreeMap::new(heap),
            unread: job.auxiliary,
        }
    }

    fn next_advice(&mut self) -> Option<u32> {
        let (word, unread) = self.unread.split_first()?;
        self.unread = unread;
        Some(*word)
    }

    fn touch(&mut self, operation: Operation, cell: u32) -> Result<Access, AllocError> {
        let before = self.memory.get(&cell).copied().unwrap_or(0);
        let after = after(operation, &self.cpu, before);
        self.memory.insert(cell, after)?;
        Ok(Access {
            cell,
            before,
            after,
        })
    }

    pub(crate) fn step(&mut self) -> Result<Happened, AllocError> {
        let operation = fetch(self.job.program, self.cpu.pc);
        let mut happened = Happened {
            operation,
            touch: None,
            answer: None,
        };
        let got = match asks(operation, &self.cpu) {
            Demand::Nothing => None,
            Demand::Cell(cell) => {
                let access = self.touch(operation, cell)?;
                happened.touch = Some(access);
                Some(access.before)
            }
            Demand::Primary => self.job.primary.get(self.cpu.place as usize).copied(),
            Demand::Advice => self.next_advice(),
            Demand::Halt(answer) => {
                happened.answer = Some(answer);
                None
            }
        };
        self.cpu = execute(self.cpu, operation, got);
        Ok(happened)
    }
}
