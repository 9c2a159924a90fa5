// One step of the machine.
ghost use Rattle.std.specs.Prelude.{◌≡◌};
ghost use Rattle.machine.specs.Effects.{fetched, asked, left, concluded, received, stepped};
ghost use Rattle.machine.specs.Laws.{Leaves, Frame};

use crate::cpu::Cpu;
use encoding::instruction::Instruction;
use encoding::operation::Operation;
use word::cell::{load, store};
use word::outcome::{Outcome, compare, compute, invert};

// What a step asks of the outside.
#[derive(Clone, Copy, PartialEq, Eq, Debug)]
pub enum Demand {
    Nothing,
    // the cell at this address, a multiple of 4
    Cell(u32),
    // the next word of the primary tape
    Primary,
    // the next word of the auxiliary tape
    Advice,
    // to stop, with this answer
    Halt(u32),
}

// The operation of instruction number `pc`: past the program it is `answer 1`.
pub fn fetch(program: &[Instruction], pc: u32) -> Operation
    ensures { result ≡ fetched program.now pc }
{
    program.get(pc as usize).map_or(Operation::ANSWER_ONE, |instruction| instruction.operation())
}

// What the operation asks of the outside.
pub fn asks(operation: Operation, cpu: &Cpu) -> Demand
    ensures { result ≡ asked operation cpu.now }
{
    match operation {
        Operation::Store { address, .. } | Operation::Load { address, .. } => {
            let at = cpu.value(address);
            Demand::Cell(at - at % 4)
        }
        Operation::Read { tape, .. } => match cpu.value(tape) {
            0 => Demand::Primary,
            1 => Demand::Advice,
            _ => Demand::Nothing,
        },
        Operation::Answer { value } => Demand::Halt(cpu.value(value)),
        _ => Demand::Nothing,
    }
}

// Apart from `after`, whose second promise is proved from the first.
#[inline(always)]
fn leave(operation: Operation, cpu: &Cpu, before: u32) -> u32
    ensures { result ≡ left operation cpu.now before }
{
    match operation {
        Operation::Store {
            size,
            from,
            address,
        } => store(size, cpu.value(address), cpu.register(from), before),
        _ => before,
    }
}

// The value after the step of the cell that it touches, from the value before.
#[inline(always)]
pub fn after(operation: Operation, cpu: &Cpu, before: u32) -> u32
    ensures value { result ≡ left operation cpu.now before }
    ensures bytes { Leaves operation cpu.now before result }
{
    leave(operation, cpu, before)
}

// A result in register `to`, and its flag.
fn conclude(cpu: Cpu, to: u8, outcome: Outcome) -> Cpu
    ensures { result ≡ concluded cpu to outcome }
{
    cpu.write(to, outcome.value)
        .set_flag(outcome.flag)
        .advance()
}

// What `read` does with the next word of the tape, if there is one. Tapes other than 0 and 1 are empty.
fn receive(cpu: Cpu, to: u8, tape: u32, word: Option<u32>) -> Cpu
    ensures { result ≡ received cpu to tape word }
{
    match word {
        Some(word) if tape == 0 => cpu.pass().write(to, word).set_flag(false).advance(),
        Some(word) if tape == 1 => cpu.write(to, word).set_flag(false).advance(),
        _ => cpu.write(to, 0).set_flag(true).advance(),
    }
}

// Apart from `execute`, whose second promise is proved from the first.
#[inline(always)]
fn perform(cpu: Cpu, operation: Operation, got: Option<u32>) -> Cpu
    ensures { result ≡ stepped operation got cpu }
{
    match operation {
        Operation::Compute {
            by,
            to,
            left,
            right,
        } => conclude(cpu, to, compute(by, cpu.register(left), cpu.value(right))),
        Operation::Not { to, from } => conclude(cpu, to, invert(cpu.value(from))),
        Operation::Compare { by, left, right } => {
            cpu.set_flag(compare(by, cpu.register(left), cpu.value(right)))
                .advance()
        }
        Operation::Move { to, from } => cpu.write(to, cpu.value(from)).advance(),
        Operation::MoveIfFlag { to, from } if cpu.flag => cpu.write(to, cpu.value(from)).advance(),
        Operation::Jump { when, target } if cpu.meets(when) => cpu.jump(cpu.value(target)),
        Operation::Load { size, to, address } => {
            cpu.write(to, load(size, cpu.value(address), got.unwrap_or(0)))
                .advance()
        }
        Operation::Read { to, tape } => receive(cpu, to, cpu.value(tape), got),
        Operation::Answer { .. } => cpu,
        _ => cpu.advance(),
    }
}

// The state after the step. `got` is the value of the cell that the step asks for,
// or the word of the tape that it asks for, if there is one.
#[inline(always)]
pub fn execute(cpu: Cpu, operation: Operation, got: Option<u32>) -> Cpu
    ensures value { result ≡ stepped operation got cpu }
    ensures frame { Frame operation got cpu result }
{
    perform(cpu, operation, got)
}
