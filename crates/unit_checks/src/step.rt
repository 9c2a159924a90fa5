// The rules of a row that need no other item.
ghost use Rattle.std.specs.Prelude.{◌≡◌};
ghost use Rattle.machine.specs.Effects.{left};
ghost use Rattle.rules.specs.Checks.{only_zero, halts_last, kind_fits, advice_fits, touch_fits, checked_step};
ghost use Rattle.run_log.specs.Rules.{touch_of};

use crate::turn::Turn;
use dossier::record::{Row, Touch};
use encoding::operation::Operation;
use machine::cpu::Cpu;
use machine::step::{Demand, after};
use rules::finding::{Finding, Rule};

// A step that is tried: its operation, what that demands, and the row that logs it.
#[derive(Clone, Copy)]
pub(crate) struct Step {
    pub operation: Operation,
    pub demand: Demand,
    pub row: Row,
}

// What the row says of a touch; a row of another kind says 0. The zeros are the definition's, of which theorems speak: next 0
// says that there is none.
#[inline(always)]
pub(crate) fn touch_of(row: Row) -> Touch
    ensures { result ≡ touch_of row }
{
    row.touch().unwrap_or_default()
}

impl Step {
    // Rule 26.
    #[inline(always)]
    fn answers_only_zero(self) -> bool
        ensures { result ≡ only_zero self.demand }
    {
        !matches!(self.demand, Demand::Halt(answer) if answer != 0)
    }

    // Rule 27, at row `number` of `rows`, counted from 1.
    #[inline(always)]
    fn halts_last(self, rows: u32, number: u64) -> bool
        ensures { result ≡ halts_last rows number self.demand }
    {
        match self.demand {
            Demand::Halt(_) => number == u64::from(rows),
            _ => number < u64::from(rows),
        }
    }

    // Rule 28: both kinds of touch count as one.
    #[inline(always)]
    fn fits_kind(self) -> bool
        ensures { result ≡ kind_fits self.demand self.row }
    {
        match self.demand {
            Demand::Cell(_) => matches!(self.row, Row::FromLine(_) | Row::FromStep(_)),
            Demand::Advice => matches!(self.row, Row::Advice(_) | Row::AdviceEnd),
            _ => matches!(self.row, Row::Plain),
        }
    }

    // Rule 29.
    #[inline(always)]
    fn fits_advice(self, ended: bool) -> bool
        ensures { result ≡ advice_fits ended self.row }
    {
        !(ended && matches!(self.row, Row::Advice(_)))
    }

    // Rule 30.
    #[inline(always)]
    fn fits_touch(self, cpu: &Cpu) -> bool
        ensures { result ≡ touch_fits (left self.operation cpu.now) self.demand (touch_of self.row) }
    {
        let touch = touch_of(self.row);
        match self.demand {
            Demand::Cell(cell) => {
                touch.cell == cell && touch.after == after(self.operation, cpu, touch.before)
            }
            _ => true,
        }
    }
}

impl Turn {
    // Rules 26 to 30.
    #[inline(always)]
    pub(crate) fn check_step(self, step: Step, cpu: &Cpu, ended: bool) -> Result<(), Finding>
        ensures { result ≡ checked_step self.head.rows self.unit ended (left step.operation cpu.now) step.demand step.row }
    {
        self.check(step.answers_only_zero(), Rule::OtherAnswer)?;
        self.check(
            step.halts_last(self.head.rows, self.step()),
            Rule::LastAnswer,
        )?;
        self.check(step.fits_kind(), Rule::Kind)?;
        self.check(step.fits_advice(ended), Rule::AdviceEnd)?;
        self.check(step.fits_touch(cpu), Rule::Touch)
    }
}
