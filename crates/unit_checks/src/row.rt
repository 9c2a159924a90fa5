// The check of a row.
ghost use Rattle.std.specs.Prelude.{◌≡◌};
ghost use Rattle.run_log.specs.Run.{input_of};
ghost use Rattle.rules.specs.Checks.{operation_at, got_at, checked_row};

use crate::step::{Step, touch_of};
use crate::turn::Turn;
use dossier::questions::Dossier;
use dossier::record::Row;
use encoding::operation::Operation;
use machine::cpu::Cpu;
use machine::step::{Demand, asks, execute};
use rules::finding::Finding;

// What a row says that its step was given.
#[inline(always)]
fn input_of(row: Row) -> Option<u32>
    ensures { result ≡ input_of row }
{
    match row {
        Row::Advice(word) => Some(word),
        _ => row.touch().map(|touch| touch.before),
    }
}

// Here and in what these call, hints keep the check of a row free of calls: the backend passes records through memory
// at a call, and checking a file of rows took up to two thirds more time without them.
impl Turn {
    // The operation of instruction number `pc`: past the program it is `answer 1`.
    #[inline(always)]
    fn operation_at<D: Dossier>(self, dossier: &mut D, pc: u32) -> Result<Operation, Finding>
        requires { D.Dossier.rule dossier.old }
        ensures kept { D.Dossier.rule dossier.new }
        ensures same { D.Dossier.meaning dossier.new ≡ D.Dossier.meaning dossier.old }
        ensures answer { result ≡ operation_at (D.Dossier.meaning dossier.old) self.head self.unit pc }
    {
        if pc < self.head.instructions {
            let instruction = self.need(dossier.instruction(pc))?;
            Ok(instruction.operation())
        } else {
            Ok(Operation::ANSWER_ONE)
        }
    }

    // What the step gets: a primary word, or what the row says.
    #[inline(always)]
    fn got_at<D: Dossier>(
        self,
        dossier: &mut D,
        step: Step,
        cpu: &Cpu,
    ) -> Result<Option<u32>, Finding>
        requires { D.Dossier.rule dossier.old }
        ensures kept { D.Dossier.rule dossier.new }
        ensures same { D.Dossier.meaning dossier.new ≡ D.Dossier.meaning dossier.old }
        ensures answer { result ≡ got_at (D.Dossier.meaning dossier.old) self.head self.unit cpu.now step.demand step.row }
    {
        match step.demand {
            Demand::Primary if cpu.place < self.head.words => {
                self.need(dossier.word(cpu.place)).map(Some)
            }
            Demand::Primary => Ok(None),
            _ => Ok(input_of(step.row)),
        }
    }

    // The machine after the row.
    #[inline(always)]
    pub fn check_row<D: Dossier>(
        self,
        dossier: &mut D,
        cpu: &Cpu,
        ended: bool,
        row: Row,
    ) -> Result<Cpu, Finding>
        requires { D.Dossier.rule dossier.old }
        ensures kept { D.Dossier.rule dossier.new }
        ensures same { D.Dossier.meaning dossier.new ≡ D.Dossier.meaning dossier.old }
        ensures answer { result ≡ checked_row (D.Dossier.meaning dossier.old) self.head self.unit cpu.now ended row }
    {
        let operation = self.operation_at(dossier, cpu.pc)?;
        let demand = asks(operation, cpu);
        let step = Step {
            operation,
            demand,
            row,
        };
        self.check_step(step, cpu, ended)?;
        self.check_origin(dossier, row)?;
        self.check_next(dossier, touch_of(row).next)?;
        let got = self.got_at(dossier, step, cpu)?;
        Ok(execute(*cpu, operation, got))
    }
}
