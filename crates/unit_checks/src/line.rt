// The rules of instructions and lines.
ghost use Rattle.std.specs.Prelude.{◌≡◌};
ghost use Rattle.rules.specs.Checks.{checked_instruction, checked_line, above, within};

use crate::turn::Turn;
use dossier::questions::Dossier;
use dossier::record::Line;
use encoding::instruction::Instruction;
use rules::finding::{Finding, Rule};
use run_log::links::is_from_line;

// Whether the cell is above the former line's, if there is one.
fn is_above(former: Option<u32>, cell: u32) -> bool
    ensures { result ≡ above former cell }
{
    former.is_none_or(|former| former < cell)
}

impl Turn {
    // Rule 23.
    pub fn check_instruction(self, instruction: Instruction) -> Result<(), Finding>
        ensures { result ≡ checked_instruction self.unit instruction }
    {
        self.check(instruction.well_formed(), Rule::WellFormed)
    }

    // Whether there is such a step in the log, whose rows are counted from 1.
    fn is_within(self, step: u32) -> bool
        ensures { result ≡ within self.head step }
    {
        (1..=self.head.rows).contains(&step)
    }

    // Rules 24 and 25: the row is asked for only where there is such a step.
    pub fn check_line<D: Dossier>(
        self,
        dossier: &mut D,
        former: Option<u32>,
        line: Line,
    ) -> Result<(), Finding>
        requires { D.Dossier.rule dossier.old }
        ensures kept { D.Dossier.rule dossier.new }
        ensures same { D.Dossier.meaning dossier.new ≡ D.Dossier.meaning dossier.old }
        ensures answer { result ≡ checked_line (D.Dossier.meaning dossier.old) self.head self.unit former line }
    {
        let is_next = line.cell % 4 == 0 && is_above(former, line.cell);
        self.check(is_next, Rule::LineOrder)?;
        self.check(self.is_within(line.step), Rule::LineStep)?;
        let row = self.need(dossier.row(line.step - 1))?;
        self.check(is_from_line(row, u64::from(self.place())), Rule::LineStep)
    }
}
