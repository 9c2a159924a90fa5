// What a line gives once the labels are known.
ghost use Rattle.std.specs.Prelude.{◌≡◌};
ghost use Rattle.parser.specs.Operands.{view_argument};
ghost use Rattle.parser.specs.Statements.{view_statement};
ghost use Rattle.assembler.specs.Labels.{known};
ghost use Rattle.assembler.specs.Resolve.{settled, encoded_by, line_gives};

use crate::labels::Labels;
use encoding::instruction::Instruction;
use encoding::operation::{Operand, place};
use parser::operand::Argument;
use parser::statement::{Statement, read_line};

// The operand is a label that no line defines.
#[derive(Clone, Copy)]
pub struct Undefined;

impl Labels<'_> {
    // `A`, with its label replaced by the number that it stands for.
    fn settle(&self, argument: Argument<'_>) -> Option<Operand>
        ensures { result ≡ settled (known self.now) (view_argument argument.entry) }
    {
        match argument {
            Argument::Register(n) => Some(Operand::Register(n)),
            Argument::Integer(n) => Some(Operand::Immediate(n)),
            Argument::Label(word) => self.find(word.text).map(Operand::Immediate),
        }
    }

    fn encode(&self, statement: Statement<'_>) -> Option<Instruction>
        ensures { result ≡ encoded_by (known self.now) (view_statement statement.entry) }
    {
        place(
            statement.mnemonic,
            statement.destination,
            statement.source,
            self.settle(statement.operand)?,
        )
    }

    // The instruction of a line, if it has one.
    pub(crate) fn instruction_in(&self, line: &str) -> Result<Option<Instruction>, Undefined>
        ensures { result ≡ line_gives (known self.now) line.now }
    {
        // tried: `.map(..).transpose()`. What the closures give did not meet the definition, which goes by the cases of a line
        match read_line(line).and_then(|parts| parts.statement) {
            Some(statement) => Ok(Some(self.encode(statement).ok_or(Undefined)?)),
            None => Ok(None),
        }
    }
}
