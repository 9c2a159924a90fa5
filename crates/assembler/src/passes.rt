// The passes over the lines once the labels are known.
ghost use Rattle.std.specs.Prelude.{◌≡◌, ◌≤◌, ◌++◌, length, drop};
ghost use Rattle.lexer.specs.Lines.{lines};
ghost use Rattle.assembler.specs.Labels.{known};
ghost use Rattle.assembler.specs.Program.{program, counting};

use crate::error::AssemblyError;
use crate::labels::Labels;
use encoding::instruction::Instruction;
use lexer::lines::Lines;

impl Labels<'_> {
    // How many entries the lines of a text need, of which the first is line 2.
    #[tactic(auto, using(lexer::proofs::Split::lines_length))]
    pub(crate) fn entries(&self, text: &str) -> Result<usize, AssemblyError>
        ensures { result ≡ counting 2 0 (known self.now) (lines text.now) }
    {
        // counted by hand, since an undefined label ends the count with its line
        let mut needed = 0;
        for (i, line) in Lines(text).enumerate() {
            let instruction = self
                .instruction_in(line)
                .map_err(|_| AssemblyError::Undefined(2 + i))?;
            if instruction.is_some() {
                needed += 1;
            }
        }
        Ok(needed)
    }

    // Fills the table from its start, and says how many entries were written.
    #[tactic(auto, using(crate::proofs::Overlays::overlaid_front))]
    pub(crate) fn write(&self, text: &str, table: &mut [Instruction]) -> usize
        requires { length (program (known self.now) (lines text.now)) ≤ length table.old }
        ensures count { result ≡ length (program (known self.now) (lines text.now)) }
        ensures table { table.new ≡ program (known self.now) (lines text.now) ++ drop (length (program (known self.now) (lines text.now))) table.old }
    {
        // counted by hand, since only a line that has an instruction takes an entry: under `filter_map` and `enumerate` each
        // step passes over a run of lines, of which the proof would need an induction, and of what is written through a
        // `zip` with `table.iter_mut()` a proof knows nothing
        let mut at = 0;
        for line in Lines(text) {
            if let Ok(Some(instruction)) = self.instruction_in(line) {
                table[at] = instruction;
                at += 1;
            }
        }
        at
    }
}
