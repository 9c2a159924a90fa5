// The first pass: the labels, the count of instructions, and the refusals of single lines.
ghost use Rattle.std.specs.Prelude.{◌≡◌};
ghost use Rattle.lexer.specs.Lines.{lines};
ghost use Rattle.assembler.specs.Labels.{summary, none};
ghost use Rattle.assembler.specs.Scan.{outcome, gathered, defined, tallied, stepped, scanned};

use crate::error::AssemblyError;
use crate::labels::{Label, Labels};
use lexer::lines::Lines;
use lexer::token::Word;
use parser::statement::read_line;

impl<'a> Labels<'a> {
    // Takes the label of line `n`.
    #[tactic(auto, using(crate::proofs::Tables::entries_length, crate::proofs::Tables::entries_more))]
    fn define(&mut self, label: Word<'a>, n: usize) -> Result<(), AssemblyError>
        ensures { outcome result self.new ≡ defined (summary self.old) n label.entry.text.now }
    {
        if self.find(label.text).is_some() {
            return Err(AssemblyError::Redefined(n));
        }
        if self.count >= 256 {
            return Err(AssemblyError::TooMany(n));
        }
        let number = self.instructions;
        self.labels[self.count] = Label {
            name: label.text,
            number,
        };
        self.count += 1;
        Ok(())
    }

    // Counts the instruction of line `n`.
    fn tally(&mut self, n: usize) -> Result<(), AssemblyError>
        ensures { outcome result self.new ≡ tallied (summary self.old) n }
    {
        if self.instructions >= 4096 {
            return Err(AssemblyError::TooMany(n));
        }
        self.instructions += 1;
        Ok(())
    }

    // Takes line `n`.
    fn take_line(&mut self, line: &'a str, n: usize) -> Result<(), AssemblyError>
        ensures { outcome result self.new ≡ stepped (summary self.old) n line.now }
    {
        let Some(parts) = read_line(line) else {
            return Err(AssemblyError::Unreadable(n));
        };
        if let Some(label) = parts.label {
            self.define(label, n)?;
        }
        if parts.statement.is_some() {
            self.tally(n)?;
        }
        Ok(())
    }

    // What the lines of a text define, of which the first is line 2.
    #[tactic(auto, using(lexer::proofs::Split::lines_length))]
    pub(crate) fn scan(text: &'a str) -> Result<Labels<'a>, AssemblyError>
        ensures { gathered result ≡ scanned 2 none (lines text.now) }
    {
        let mut labels = Labels::new();
        for (i, line) in Lines(text).enumerate() {
            labels.take_line(line, 2 + i)?;
        }
        Ok(labels)
    }
}
