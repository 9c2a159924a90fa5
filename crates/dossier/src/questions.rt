// The questions that every dossier answers, whatever holds it.
ghost use Rattle.std.specs.Prelude.{◌≡◌};
ghost use Rattle.dossier.specs.Meaning.{Meaning, Made, head_answer, instruction_answer, word_answer, line_answer, row_answer};

use crate::record::{Head, Line, Row};
use crate::refusal::Refusal;
use encoding::instruction::Instruction;

// Asking keeps the implementation's own rule and never alters the meaning; each question requires the rule, as is the
// one requirement of the project's public functions. There are five questions and no generic one, so that a holder may
// answer each kind by its own means; `ListedRecord` asks by the kind.
// Who asks for the head learns as well that the head counts the items and that all numbers fit.
pub trait Dossier {
    ghost meaning: { Self → Meaning };

    // What the implementation keeps; making it sets this up.
    ghost rule: { Self → Type 0 };

    // `made` is told here and by no law of the trait: an implementation proves a law from specs/ alone, and that the
    // bytes of a file mean this takes a page of lemmas.
    fn head(&mut self) -> Result<Head, Refusal>
        requires { rule self.old }
        ensures kept { rule self.new }
        ensures same { meaning self.new ≡ meaning self.old }
        ensures made { Made (meaning self.old) }
        ensures answer { result ≡ head_answer (meaning self.old) };

    fn instruction(&mut self, place: u32) -> Result<Instruction, Refusal>
        requires { rule self.old }
        ensures kept { rule self.new }
        ensures same { meaning self.new ≡ meaning self.old }
        ensures answer { result ≡ instruction_answer (meaning self.old) place };

    fn word(&mut self, place: u32) -> Result<u32, Refusal>
        requires { rule self.old }
        ensures kept { rule self.new }
        ensures same { meaning self.new ≡ meaning self.old }
        ensures answer { result ≡ word_answer (meaning self.old) place };

    fn line(&mut self, place: u32) -> Result<Line, Refusal>
        requires { rule self.old }
        ensures kept { rule self.new }
        ensures same { meaning self.new ≡ meaning self.old }
        ensures answer { result ≡ line_answer (meaning self.old) place };

    fn row(&mut self, place: u32) -> Result<Row, Refusal>
        requires { rule self.old }
        ensures kept { rule self.new }
        ensures same { meaning self.new ≡ meaning self.old }
        ensures answer { result ≡ row_answer (meaning self.old) place };
}
