// The receipt: four lines that tell the verdict.
ghost use Rattle.std.specs.Prelude.{Some};
ghost use Rattle.course.specs.Receipt.{receipt_text};

use dossier::record::Head;
use rules::call::Outcome;
use std::fmt;

#[derive(Clone, Copy, PartialEq, Eq, Debug)]
pub struct Receipt {
    pub head: Head,
    pub outcome: Outcome,
}

// The last line says the outcome.
impl fmt::Display for Receipt {
    ghost output = { λ x. Some (receipt_text x) };

    fn fmt<W: fmt::Write>(&self, f: &mut fmt::Formatter<W>) -> fmt::Result {
        let Receipt { head, outcome } = *self;
        let Head {
            instructions,
            words,
            rows,
            bound,
            ..
        } = head;
        write!(
            f,
            "TinyRAM hv 32 16\nprogram {instructions} primary {words} bound {bound}\nsteps {rows}\n{outcome}\n"
        )
    }
}
