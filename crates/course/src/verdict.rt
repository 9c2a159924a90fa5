// The verdict of a checking, which must be used up.
ghost use Rattle.std.specs.Prelude.{◌≡◌, true};
ghost use Rattle.rules.specs.Course.{closing};

use crate::receipt::Receipt;
use dossier::record::Head;
use outset::left_of;
use rules::call::Outcome;
use rules::progress::Progress;

// What the close says, and the head's numbers, or zeros without a head.
// The flag stands in place of a type with no `Drop`: so the prover, and not the compiler, refuses to let a verdict go,
// and an edit can try that.
pub struct Verdict {
    outcome: Outcome,
    head: Head,
    spent: bool,
}

// A verdict is let go only when it was spent, by a receipt or by setting it aside.
impl Drop for Verdict {
    fn drop(self)
        requires { self.spent ≡ true }
    {
        let Verdict {
            outcome: _,
            head: _,
            spent: _,
        } = self;
    }
}

// What the close of a checking that has come this far says. A finding outranks unfinished.
fn close_at(progress: &Progress) -> Outcome
    ensures { result ≡ closing progress.now }
{
    match (progress.finding, left_of(progress)) {
        (Some(finding), _) => Outcome::Found(finding),
        (None, 0) => Outcome::Accepted(progress.head.rows),
        (None, left) => Outcome::Unfinished(left),
    }
}

impl Verdict {
    // The verdict on a checking that has come this far.
    pub fn new(progress: &Progress) -> Verdict
        ensures outcome { result.outcome ≡ closing progress.now }
        ensures head { result.head ≡ progress.now.head }
    {
        Verdict {
            outcome: close_at(progress),
            head: progress.head,
            spent: false,
        }
    }

    pub fn outcome(&self) -> Outcome
        ensures { result ≡ self.now.outcome }
    {
        self.outcome
    }

    // Spends the verdict on a receipt.
    pub fn receipt(mut self) -> Receipt
        ensures outcome { result.outcome ≡ self.outcome }
        ensures head { result.head ≡ self.head }
    {
        self.spent = true;
        Receipt {
            head: self.head,
            outcome: self.outcome,
        }
    }

    // Spends the verdict and shows nothing of it.
    pub fn set_aside(self) {
        let _ = self.receipt();
    }
}
