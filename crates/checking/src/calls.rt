// Whole checkings: a dossier, and what is called.
ghost use Rattle.std.specs.Prelude.{◌≡◌, [], ◌∷◌};
ghost use Rattle.rules.specs.declared.call.Call.TheVariants.{Advance};
ghost use Rattle.rules.specs.Course.{begun, called, after, left, closing};
ghost use Rattle.rules.specs.Laws.{Closes, Acceptance, Existence, Uniqueness};
ghost use Rattle.checking.specs.Laws.{AcceptsGenuine};

use crate::checking::Checking;
use course::verdict::Verdict;
use dossier::questions::Dossier;
use rules::call::Call;

fn make<D: Dossier>(checking: &mut Checking<D>, call: Call)
    ensures same { checking.new.dossier ≡ checking.old.dossier }
    ensures progress { checking.new.progress ≡ called checking.old.dossier checking.old.progress call }
{
    match call {
        Call::Advance(k) => {
            let _ = checking.advance(k);
        }
        Call::Ask => {
            let _ = checking.ask();
        }
    }
}

// Makes all these calls on a new checking, and closes it.
pub fn run_calls<D: Dossier + Drop>(dossier: D, calls: &[Call]) -> Verdict
    requires { D.Dossier.rule dossier }
    ensures outcome { result.outcome ≡ closing (after (D.Dossier.meaning dossier) calls.now) }
    ensures head { result.head ≡ (after (D.Dossier.meaning dossier) calls.now).head }
    ensures law { Closes (D.Dossier.meaning dossier) calls.now result.outcome }
{
    let mut checking = Checking::begin(dossier);
    for call in calls {
        make(&mut checking, *call);
    }
    checking.close()
}

// Takes all units, up to a finding, and closes. The laws of checking stand on this call.
pub fn check_all<D: Dossier + Drop>(dossier: D) -> Verdict
    requires { D.Dossier.rule dossier }
    ensures outcome { result.outcome ≡ closing (after (D.Dossier.meaning dossier) (Advance (left (begun (D.Dossier.meaning dossier))) ∷ [])) }
    ensures head { result.head ≡ (after (D.Dossier.meaning dossier) (Advance (left (begun (D.Dossier.meaning dossier))) ∷ [])).head }
    ensures law { AcceptsGenuine (D.Dossier.meaning dossier) result.outcome }
    ensures acceptance { Acceptance }
    ensures existence { Existence }
    ensures uniqueness { Uniqueness }
{
    let mut checking = Checking::begin(dossier);
    let left = checking.ask().left;
    let _ = checking.advance(left);
    checking.close()
}
