// The rules of a checking: what it finds, how far it has come, and what that says of a dossier.
#![tactic(auto)]

pub mod call;
pub mod finding;
pub mod progress;

ghost use Rattle.rules.specs.Cases.{Marked};
ghost use Rattle.rules.specs.Laws.{Acceptance, Advancing, Existence, Uniqueness};

// States the laws of checking, over every meaning of a dossier and every list of calls: the close says
// accepted exactly when every unit was taken and the dossier logs an accepting run; an advance over such
// a dossier answers its amount; some dossier of a program is accepted exactly when some tape makes the
// program accept; accepted dossiers alike in program, primary tape, bound and advice words are equal.
pub fn laws_stand()
    ensures acceptance { Acceptance }
    ensures advancing { Advancing }
    ensures existence { Existence }
    ensures uniqueness { Uniqueness }
{}

// States that the worked cases come out as they should.
pub fn marked_cases()
    ensures { Marked }
{}
