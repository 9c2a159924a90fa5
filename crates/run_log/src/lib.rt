// The log of a run: rows and opening lines, the rules of their links, and the run of any machine
// with memory and an advice tape.
#![tactic(auto)]

pub mod links;

ghost use Rattle.run_log.specs.Rules.{Sound, Complete, Unique, Decided};
ghost use Rattle.run_log.specs.Run.{RunSound, RunComplete, RunUnique, RunLogged, RunDecided};
ghost use Rattle.run_log.specs.Sample.{Sample};
ghost use Rattle.run_log.specs.Words.{Worded};

// States that rows and lines keep the link rules exactly when they are the log of what the rows
// say that the steps did, that this decides them, that the tests decide the rules, and that the
// log's definitions are what its description says; and the sample.
pub fn links_stand()
    ensures sound { Sound }
    ensures complete { Complete }
    ensures unique { Unique }
    ensures decided { Decided }
    ensures worded { Worded }
    ensures sample { Sample }
{}

// States, of any machine whose state is an `S`: rows and lines that keep all rules log an accepting
// run on the tape of their advice words, and every log of an accepting run keeps them; an accepting
// run has a log, and equal advice words make equal logs; the tests decide the rules.
pub fn runs_stand<S>()
    ensures sound { RunSound S }
    ensures complete { RunComplete S }
    ensures unique { RunUnique S }
    ensures logged { RunLogged S }
    ensures decided { RunDecided S }
{}
