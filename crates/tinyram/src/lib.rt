// Runs of programs on primary words and an auxiliary tape, and their logs.
#![tactic(auto)]

pub mod sample;

ghost use Rattle.tinyram.specs.Program.{Accepting, ProgramSound, ProgramComplete, ProgramLogged, ProgramCounts, ProgramUnique};
ghost use Rattle.tinyram.specs.Words.{ProgramWords, ProgramDecided};

// States, of any program and primary words: rows and lines that keep all rules log an accepting
// run on the tape of their advice words, and every log of an accepting run keeps them; an accepting
// run has a log, with a row for each step, and equal advice words make equal logs. To accept is to
// execute `answer 0` after steps that do not answer. Every number of a log is a word where the
// program and the tapes are words, and rows of words log a run on a tape of words.
pub fn programs_stand()
    ensures accepting { Accepting }
    ensures sound { ProgramSound }
    ensures complete { ProgramComplete }
    ensures logged { ProgramLogged }
    ensures counts { ProgramCounts }
    ensures unique { ProgramUnique }
    ensures words { ProgramWords }
    ensures decided { ProgramDecided }
{}
