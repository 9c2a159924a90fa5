// Why a program is not run.
ghost use Rattle.std.specs.Prelude.{◌≡◌};
ghost use Rattle.std.specs.List.{slice_get};
ghost use Rattle.runner.specs.Refused.{refusal_number, refusal_values};

use std::alloc::AllocError;

// What has to be within its limits: the length of the program, the count of primary words, the bound.
#[derive(Clone, Copy, PartialEq, Eq, Debug)]
pub enum Limit {
    Program = 1,
    Primary = 2,
    Bound = 3,
}

// Refusal 7: a number is outside its limits. Refusal 6: the place of the first ill-formed instruction.
// Refusal 8: the entries that a table needs. Want of memory has no number.
#[derive(Clone, Copy, PartialEq, Eq, Debug)]
pub enum RunRefusal {
    Outside(Limit),
    IllFormed { place: u32 },
    Room { needed: u32 },
    OutOfMemory,
}

impl From<AllocError> for RunRefusal {
    ghost use Rattle.runner.specs.declared.refusal.RunRefusal.TheVariants.{OutOfMemory};

    ghost from_gives = { λ _ e. e ≡ OutOfMemory };

    fn from(_error: AllocError) -> RunRefusal {
        RunRefusal::OutOfMemory
    }
}

impl RunRefusal {
    // The number of the refusal, 0 where it has none.
    pub fn number(&self) -> u8
        ensures { result ≡ refusal_number self.now }
    {
        match self {
            RunRefusal::Outside(_) => 7,
            RunRefusal::IllFormed { .. } => 6,
            RunRefusal::Room { .. } => 8,
            RunRefusal::OutOfMemory => 0,
        }
    }

    // The value at a place among those that the refusal returns.
    pub fn value(&self, place: usize) -> Option<u32>
        ensures { result ≡ slice_get (refusal_values self.now) place }
    {
        match self {
            RunRefusal::Outside(limit) => [*limit as u32].get(place).copied(),
            RunRefusal::IllFormed { place: at } => [*at].get(place).copied(),
            RunRefusal::Room { needed } => [*needed].get(place).copied(),
            RunRefusal::OutOfMemory => None,
        }
    }
}
