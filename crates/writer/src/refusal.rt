// What the writer answers where it writes nothing.
ghost use Rattle.std.specs.Prelude.{◌≡◌};
ghost use Rattle.std.specs.List.{slice_get};
ghost use Rattle.writer.specs.declared.refusal.WriteRefusal.TheVariants.{Asked};
ghost use Rattle.writer.specs.Write.{write_number, write_values};

use dossier::refusal::Refusal;

#[derive(Clone, Copy, PartialEq, Eq, Debug)]
pub enum WriteRefusal {
    // the dossier's own refusal, carried whole
    Asked(Refusal),
    // refusal 15: the bytes lent are fewer than are needed
    Room { needed: u64 },
}

impl From<Refusal> for WriteRefusal {
    ghost from_gives = { λ refusal r. r ≡ Asked refusal };

    fn from(refusal: Refusal) -> WriteRefusal {
        WriteRefusal::Asked(refusal)
    }
}

impl WriteRefusal {
    pub fn number(&self) -> u8
        ensures { result ≡ write_number self.now }
    {
        match self {
            WriteRefusal::Asked(refusal) => refusal.number(),
            WriteRefusal::Room { .. } => 15,
        }
    }

    // The value at a place among those that the refusal returns.
    pub fn value(&self, place: usize) -> Option<u64>
        ensures { result ≡ slice_get (write_values self.now) place }
    {
        match self {
            WriteRefusal::Asked(refusal) => refusal.value(place).map(u64::from),
            WriteRefusal::Room { needed } => [*needed].get(place).copied(),
        }
    }
}
