// What a dossier answers where it has no record to give.
ghost use Rattle.std.specs.Prelude.{◌≡◌};
ghost use Rattle.std.specs.List.{slice_get};
ghost use Rattle.dossier.specs.declared.refusal.Refusal.TheVariants.{Unreadable};
ghost use Rattle.dossier.specs.Meaning.{part_number, refusal_number, refusal_values};

// The parts of a dossier. The place of an item is counted from 0 in its part.
#[derive(Clone, Copy, PartialEq, Eq, Debug)]
pub enum Part {
    Head = 0,
    Instruction = 1,
    Word = 2,
    Line = 3,
    Row = 4,
}

impl From<Part> for u32 {
    ghost from_gives = { λ part number. number ≡ part_number part };

    fn from(part: Part) -> u32 {
        part as u32
    }
}

// An item that cannot be read, and the number of the layer that found it so: a number, since any crate may make a layer.
#[derive(Clone, Copy, PartialEq, Eq, Debug)]
pub struct Fault {
    pub part: Part,
    pub place: u32,
    pub layer: u32,
}

// Refusal 1: the place is past the list. Refusal 2: the item is unreadable, or the head is missing.
#[derive(Clone, Copy, PartialEq, Eq, Debug)]
pub enum Refusal {
    Past { part: Part, place: u32 },
    Unreadable(Fault),
}

impl Refusal {
    // Refusal 2, as the layer with this number finds it.
    pub fn unreadable(part: Part, place: u32, layer: u32) -> Refusal
        ensures { result ≡ Unreadable (record { part = part; place = place; layer = layer }) }
    {
        Refusal::Unreadable(Fault { part, place, layer })
    }

    pub fn number(&self) -> u8
        ensures { result ≡ refusal_number self.now }
    {
        match self {
            Refusal::Past { .. } => 1,
            Refusal::Unreadable(_) => 2,
        }
    }

    // The value at a place among those that the refusal returns.
    pub fn value(&self, place: usize) -> Option<u32>
        ensures { result ≡ slice_get (refusal_values self.now) place }
    {
        match self {
            Refusal::Past { part, place: asked } => [u32::from(*part), *asked].get(place).copied(),
            Refusal::Unreadable(fault) => [u32::from(fault.part), fault.place, fault.layer]
                .get(place)
                .copied(),
        }
    }
}
