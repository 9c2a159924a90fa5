// Layer 3: a direct-mapped cache of rows over any dossier.
ghost use Rattle.std.specs.Prelude.{◌≡◌, replicate, None};
ghost use Rattle.layers.specs.Cache.{Slots};

use dossier::questions::Dossier;
use dossier::record::{Head, Line, Row};
use dossier::refusal::Refusal;
use encoding::instruction::Instruction;

const SLOTS: u32 = 32;

// A row and the place that it was read at.
#[derive(Clone, Copy)]
pub struct Stored {
    pub place: u32,
    pub row: Row,
}

// The slot of a row is its place modulo their number.
#[derive(Drop)]
pub struct RowCache<D> {
    below: D,
    slots: [Option<Stored>; SLOTS as usize],
}

impl<D: Dossier> RowCache<D> {
    // An empty cache.
    pub fn new(below: D) -> RowCache<D>
        requires { D.Dossier.rule below }
        ensures rule { ⟦<RowCache<D> as Dossier>⟧.rule result }
        ensures meant { ⟦<RowCache<D> as Dossier>⟧.meaning result ≡ D.Dossier.meaning below }
        ensures empty { result.slots ≡ replicate 32 None }
    {
        RowCache {
            below,
            slots: [None; SLOTS as usize],
        }
    }
}

impl<D: Dossier> Dossier for RowCache<D> {
    ghost meaning = { λ c. D.Dossier.meaning c.below };

    ghost rule = { λ c. D.Dossier.rule c.below × Slots (D.Dossier.meaning c.below) c.slots };

    fn head(&mut self) -> Result<Head, Refusal> {
        self.below.head()
    }

    fn instruction(&mut self, place: u32) -> Result<Instruction, Refusal> {
        self.below.instruction(place)
    }

    fn word(&mut self, place: u32) -> Result<u32, Refusal> {
        self.below.word(place)
    }

    fn line(&mut self, place: u32) -> Result<Line, Refusal> {
        self.below.line(place)
    }

    fn row(&mut self, place: u32) -> Result<Row, Refusal> {
        let slot = (place % SLOTS) as usize;
        if let Some(stored) = self.slots[slot]
            && stored.place == place
        {
            return Ok(stored.row);
        }
        let row = self.below.row(place)?;
        self.slots[slot] = Some(Stored { place, row });
        Ok(row)
    }
}
