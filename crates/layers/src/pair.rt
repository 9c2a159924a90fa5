// Layer 4: two dossiers, and what both agree on.
ghost use Rattle.std.specs.Prelude.{◌≡◌};
ghost use Rattle.std.specs.List.{slice_get};
ghost use Rattle.dossier.specs.Meaning.{item_answer};
ghost use Rattle.layers.specs.Pair.{Pairs, paired, common_list, common_answer};

use dossier::listed::ListedRecord;
use dossier::questions::Dossier;
use dossier::record::{Head, Line, Record, Row};
use dossier::refusal::{Part, Refusal};
use encoding::instruction::Instruction;

const LAYER: u32 = 4;

// The common answer to the question for the head is asked for once, when the pair is made.
#[derive(Drop)]
pub struct Pair<A, B> {
    first: A,
    second: B,
    head: Result<Head, Refusal>,
}

impl<A: Dossier, B: Dossier> Pair<A, B> {
    pub fn new(mut first: A, mut second: B) -> Pair<A, B>
        requires { A.Dossier.rule first × B.Dossier.rule second }
        ensures rule { ⟦<Pair<A, B> as Dossier>⟧.rule result }
        ensures meant { ⟦<Pair<A, B> as Dossier>⟧.meaning result ≡ paired (A.Dossier.meaning first) (B.Dossier.meaning second) }
    {
        let head = common(first.head(), second.head(), Part::Head, 0);
        Pair {
            first,
            second,
            head,
        }
    }
}

// The first's refusal, or the second's, or the record that both give.
fn common<R: Record>(
    first: Result<R, Refusal>,
    second: Result<R, Refusal>,
    part: Part,
    place: u32,
) -> Result<R, Refusal>
    ensures { result ≡ common_answer R.Record.numbers part place first second }
{
    let first = first?;
    let second = second?;
    if first == second {
        Ok(first)
    } else {
        Err(Refusal::unreadable(part, place, LAYER))
    }
}

impl<A: Dossier, B: Dossier> Pair<A, B> {
    // The common record at a place; without a common head there are no items.
    fn item<R: ListedRecord>(&mut self, place: u32) -> Result<R, Refusal>
        requires { ⟦<Pair<A, B> as Dossier>⟧.rule self.old }
        ensures kept { ⟦<Pair<A, B> as Dossier>⟧.rule self.new }
        ensures same { ⟦<Pair<A, B> as Dossier>⟧.meaning self.new ≡ ⟦<Pair<A, B> as Dossier>⟧.meaning self.old }
        ensures answer { result ≡ item_answer R.ListedRecord.PART place (slice_get (common_list R.Record.numbers R.ListedRecord.list (A.Dossier.meaning self.old.first) (B.Dossier.meaning self.old.second)) place) }
    {
        let part = R::PART;
        self.head.map_err(|_| Refusal::Past { part, place })?;
        let first = R::ask(&mut self.first, place);
        let second = R::ask(&mut self.second, place);
        common(first, second, part, place)
    }
}

impl<A: Dossier, B: Dossier> Dossier for Pair<A, B> {
    ghost meaning = { λ p. paired (A.Dossier.meaning p.first) (B.Dossier.meaning p.second) };

    ghost rule = { λ p. A.Dossier.rule p.first × B.Dossier.rule p.second × Pairs (A.Dossier.meaning p.first) (B.Dossier.meaning p.second) p.head };

    fn head(&mut self) -> Result<Head, Refusal> {
        self.head
    }

    fn instruction(&mut self, place: u32) -> Result<Instruction, Refusal> {
        self.item(place)
    }

    fn word(&mut self, place: u32) -> Result<u32, Refusal> {
        self.item(place)
    }

    fn line(&mut self, place: u32) -> Result<Line, Refusal> {
        self.item(place)
    }

    fn row(&mut self, place: u32) -> Result<Row, Refusal> {
        self.item(place)
    }
}
