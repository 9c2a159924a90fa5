// Layer 1: a dossier in the bytes of a file.
ghost use Rattle.std.specs.Prelude.{◌≡◌};
ghost use Rattle.std.specs.List.{slice_get};
ghost use Rattle.dossier.specs.Meaning.{Readable, item_answer};
ghost use Rattle.field.specs.Bytes.{Bytes};
ghost use Rattle.codec.specs.Held.{head_of, meaning_of};
ghost use Rattle.codec.specs.Written.{written};

use crate::layout::{FilePart, HEAD_SIZE, field_range, file_size};
use dossier::questions::Dossier;
use dossier::record::{Head, Line, Row};
use dossier::refusal::{Part, Refusal};
use encoding::instruction::Instruction;
use field::kind::read_field;

const LAYER: u32 = 1;

// The bytes of a file, lent, and the head that they begin with.
#[derive(Drop)]
pub struct ByteDossier<'a> {
    bytes: &'a [u8],
    head: Option<Head>,
}

impl<'a> ByteDossier<'a> {
    // Bytes that are readable throughout are the written form of their meaning.
    pub fn new(bytes: &'a [u8]) -> ByteDossier<'a>
        ensures rule { ⟦<ByteDossier<'a> as Dossier>⟧.rule result }
        ensures meant { ⟦<ByteDossier<'a> as Dossier>⟧.meaning result ≡ meaning_of bytes.now }
        ensures form { Readable (meaning_of bytes.now) → bytes.now ≡ written (meaning_of bytes.now) }
    {
        ByteDossier {
            bytes,
            head: head_of(bytes),
        }
    }

    // The record at a place of its part; without a head the parts are empty.
    #[inline(always)]
    fn item<R: FilePart>(&self, place: u32) -> Result<R, Refusal>
        requires { ⟦<ByteDossier<'a> as Dossier>⟧.rule self.now }
        ensures { result ≡ item_answer R.ListedRecord.PART place (slice_get (R.ListedRecord.list (meaning_of self.now.bytes.now)) place) }
    {
        let part = R::PART;
        let past = Refusal::Past { part, place };
        let head = self.head.ok_or(past)?;
        if place >= R::count(head) {
            return Err(past);
        }
        read_field(&self.bytes[field_range::<R>(head, place)]).ok_or(Refusal::unreadable(
            part, place, LAYER,
        ))
    }
}

impl<'a> Dossier for ByteDossier<'a> {
    ghost meaning = { λ d. meaning_of d.bytes.now };

    ghost rule = { λ d. Bytes d.bytes.now × (d.head ≡ head_of d.bytes.now) };

    #[inline(always)]
    fn head(&mut self) -> Result<Head, Refusal> {
        self.head.ok_or(Refusal::unreadable(Part::Head, 0, LAYER))
    }

    #[inline(always)]
    fn instruction(&mut self, place: u32) -> Result<Instruction, Refusal> {
        self.item(place)
    }

    #[inline(always)]
    fn word(&mut self, place: u32) -> Result<u32, Refusal> {
        self.item(place)
    }

    #[inline(always)]
    fn line(&mut self, place: u32) -> Result<Line, Refusal> {
        self.item(place)
    }

    #[inline(always)]
    fn row(&mut self, place: u32) -> Result<Row, Refusal> {
        self.item(place)
    }
}

// The head, if its field stands first and the file has the length that it says.
fn head_of(bytes: &[u8]) -> Option<Head>
    ensures { result ≡ head_of bytes.now }
{
    let field = bytes.get(..HEAD_SIZE)?;
    read_field(field).filter(|head| bytes.len() == file_size(*head))
}
