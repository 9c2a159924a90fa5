// Questions to the bytes of a file.
ghost use Rattle.std.specs.Prelude.{◌≡◌};
ghost use Rattle.codec.specs.Held.{meaning_of};
ghost use Rattle.listing.specs.Found.{answer_of};

use crate::found::Found;
use codec::holder::ByteDossier;
use dossier::questions::Dossier;
use dossier::refusal::{Part, Refusal};

// What the bytes answer to the question for a part and a place; the head has no place.
pub fn answer(bytes: &[u8], part: Part, place: u32) -> Result<Found, Refusal>
    ensures { result ≡ answer_of (meaning_of bytes.now) part place }
{
    let mut dossier = ByteDossier::new(bytes);
    Ok(match part {
        Part::Head => Found::Head(dossier.head()?),
        Part::Instruction => Found::Instruction(dossier.instruction(place)?),
        Part::Word => Found::Word(dossier.word(place)?),
        Part::Line => Found::Line(dossier.line(place)?),
        Part::Row => Found::Row(dossier.row(place)?),
    })
}
