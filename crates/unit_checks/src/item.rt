// The item of a unit, as the dossier answers.
ghost use Rattle.std.specs.Prelude.{◌≡◌};
ghost use Rattle.rules.specs.Checks.{item_at};

use crate::turn::Turn;
use dossier::questions::Dossier;
use rules::finding::Finding;
use rules::progress::{Item, Unit};

impl Turn {
    // The unit's own item.
    #[inline(always)]
    pub fn item<D: Dossier>(self, dossier: &mut D) -> Result<Item, Finding>
        requires { D.Dossier.rule dossier.old }
        ensures kept { D.Dossier.rule dossier.new }
        ensures same { D.Dossier.meaning dossier.new ≡ D.Dossier.meaning dossier.old }
        ensures answer { result ≡ item_at (D.Dossier.meaning dossier.old) self.unit }
    {
        match self.unit {
            Unit::Instruction(place) => self
                .need(dossier.instruction(place))
                .map(Item::Instruction),
            Unit::Word(place) => self.need(dossier.word(place)).map(Item::Word),
            Unit::Line(place) => self.need(dossier.line(place)).map(Item::Line),
            Unit::Row(place) => self.need(dossier.row(place)).map(Item::Row),
        }
    }
}
