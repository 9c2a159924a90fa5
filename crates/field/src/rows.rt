// The kind of record that is a row: a byte for the kind of row, then five words.
ghost use Rattle.std.specs.Prelude.{◌≡◌, ◌∷◌, Some, None, Option};
ghost use Rattle.dossier.specs.Numbers.{kind_number, row_kind, row_numbers};
ghost use Rattle.field.specs.Payload.{row_payload, row_parsed, row_from};
ghost use Rattle.field.specs.Forms.{row_form};

use crate::kind::Kind;
use crate::words::{read_words, write_words};
use dossier::record::{Row, RowKind, Touch};

// The words that follow the kind of a row.
fn words_of(row: Row) -> [u32; 5]
    ensures { (kind_number (row_kind row) ∷ result) ≡ row_numbers row }
{
    match row {
        Row::FromLine(t) | Row::FromStep(t) => [t.cell, t.before, t.after, t.origin, t.next],
        Row::Advice(word) => [word, 0, 0, 0, 0],
        Row::Plain | Row::AdviceEnd => [0; 5],
    }
}

// The row of a kind, where the words that it does not use are 0.
fn row_from(kind: RowKind, touch: Touch) -> Option<Row>
    ensures { result ≡ row_from (kind_number kind) touch }
{
    let blank = Touch::default();
    let cell = touch.cell;
    match kind {
        RowKind::Plain if touch == blank => Some(Row::Plain),
        RowKind::FromLine => Some(Row::FromLine(touch)),
        RowKind::FromStep => Some(Row::FromStep(touch)),
        RowKind::Advice if touch == (Touch { cell, ..blank }) => Some(Row::Advice(cell)),
        RowKind::AdviceEnd if touch == blank => Some(Row::AdviceEnd),
        _ => None,
    }
}

impl Kind for Row {
    ghost TAG = { 5 };

    ghost SIZE = { 21 };

    ghost payload = { row_payload };

    ghost parsed = { row_parsed };

    ghost form = { row_form };

    const TAG: u8 = 5;

    const SIZE: u16 = 21;

    fn read(bytes: &[u8]) -> Option<Row> {
        let (kind, words) = bytes.split_first()?;
        let [cell, before, after, origin, next] = read_words::<5>(words)?;
        let touch = Touch {
            cell,
            before,
            after,
            origin,
            next,
        };
        row_from(RowKind::try_from(*kind).ok()?, touch)
    }

    fn write(&self, bytes: &mut [u8]) {
        if bytes.len() == Self::SIZE as usize {
            bytes[0] = u8::from(self.kind());
            write_words(&words_of(*self), &mut bytes[1..]);
        }
    }
}
