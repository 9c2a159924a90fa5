// The kinds of record that a field holds, and the one reader and the one writer of fields.
ghost use Rattle.std.specs.Prelude.{◌≡◌, ℕ, List, Option};
ghost use Rattle.field.specs.Bytes.{Form, field_bytes, field_read, filled};

use dossier::record::Record;

pub trait Kind: Record {
    ghost TAG: { ℕ };

    ghost SIZE: { ℕ };

    ghost payload: { Self → List ℕ };

    ghost parsed: { List ℕ → Option Self };

    const TAG: u8;

    // The payload's length.
    const SIZE: u16;

    fn read(bytes: &[u8]) -> Option<Self>
        ensures { result ≡ parsed bytes.now };

    // Fills a slice of the payload's length, and leaves any other as it is.
    fn write(&self, bytes: &mut [u8])
        ensures { bytes.new ≡ filled (payload self.now) bytes.old };

    // A payload gives its record back, and no other payload gives that record.
    ghost form: { Form SIZE Self.numbers payload parsed };
}

// The record in a field of this kind.
#[inline(always)]
pub fn read_field<K: Kind>(field: &[u8]) -> Option<K>
    ensures { result ≡ field_read K.Kind.TAG K.Kind.SIZE K.Kind.parsed field.now }
{
    let [tag, low, high, payload @ ..] = field else {
        return None;
    };
    let size = u16::from_le_bytes([*low, *high]);
    if *tag != K::TAG || size != K::SIZE || payload.len() != size as usize {
        return None;
    }
    K::read(payload)
}

// Fills a slice of the field's length, and leaves any other as it is.
pub fn write_field<K: Kind>(item: &K, field: &mut [u8])
    ensures { field.new ≡ filled (field_bytes K.Kind.TAG K.Kind.SIZE (K.Kind.payload item.now)) field.old }
{
    if field.len() != 3 + K::SIZE as usize {
        return;
    }
    let [low, high] = K::SIZE.to_le_bytes();
    field[0] = K::TAG;
    field[1] = low;
    field[2] = high;
    item.write(&mut field[3..]);
}
