// One part of a dossier: its items are tried, and then written.
// The rule is asked of each function here: the writer borrows its dossier, and an opened one owns it.
ghost use Rattle.std.specs.Prelude.{◌≡◌, ◌+◌, ◌*◌, ◌++◌, length, take};
ghost use Rattle.std.specs.List.{slice_get, flat_map};
ghost use Rattle.dossier.specs.Meaning.{Each, IsRecord, item_answer};
ghost use Rattle.codec.specs.Layout.{file_size};
ghost use Rattle.codec.specs.Written.{item_bytes};
ghost use Rattle.writer.specs.Write.{Headed, first_fault, put};

use codec::layout::{FilePart, field_range};
use dossier::listed::ListedRecord;
use dossier::questions::Dossier;
use dossier::record::Head;
use dossier::refusal::Refusal;
use field::kind::write_field;

// The refusal of the first item that is not a record, if any.
pub fn try_part<R: ListedRecord, D: Dossier>(dossier: &mut D, head: Head) -> Result<(), Refusal>
    requires rule { D.Dossier.rule dossier.old }
    requires under { Headed (D.Dossier.meaning dossier.old) head }
    ensures kept { D.Dossier.rule dossier.new }
    ensures same { D.Dossier.meaning dossier.new ≡ D.Dossier.meaning dossier.old }
    ensures answer { result ≡ first_fault R.ListedRecord.PART 0 (R.ListedRecord.list (D.Dossier.meaning dossier.old)) }
{
    for place in 0..R::count(head) {
        R::ask(dossier, place)?;
    }
    Ok(())
}

// Writes an item into its field, if it is a record.
fn put_item<R: FilePart, D: Dossier>(dossier: &mut D, place: u32, field: &mut [u8])
    requires { D.Dossier.rule dossier.old }
    ensures kept { D.Dossier.rule dossier.new }
    ensures same { D.Dossier.meaning dossier.new ≡ D.Dossier.meaning dossier.old }
    ensures bytes { field.new ≡ put R.Kind.TAG R.Kind.SIZE R.Kind.payload (item_answer R.ListedRecord.PART place (slice_get (R.ListedRecord.list (D.Dossier.meaning dossier.old)) place)) field.old }
{
    if let Ok(found) = R::ask(dossier, place) {
        write_field(&found, field);
    }
}

// Writes the items of a part, field after field. What stands before the part stays.
// The fields are taken by their places, since a proof knows nothing of what is written through chunks_exact_mut.
pub fn put_part<R: FilePart, D: Dossier>(dossier: &mut D, head: Head, out: &mut [u8])
    requires rule { D.Dossier.rule dossier.old }
    requires under { Headed (D.Dossier.meaning dossier.old) head }
    requires readable { Each IsRecord (R.ListedRecord.list (D.Dossier.meaning dossier.old)) }
    requires room { length out.old ≡ file_size head }
    ensures kept { D.Dossier.rule dossier.new }
    ensures same { D.Dossier.meaning dossier.new ≡ D.Dossier.meaning dossier.old }
    ensures front { take (R.FilePart.start head + (3 + R.Kind.SIZE) * R.ListedRecord.count head) out.new ≡ take (R.FilePart.start head) out.old ++ flat_map (item_bytes R.Kind.TAG R.Kind.SIZE R.Kind.payload) (R.ListedRecord.list (D.Dossier.meaning dossier.old)) }
{
    for place in 0..R::count(head) {
        put_item::<R, D>(dossier, place, &mut out[field_range::<R>(head, place)]);
    }
}
