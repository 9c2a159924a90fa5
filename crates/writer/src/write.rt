// The writer of any dossier into lent bytes.
ghost use Rattle.std.specs.Prelude.{◌≡◌, ℕ, length, take, Ok};
ghost use Rattle.dossier.specs.Meaning.{Readable};
ghost use Rattle.codec.specs.Layout.{file_size};
ghost use Rattle.codec.specs.Held.{meaning_of};
ghost use Rattle.codec.specs.Written.{written};
ghost use Rattle.writer.specs.Write.{Headed, items_answer, write_answer, left};

use crate::parts::{put_part, try_part};
use crate::refusal::WriteRefusal;
use codec::layout::{HEAD_SIZE, file_size};
use dossier::questions::Dossier;
use dossier::record::{Head, Line, Row};
use dossier::refusal::Refusal;
use encoding::instruction::Instruction;
use field::kind::write_field;

// The refusal of the first item that is not a record, part by part, if any.
fn try_items<D: Dossier>(dossier: &mut D, head: Head) -> Result<(), Refusal>
    requires rule { D.Dossier.rule dossier.old }
    requires under { Headed (D.Dossier.meaning dossier.old) head }
    ensures kept { D.Dossier.rule dossier.new }
    ensures same { D.Dossier.meaning dossier.new ≡ D.Dossier.meaning dossier.old }
    ensures answer { result ≡ items_answer (D.Dossier.meaning dossier.old) }
{
    try_part::<Instruction, D>(dossier, head)?;
    try_part::<u32, D>(dossier, head)?;
    try_part::<Line, D>(dossier, head)?;
    try_part::<Row, D>(dossier, head)
}

// Writes the head and every item.
fn put_items<D: Dossier>(dossier: &mut D, head: Head, out: &mut [u8])
    requires rule { D.Dossier.rule dossier.old }
    requires under { Headed (D.Dossier.meaning dossier.old) head }
    requires readable { Readable (D.Dossier.meaning dossier.old) }
    requires room { length out.old ≡ file_size head }
    ensures kept { D.Dossier.rule dossier.new }
    ensures same { D.Dossier.meaning dossier.new ≡ D.Dossier.meaning dossier.old }
    ensures bytes { out.new ≡ written (D.Dossier.meaning dossier.old) }
{
    write_field(&head, &mut out[0..HEAD_SIZE]);
    put_part::<Instruction, D>(dossier, head, out);
    put_part::<u32, D>(dossier, head, out);
    put_part::<Line, D>(dossier, head, out);
    put_part::<Row, D>(dossier, head, out);
}

// Writes a dossier at the start of `out`, once its head, the room and every item were tried, and answers the length.
// What is written reads back with the same meaning.
pub fn write<D: Dossier>(dossier: &mut D, out: &mut [u8]) -> Result<usize, WriteRefusal>
    requires { D.Dossier.rule dossier.old }
    ensures kept { D.Dossier.rule dossier.new }
    ensures same { D.Dossier.meaning dossier.new ≡ D.Dossier.meaning dossier.old }
    ensures answer { result ≡ write_answer (D.Dossier.meaning dossier.old) (length out.old) }
    ensures bytes { out.new ≡ left result (written (D.Dossier.meaning dossier.old)) out.old }
    ensures back { (n : ℕ) → result ≡ Ok n → meaning_of (take n out.new) ≡ D.Dossier.meaning dossier.old }
{
    let head = dossier.head()?;
    let size = file_size(head);
    if out.len() < size {
        return Err(WriteRefusal::Room {
            needed: size as u64,
        });
    }
    try_items(dossier, head)?;
    put_items(dossier, head, &mut out[0..size]);
    Ok(size)
}
