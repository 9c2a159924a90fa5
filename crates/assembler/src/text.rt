// The whole text.
ghost use Rattle.std.specs.Prelude.{◌≡◌, length};
ghost use Rattle.assembler.specs.Text.{assembled, prepared, needed_of, sized, answer, left};

use crate::error::AssemblyError;
use crate::labels::Labels;
use encoding::instruction::Instruction;
use lexer::lines::next_line;

// The first line of every program: a fixed byte string, since it is compared; crate `printer` writes it as text.
const HEADER: &[u8; 32] = b"; TinyRAM V=2.000 M=hv W=32 K=16";

// The labels of a text, and how many entries its program needs.
fn prepare(text: &str) -> Result<(Labels<'_>, usize), AssemblyError>
    ensures program { prepared result text.now ≡ assembled text.now }
    ensures needed { needed_of result ≡ sized (assembled text.now) }
{
    let (first, rest) = next_line(text);
    if first.as_bytes() != HEADER.as_slice() {
        return Err(AssemblyError::Header);
    }
    let labels = Labels::scan(rest)?;
    let needed = labels.entries(rest)?;
    Ok((labels, needed))
}

// Assembles a text into a lent table, and answers the length of the program. The entries
// beyond it stay, and all stay where the text is refused.
pub fn assemble(text: &str, table: &mut [Instruction]) -> Result<usize, AssemblyError>
    ensures value { result ≡ answer text.now (length table.old) }
    ensures table { table.new ≡ left text.now table.old }
{
    let (labels, needed) = prepare(text)?;
    if table.len() < needed {
        return Err(AssemblyError::TableTooShort(needed));
    }
    let (_, rest) = next_line(text);
    Ok(labels.write(rest, table))
}
