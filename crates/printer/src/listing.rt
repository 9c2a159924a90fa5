// The listing of a program.
ghost use Rattle.std.specs.Prelude.{◌≡◌, Some, IfOk, string_bytes};
ghost use Rattle.printer.specs.Listing.{printed};
ghost use Rattle.printer.specs.Back.{PrintedAssembles};

use crate::operation::OperationText;
use encoding::instruction::Instruction;
use std::alloc::{AllocError, Global};
use std::fmt;

// The header stands here as text; the assembler compares a byte string.
#[derive(Clone, Copy)]
struct Listing<'a>(&'a [Instruction]);

impl fmt::Display for Listing<'_> {
    ghost output = { λ p. Some (printed p.0.now) };

    fn fmt<W: fmt::Write>(&self, f: &mut fmt::Formatter<W>) -> fmt::Result {
        writeln!(f, "; TinyRAM V=2.000 M=hv W=32 K=16")?;
        for instruction in self.0 {
            let line = OperationText(instruction.operation());
            writeln!(f, "{line}")?;
        }
        Ok(())
    }
}

// The text of a program: the header, and a line for each instruction. One that is ill formed
// is printed as what the machine takes it for. What is printed assembles to the program.
pub fn print_program(heap: Global, program: &[Instruction]) -> Result<String, AllocError>
    ensures bytes { IfOk result (λ t. string_bytes t ≡ printed program.now) }
    ensures back { PrintedAssembles }
{
    let listing = Listing(program);
    format!(in heap; "{listing}")
}
