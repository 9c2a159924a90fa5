// The preamble, which reads the primary words into memory.
ghost use Rattle.std.specs.Prelude.{◌≡◌};
ghost use Rattle.assembler.specs.Preamble.{is_proper};

use encoding::instruction::Instruction;

const PREAMBLE: [Instruction; 8] = [
    // store.w 0, r0
    Instruction {
        first: 0xE400_0000,
        second: 0,
    },
    // mov r0, 2147483648
    Instruction {
        first: 0x9400_0000,
        second: 0x8000_0000,
    },
    // read r1, 0
    Instruction {
        first: 0xF440_0000,
        second: 0,
    },
    // cjmp 7
    Instruction {
        first: 0xAC00_0000,
        second: 7,
    },
    // add r0, r0, 1
    Instruction {
        first: 0x2400_0000,
        second: 1,
    },
    // store.w r0, r1
    Instruction {
        first: 0xE040_0000,
        second: 0,
    },
    // jmp 2
    Instruction {
        first: 0xA400_0000,
        second: 2,
    },
    // store.w 2147483648, r0
    Instruction {
        first: 0xE400_0000,
        second: 0x8000_0000,
    },
];

// Whether a program is proper: it starts with the preamble.
pub fn is_proper(program: &[Instruction]) -> bool
    ensures { result ≡ is_proper program.now }
{
    program.starts_with(&PREAMBLE)
}
