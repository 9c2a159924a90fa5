// A small program, and its log.
ghost use Rattle.std.specs.Prelude.{◌≡◌};
ghost use Rattle.tinyram.specs.Sample.{sample_program, SampleLog};

use encoding::instruction::Instruction;

// On the auxiliary word 7 the program accepts in 6 steps. Its log has one opening line.
pub fn sample() -> [Instruction; 7]
    ensures program { result ≡ sample_program }
    ensures log { SampleLog result }
{
    [
        // read r1, 1
        Instruction {
            first: 0xF440_0000,
            second: 1,
        },
        // store.w 8, r1
        Instruction {
            first: 0xE440_0000,
            second: 8,
        },
        // load.b r2, 8
        Instruction {
            first: 0xDC80_0000,
            second: 8,
        },
        // cmpe r2, 7
        Instruction {
            first: 0x6C08_0000,
            second: 7,
        },
        // cnjmp 6
        Instruction {
            first: 0xB400_0000,
            second: 6,
        },
        // answer 0
        Instruction {
            first: 0xFC00_0000,
            second: 0,
        },
        // answer 1
        Instruction {
            first: 0xFC00_0000,
            second: 1,
        },
    ]
}
