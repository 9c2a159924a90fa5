// Which pairs of words are well-formed instructions, and what is executed past a program.
use encoding::instruction::Instruction;
use encoding::operation::{Operand, Operation};
use machine::step::fetch;
use std::test::*;

// first word, second word, well formed
const PAIRS: [(u32, u32, bool); 20] = [
    // and r0, r0, r0: all words 0
    (0, 0, true),
    // add r3, r7, 1234
    (0x24DC_0000, 1234, true),
    // its padding: lowest and highest bit
    (0x24DC_0001, 1234, false),
    (0x24DE_0000, 1234, false),
    // add r3, r7, r15 and a register 16
    (0x20DC_0000, 15, true),
    (0x20DC_0000, 16, false),
    // opcodes 22 to 26: cnjmp, three that stand for nothing, store.b
    (0xB400_0000, 6, true),
    (0xBC00_0000, 0, false),
    (0xC400_0000, 0, false),
    (0xCC00_0000, 0, false),
    (0xD440_0000, 9, true),
    // not r1, 0 and a source register
    (0x1C40_0000, 0, true),
    (0x1C44_0000, 0, false),
    // cmpe r2, 7 and a destination register
    (0x6C08_0000, 7, true),
    (0x6C48_0000, 7, false),
    // mov r1, 0 with a source register
    (0x9444_0000, 0, false),
    // jmp 0 with either register
    (0xA440_0000, 0, false),
    (0xA404_0000, 0, false),
    // answer 4294967295, and with a destination
    (0xFC00_0000, 4294967295, true),
    (0xFC40_0000, 0, false),
];

#[test]
fn formed(rt: HostRuntime) -> Result<(), Fail> {
    for (first, second, expected) in PAIRS {
        let instruction = Instruction { first, second };
        assert_eq!(rt; instruction.well_formed(), expected);
        assert_eq!(rt; instruction.decode().is_some(), expected);
    }
    Ok(())
}

fn answer(word: u32) -> Operation {
    Operation::Answer {
        value: Operand::Immediate(word),
    }
}

#[test]
fn past_the_program(rt: HostRuntime) -> Result<(), Fail> {
    // answer 0, and an opcode that stands for nothing
    let program = [
        Instruction {
            first: 0xFC00_0000,
            second: 0,
        },
        Instruction {
            first: 0xBC00_0000,
            second: 0,
        },
    ];
    assert_eq!(rt; fetch(&program, 0), answer(0));
    assert_eq!(rt; fetch(&program, 1), answer(1));
    assert_eq!(rt; fetch(&program, 2), answer(1));
    assert_eq!(rt; fetch(&program, 4294967295), answer(1));
    assert_eq!(rt; fetch(&[], 0), answer(1));
    Ok(())
}

#[test]
fn no_register_16(rt: HostRuntime) -> Result<(), Fail> {
    let read = Operation::Read {
        to: 16,
        tape: Operand::Immediate(0),
    };
    assert_eq!(rt; read.encode(), None);
    let operand = Operation::Answer {
        value: Operand::Register(16),
    };
    assert_eq!(rt; operand.encode(), None);
    Ok(())
}
