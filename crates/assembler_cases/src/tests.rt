// Single lines, whole texts, the printer and the preamble.
use crate::case::{OLD, answer, instruction, refusal};
use crate::{bad, good, programs, refused};
use assembler::preamble::is_proper;
use encoding::instruction::Instruction;
use printer::listing::print_program;
use std::test::Fail;

const PREAMBLE: &str = "; TinyRAM V=2.000 M=hv W=32 K=16
store.w 0, r0
mov r0, 2147483648
_read: read r1, 0
cjmp _done
add r0, r0, 1
store.w r0, r1
jmp _read
_done: store.w 2147483648, r0
answer 0
";

#[test]
fn good_lines(rt: HostRuntime) -> Result<(), Fail> {
    for &(line, words) in &good::CASES {
        let text = format!(in rt.alloc(); "; TinyRAM V=2.000 M=hv W=32 K=16\n{line}")?;
        let mut table = [OLD; 2];
        assert_eq!(rt; answer(text.as_str(), &mut table), Ok(1), "{}", line);
        assert_eq!(rt; table[0], instruction(words), "{}", line);
        assert_eq!(rt; table[1], OLD, "{}", line);
    }
    Ok(())
}

#[test]
fn bad_lines(rt: HostRuntime) -> Result<(), Fail> {
    for &line in &bad::CASES {
        let text = format!(in rt.alloc(); "; TinyRAM V=2.000 M=hv W=32 K=16\n{line}")?;
        let mut table = [OLD; 1];
        assert_eq!(rt;
            answer(text.as_str(), &mut table),
            refusal(10, 2),
            "{}",
            line
        );
        assert_eq!(rt; table[0], OLD, "{}", line);
    }
    Ok(())
}

#[test]
fn refused_texts(rt: HostRuntime) {
    for &(text, number, value) in &refused::CASES {
        let mut table = [OLD; 4];
        assert_eq!(rt;
            answer(text, &mut table),
            refusal(number, value),
            "{}",
            text
        );
        assert_eq!(rt; table, [OLD; 4], "{}", text);
    }
}

#[test]
fn whole_programs(rt: HostRuntime) {
    for &(text, len, after) in &programs::CASES {
        let mut table = [OLD; 4];
        assert_eq!(rt; answer(text, &mut table), Ok(len), "{}", text);
        assert_eq!(rt; table, after.map(instruction), "{}", text);
    }
}

// What is printed of each good line's instruction assembles to it again.
#[test]
fn printed_lines(rt: HostRuntime) -> Result<(), Fail> {
    for &(line, words) in &good::CASES {
        let text = print_program(rt.alloc(), &[instruction(words)])?;
        let mut table = [OLD; 1];
        assert_eq!(rt; answer(text.as_str(), &mut table), Ok(1), "{}", line);
        assert_eq!(rt; table[0], instruction(words), "{}", line);
    }
    Ok(())
}

#[test]
fn printed_texts(rt: HostRuntime) -> Result<(), Fail> {
    let store = Instruction {
        first: 0xE0C0_0000,
        second: 2,
    };
    let add = Instruction {
        first: 0x24DC_0000,
        second: 4294967295,
    };
    // the padding is not 0, so the machine takes it for `answer 1`
    let torn = Instruction {
        first: 1,
        second: 0,
    };
    let text = print_program(rt.alloc(), &[store, add, torn])?;
    assert_eq!(rt;
        text.as_str(),
        "; TinyRAM V=2.000 M=hv W=32 K=16\nstore.w r2, r3\nadd r3, r7, 4294967295\nanswer 1\n"
    );
    Ok(())
}

#[test]
fn proper_programs(rt: HostRuntime) {
    let mut table = [OLD; 9];
    assert_eq!(rt; answer(PREAMBLE, &mut table), Ok(9));
    assert!(rt; is_proper(&table));
    assert!(rt; is_proper(&table[0..8]));
    assert!(rt; !is_proper(&table[0..7]));
    assert!(rt; !is_proper(&table[1..9]));
    assert!(rt; !is_proper(&[]));
    table[3].second = 8;
    assert!(rt; !is_proper(&table));
    table[3].second = 7;
    table[4].first = 0x2440_0000;
    assert!(rt; !is_proper(&table));
}
