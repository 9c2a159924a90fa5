// As many labels and instructions as there may be, and one more.
use crate::case::{OLD, answer, instruction, refusal};
use assembler::error::Refusal;
use encoding::instruction::Instruction;
use std::alloc::{AllocError, Global};
use std::test::Fail;

// The header, `labels` lines with a label each, and `instructions` lines with an instruction each.
fn text_of(heap: Global, labels: u32, instructions: u32) -> Result<String, AllocError> {
    let mut text = String::from_str(heap, "; TinyRAM V=2.000 M=hv W=32 K=16\n")?;
    for n in 0..labels {
        writeln!(text, "_label{n}:")?;
    }
    for n in 0..instructions {
        writeln!(text, "answer {n}")?;
    }
    Ok(text)
}

// What assembling that text into a table of `size` entries answers, with the first and the last entry after.
fn assembled(
    heap: Global,
    labels: u32,
    instructions: u32,
    size: usize,
) -> Result<Outcome, AllocError> {
    let text = text_of(heap, labels, instructions)?;
    let mut table = vec![in heap; OLD; size]?;
    let answer = answer(text.as_str(), table.as_mut_slice());
    Ok(Outcome {
        answer,
        first: table.first().copied(),
        last: table.last().copied(),
    })
}

#[derive(Drop)]
struct Outcome {
    answer: Result<usize, Refusal>,
    first: Option<Instruction>,
    last: Option<Instruction>,
}

// `answer n`
fn answering(n: u32) -> Option<Instruction> {
    Some(instruction((0xFC00_0000, n)))
}

#[test]
fn labels_256(rt: HostRuntime) -> Result<(), Fail> {
    let outcome = assembled(rt.alloc(), 256, 1, 1)?;
    assert_eq!(rt; outcome.answer, Ok(1));
    assert_eq!(rt; outcome.first, answering(0));
    Ok(())
}

#[test]
fn labels_257(rt: HostRuntime) -> Result<(), Fail> {
    let outcome = assembled(rt.alloc(), 257, 1, 1)?;
    assert_eq!(rt; outcome.answer, refusal(13, 258));
    assert_eq!(rt; outcome.first, Some(OLD));
    Ok(())
}

#[test]
fn instructions_4096(rt: HostRuntime) -> Result<(), Fail> {
    let exact = assembled(rt.alloc(), 3, 4096, 4096)?;
    assert_eq!(rt; exact.answer, Ok(4096));
    assert_eq!(rt; exact.first, answering(0));
    assert_eq!(rt; exact.last, answering(4095));
    let longer = assembled(rt.alloc(), 3, 4096, 4097)?;
    assert_eq!(rt; longer.answer, Ok(4096));
    assert_eq!(rt; longer.last, Some(OLD));
    Ok(())
}

#[test]
fn instructions_4097(rt: HostRuntime) -> Result<(), Fail> {
    let outcome = assembled(rt.alloc(), 0, 4097, 4097)?;
    assert_eq!(rt; outcome.answer, refusal(13, 4098));
    assert_eq!(rt; outcome.first, Some(OLD));
    assert_eq!(rt; outcome.last, Some(OLD));
    Ok(())
}

#[test]
fn table_of_4095(rt: HostRuntime) -> Result<(), Fail> {
    let outcome = assembled(rt.alloc(), 256, 4096, 4095)?;
    assert_eq!(rt; outcome.answer, refusal(14, 4096));
    assert_eq!(rt; outcome.first, Some(OLD));
    assert_eq!(rt; outcome.last, Some(OLD));
    Ok(())
}
