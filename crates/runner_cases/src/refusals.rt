// Each refusal, its order among the others, its number and values, and the tables that it leaves.
use crate::check::{Room, check_refusal};
use encoding::instruction::Instruction;
use runner::job::Job;
use runner::refusal::{Limit, RunRefusal};
use std::test::Fail;

// `store.w 8, r0`, which a run that is not refused would log.
const STORE: Instruction = Instruction {
    first: 0xE400_0000,
    second: 8,
};

// Opcode 23 stands for nothing.
const ILL_FORMED: Instruction = Instruction {
    first: 0xB800_0000,
    second: 0,
};

const ROOM: Room = Room {
    rows: 24,
    cells: 24,
};

// A job with no tapes.
fn without_tapes(program: &[Instruction], bound: u32) -> Job<'_> {
    Job {
        program,
        primary: &[],
        auxiliary: &[],
        bound,
    }
}

#[test]
fn no_instruction(rt: HostRuntime) -> Result<(), Fail> {
    let room = Room { rows: 0, cells: 0 };
    let refusal = RunRefusal::Outside(Limit::Program);
    check_refusal(&rt, rt.alloc(), without_tapes(&[], 0), room, refusal)
}

#[test]
fn a_program_too_long(rt: HostRuntime) -> Result<(), Fail> {
    let heap = rt.alloc();
    let program = vec![in heap; ILL_FORMED; 4097]?;
    let refusal = RunRefusal::Outside(Limit::Program);
    check_refusal(&rt, heap, without_tapes(&program, 9), ROOM, refusal)
}

#[test]
fn too_many_primary_words(rt: HostRuntime) -> Result<(), Fail> {
    let heap = rt.alloc();
    let primary = vec![in heap; 5u32; 4097]?;
    let job = Job {
        primary: &primary,
        ..without_tapes(&[ILL_FORMED], 0)
    };
    check_refusal(&rt, heap, job, ROOM, RunRefusal::Outside(Limit::Primary))
}

#[test]
fn bounds_outside(rt: HostRuntime) -> Result<(), Fail> {
    let heap = rt.alloc();
    let refusal = RunRefusal::Outside(Limit::Bound);
    check_refusal(&rt, heap, without_tapes(&[ILL_FORMED], 0), ROOM, refusal)?;
    check_refusal(&rt, heap, without_tapes(&[STORE], 1_000_001), ROOM, refusal)
}

#[test]
fn ill_formed(rt: HostRuntime) -> Result<(), Fail> {
    let program = [STORE, STORE, ILL_FORMED, ILL_FORMED];
    let room = Room { rows: 5, cells: 5 };
    let refusal = RunRefusal::IllFormed { place: 2 };
    check_refusal(&rt, rt.alloc(), without_tapes(&program, 9), room, refusal)
}

#[test]
fn tables_too_short(rt: HostRuntime) -> Result<(), Fail> {
    let heap = rt.alloc();
    let few_rows = Room { rows: 8, cells: 24 };
    let few_cells = Room { rows: 24, cells: 8 };
    let job = without_tapes(&[STORE], 9);
    check_refusal(&rt, heap, job, few_rows, RunRefusal::Room { needed: 9 })?;
    check_refusal(&rt, heap, job, few_cells, RunRefusal::Room { needed: 9 })?;
    let long = without_tapes(&[STORE], 1_000_000);
    check_refusal(
        &rt,
        heap,
        long,
        ROOM,
        RunRefusal::Room { needed: 1_000_000 },
    )
}

#[test]
fn numbers_and_values(rt: HostRuntime) {
    let cases = [
        (RunRefusal::Outside(Limit::Program), 7, 1),
        (RunRefusal::Outside(Limit::Primary), 7, 2),
        (RunRefusal::Outside(Limit::Bound), 7, 3),
        (RunRefusal::IllFormed { place: 2 }, 6, 2),
        (RunRefusal::Room { needed: 9 }, 8, 9),
    ];
    for (refusal, number, value) in cases {
        assert_eq!(rt; refusal.number(), number);
        assert_eq!(rt; refusal.value(0), Some(value));
        assert_eq!(rt; refusal.value(1), None);
    }
    assert_eq!(rt; RunRefusal::OutOfMemory.number(), 0);
    assert_eq!(rt; RunRefusal::OutOfMemory.value(0), None);
}
