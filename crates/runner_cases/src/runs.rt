// Runs and their logs.
// Made by tools/runs.py.
use crate::check::{Log, check_run};
use dossier::record::{Row, Touch};
use encoding::instruction::Instruction;
use index::entry::CellEntry;
use runner::ending::{Answered, Run};
use runner::job::Job;

// An auxiliary word is stored, loaded again and compared.
#[test]
fn sample(rt: HostRuntime) {
    let program = [
        // read r1, 1
        Instruction {
            first: 4097835008,
            second: 1,
        },
        // store.w 8, r1
        Instruction {
            first: 3829399552,
            second: 8,
        },
        // load.b r2, 8
        Instruction {
            first: 3699376128,
            second: 8,
        },
        // cmpe r2, 7
        Instruction {
            first: 1812463616,
            second: 7,
        },
        // cnjmp 6
        Instruction {
            first: 3019898880,
            second: 6,
        },
        // answer 0
        Instruction {
            first: 4227858432,
            second: 0,
        },
        // answer 1
        Instruction {
            first: 4227858432,
            second: 1,
        },
    ];
    let rows = [
        Row::Advice(7),
        Row::FromLine(Touch {
            cell: 8,
            before: 0,
            after: 7,
            origin: 0,
            next: 3,
        }),
        Row::FromStep(Touch {
            cell: 8,
            before: 7,
            after: 7,
            origin: 2,
            next: 0,
        }),
        Row::Plain,
        Row::Plain,
        Row::Plain,
    ];
    let cells = [CellEntry {
        cell: 8,
        first: 2,
        last: 3,
        value: 7,
    }];
    let job = Job {
        program: &program,
        primary: &[],
        auxiliary: &[7],
        bound: 9,
    };
    let run = Run {
        answer: Some(Answered { value: 0, step: 6 }),
        cells: 1,
    };
    let log = Log {
        run,
        rows: &rows,
        cells: &cells,
    };
    check_run(&rt, rt.alloc(), job, log);
}

// The same on another word.
#[test]
fn sample_refuses(rt: HostRuntime) {
    let program = [
        // read r1, 1
        Instruction {
            first: 4097835008,
            second: 1,
        },
        // store.w 8, r1
        Instruction {
            first: 3829399552,
            second: 8,
        },
        // load.b r2, 8
        Instruction {
            first: 3699376128,
            second: 8,
        },
        // cmpe r2, 7
        Instruction {
            first: 1812463616,
            second: 7,
        },
        // cnjmp 6
        Instruction {
            first: 3019898880,
            second: 6,
        },
        // answer 0
        Instruction {
            first: 4227858432,
            second: 0,
        },
        // answer 1
        Instruction {
            first: 4227858432,
            second: 1,
        },
    ];
    let rows = [
        Row::Advice(8),
        Row::FromLine(Touch {
            cell: 8,
            before: 0,
            after: 8,
            origin: 0,
            next: 3,
        }),
        Row::FromStep(Touch {
            cell: 8,
            before: 8,
            after: 8,
            origin: 2,
            next: 0,
        }),
        Row::Plain,
        Row::Plain,
        Row::Plain,
    ];
    let cells = [CellEntry {
        cell: 8,
        first: 2,
        last: 3,
        value: 8,
    }];
    let job = Job {
        program: &program,
        primary: &[],
        auxiliary: &[8],
        bound: 9,
    };
    let run = Run {
        answer: Some(Answered { value: 1, step: 6 }),
        cells: 1,
    };
    let log = Log {
        run,
        rows: &rows,
        cells: &cells,
    };
    check_run(&rt, rt.alloc(), job, log);
}

// No step within the bound answers; the last one touches a cell.
#[test]
fn out_of_steps(rt: HostRuntime) {
    let program = [
        // store.w 4, r1
        Instruction {
            first: 3829399552,
            second: 4,
        },
        // add r1, r1, 1
        Instruction {
            first: 608436224,
            second: 1,
        },
        // jmp 0
        Instruction {
            first: 2751463424,
            second: 0,
        },
    ];
    let rows = [
        Row::FromLine(Touch {
            cell: 4,
            before: 0,
            after: 0,
            origin: 0,
            next: 4,
        }),
        Row::Plain,
        Row::Plain,
        Row::FromStep(Touch {
            cell: 4,
            before: 0,
            after: 1,
            origin: 1,
            next: 7,
        }),
        Row::Plain,
        Row::Plain,
        Row::FromStep(Touch {
            cell: 4,
            before: 1,
            after: 2,
            origin: 4,
            next: 10,
        }),
        Row::Plain,
        Row::Plain,
        Row::FromStep(Touch {
            cell: 4,
            before: 2,
            after: 3,
            origin: 7,
            next: 0,
        }),
    ];
    let cells = [CellEntry {
        cell: 4,
        first: 1,
        last: 10,
        value: 3,
    }];
    let job = Job {
        program: &program,
        primary: &[],
        auxiliary: &[],
        bound: 10,
    };
    let run = Run {
        answer: None,
        cells: 1,
    };
    let log = Log {
        run,
        rows: &rows,
        cells: &cells,
    };
    check_run(&rt, rt.alloc(), job, log);
}

// The answer comes in the last step of the bound.
#[test]
fn just_in_time(rt: HostRuntime) {
    let program = [
        // mov r1, 5
        Instruction {
            first: 2487222272,
            second: 5,
        },
        // answer r1
        Instruction {
            first: 4160749568,
            second: 1,
        },
    ];
    let rows = [Row::Plain, Row::Plain];
    let cells = [];
    let job = Job {
        program: &program,
        primary: &[],
        auxiliary: &[],
        bound: 2,
    };
    let run = Run {
        answer: Some(Answered { value: 5, step: 2 }),
        cells: 0,
    };
    let log = Log {
        run,
        rows: &rows,
        cells: &cells,
    };
    check_run(&rt, rt.alloc(), job, log);
}

// The same with one step less.
#[test]
fn one_step_short(rt: HostRuntime) {
    let program = [
        // mov r1, 5
        Instruction {
            first: 2487222272,
            second: 5,
        },
        // answer r1
        Instruction {
            first: 4160749568,
            second: 1,
        },
    ];
    let rows = [Row::Plain];
    let cells = [];
    let job = Job {
        program: &program,
        primary: &[],
        auxiliary: &[],
        bound: 1,
    };
    let run = Run {
        answer: None,
        cells: 0,
    };
    let log = Log {
        run,
        rows: &rows,
        cells: &cells,
    };
    check_run(&rt, rt.alloc(), job, log);
}

// Past the program stands `answer 1`.
#[test]
fn leaves_the_program(rt: HostRuntime) {
    let program = [
        // mov r1, 3
        Instruction {
            first: 2487222272,
            second: 3,
        },
        // jmp 4000
        Instruction {
            first: 2751463424,
            second: 4000,
        },
    ];
    let rows = [Row::Plain, Row::Plain, Row::Plain];
    let cells = [];
    let job = Job {
        program: &program,
        primary: &[],
        auxiliary: &[],
        bound: 8,
    };
    let run = Run {
        answer: Some(Answered { value: 1, step: 3 }),
        cells: 0,
    };
    let log = Log {
        run,
        rows: &rows,
        cells: &cells,
    };
    check_run(&rt, rt.alloc(), job, log);
}

// Bytes and words overlap in two cells, and an address counts down to its cell.
#[test]
fn bytes_and_words(rt: HostRuntime) {
    let program = [
        // mov r1, 287454020
        Instruction {
            first: 2487222272,
            second: 287454020,
        },
        // store.w 10, r1
        Instruction {
            first: 3829399552,
            second: 10,
        },
        // mov r2, 171
        Instruction {
            first: 2491416576,
            second: 171,
        },
        // store.b 9, r2
        Instruction {
            first: 3565158400,
            second: 9,
        },
        // load.b r3, 11
        Instruction {
            first: 3703570432,
            second: 11,
        },
        // load.w r4, 9
        Instruction {
            first: 3976200192,
            second: 9,
        },
        // store.b 12, r3
        Instruction {
            first: 3569352704,
            second: 12,
        },
        // store.w 15, r4
        Instruction {
            first: 3841982464,
            second: 15,
        },
        // load.b r5, 13
        Instruction {
            first: 3711959040,
            second: 13,
        },
        // answer r5
        Instruction {
            first: 4160749568,
            second: 5,
        },
    ];
    let rows = [
        Row::Plain,
        Row::FromLine(Touch {
            cell: 8,
            before: 0,
            after: 287454020,
            origin: 0,
            next: 4,
        }),
        Row::Plain,
        Row::FromStep(Touch {
            cell: 8,
            before: 287454020,
            after: 287484740,
            origin: 2,
            next: 5,
        }),
        Row::FromStep(Touch {
            cell: 8,
            before: 287484740,
            after: 287484740,
            origin: 4,
            next: 6,
        }),
        Row::FromStep(Touch {
            cell: 8,
            before: 287484740,
            after: 287484740,
            origin: 5,
            next: 0,
        }),
        Row::FromLine(Touch {
            cell: 12,
            before: 0,
            after: 17,
            origin: 1,
            next: 8,
        }),
        Row::FromStep(Touch {
            cell: 12,
            before: 17,
            after: 287484740,
            origin: 7,
            next: 9,
        }),
        Row::FromStep(Touch {
            cell: 12,
            before: 287484740,
            after: 287484740,
            origin: 8,
            next: 0,
        }),
        Row::Plain,
    ];
    let cells = [
        CellEntry {
            cell: 8,
            first: 2,
            last: 6,
            value: 287484740,
        },
        CellEntry {
            cell: 12,
            first: 7,
            last: 9,
            value: 287484740,
        },
    ];
    let job = Job {
        program: &program,
        primary: &[],
        auxiliary: &[],
        bound: 24,
    };
    let run = Run {
        answer: Some(Answered {
            value: 171,
            step: 10,
        }),
        cells: 2,
    };
    let log = Log {
        run,
        rows: &rows,
        cells: &cells,
    };
    check_run(&rt, rt.alloc(), job, log);
}

// Cells are touched from the highest down, and again from the lowest up.
#[test]
fn cells_fall(rt: HostRuntime) {
    let program = [
        // store.w 4294967292, r1
        Instruction {
            first: 3829399552,
            second: 4294967292,
        },
        // store.w 400, r1
        Instruction {
            first: 3829399552,
            second: 400,
        },
        // store.w 40, r1
        Instruction {
            first: 3829399552,
            second: 40,
        },
        // store.w 0, r1
        Instruction {
            first: 3829399552,
            second: 0,
        },
        // load.w r2, 3
        Instruction {
            first: 3967811584,
            second: 3,
        },
        // load.w r2, 41
        Instruction {
            first: 3967811584,
            second: 41,
        },
        // load.w r2, 402
        Instruction {
            first: 3967811584,
            second: 402,
        },
        // load.w r2, 4294967295
        Instruction {
            first: 3967811584,
            second: 4294967295,
        },
        // answer 0
        Instruction {
            first: 4227858432,
            second: 0,
        },
    ];
    let rows = [
        Row::FromLine(Touch {
            cell: 4294967292,
            before: 0,
            after: 0,
            origin: 3,
            next: 8,
        }),
        Row::FromLine(Touch {
            cell: 400,
            before: 0,
            after: 0,
            origin: 2,
            next: 7,
        }),
        Row::FromLine(Touch {
            cell: 40,
            before: 0,
            after: 0,
            origin: 1,
            next: 6,
        }),
        Row::FromLine(Touch {
            cell: 0,
            before: 0,
            after: 0,
            origin: 0,
            next: 5,
        }),
        Row::FromStep(Touch {
            cell: 0,
            before: 0,
            after: 0,
            origin: 4,
            next: 0,
        }),
        Row::FromStep(Touch {
            cell: 40,
            before: 0,
            after: 0,
            origin: 3,
            next: 0,
        }),
        Row::FromStep(Touch {
            cell: 400,
            before: 0,
            after: 0,
            origin: 2,
            next: 0,
        }),
        Row::FromStep(Touch {
            cell: 4294967292,
            before: 0,
            after: 0,
            origin: 1,
            next: 0,
        }),
        Row::Plain,
    ];
    let cells = [
        CellEntry {
            cell: 0,
            first: 4,
            last: 5,
            value: 0,
        },
        CellEntry {
            cell: 40,
            first: 3,
            last: 6,
            value: 0,
        },
        CellEntry {
            cell: 400,
            first: 2,
            last: 7,
            value: 0,
        },
        CellEntry {
            cell: 4294967292,
            first: 1,
            last: 8,
            value: 0,
        },
    ];
    let job = Job {
        program: &program,
        primary: &[],
        auxiliary: &[],
        bound: 20,
    };
    let run = Run {
        answer: Some(Answered { value: 0, step: 9 }),
        cells: 4,
    };
    let log = Log {
        run,
        rows: &rows,
        cells: &cells,
    };
    check_run(&rt, rt.alloc(), job, log);
}

// Both tapes are read past their ends, and a third tape is empty.
#[test]
fn tapes(rt: HostRuntime) {
    let program = [
        // read r1, 0
        Instruction {
            first: 4097835008,
            second: 0,
        },
        // read r2, 1
        Instruction {
            first: 4102029312,
            second: 1,
        },
        // read r3, 0
        Instruction {
            first: 4106223616,
            second: 0,
        },
        // read r4, 1
        Instruction {
            first: 4110417920,
            second: 1,
        },
        // read r5, 1
        Instruction {
            first: 4114612224,
            second: 1,
        },
        // read r6, 2
        Instruction {
            first: 4118806528,
            second: 2,
        },
        // store.w r1, r2
        Instruction {
            first: 3766484992,
            second: 1,
        },
        // answer r2
        Instruction {
            first: 4160749568,
            second: 2,
        },
    ];
    let rows = [
        Row::Plain,
        Row::Advice(5),
        Row::Plain,
        Row::Advice(6),
        Row::AdviceEnd,
        Row::Plain,
        Row::FromLine(Touch {
            cell: 36,
            before: 0,
            after: 5,
            origin: 0,
            next: 0,
        }),
        Row::Plain,
    ];
    let cells = [CellEntry {
        cell: 36,
        first: 7,
        last: 7,
        value: 5,
    }];
    let job = Job {
        program: &program,
        primary: &[36],
        auxiliary: &[5, 6],
        bound: 24,
    };
    let run = Run {
        answer: Some(Answered { value: 5, step: 8 }),
        cells: 1,
    };
    let log = Log {
        run,
        rows: &rows,
        cells: &cells,
    };
    check_run(&rt, rt.alloc(), job, log);
}
