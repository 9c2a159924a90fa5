// One step from a known state, and what is expected of it.
use encoding::instruction::Instruction;
use machine::cpu::Cpu;
use machine::step::{Demand, after, asks, execute};
use std::process::Abort;
use std::test::*;

// The state before has pc 5, r1 = x, r2 = y, r3 = 99, the flag, and four primary words read; all else is 0.
// `result` is r3 after the step.
pub struct Case {
    pub text: &'static str,
    pub first: u32,
    pub second: u32,
    pub x: u32,
    pub y: u32,
    pub flag: bool,
    pub got: Option<u32>,
    pub asks: Demand,
    pub leaves: u32,
    pub result: u32,
    pub flag_after: bool,
    pub pc_after: u32,
    pub place_after: u32,
}

impl Case {
    fn registers(&self, third: u32) -> [u32; 16] {
        let mut registers = [0; 16];
        registers[1] = self.x;
        registers[2] = self.y;
        registers[3] = third;
        registers
    }

    // Whether the step does what is expected, in the whole state.
    fn check(&self, rt: &impl Abort) -> Result<(), Fail> {
        let cpu = Cpu {
            pc: 5,
            registers: self.registers(99),
            flag: self.flag,
            place: 4,
        };
        let instruction = Instruction {
            first: self.first,
            second: self.second,
        };
        let operation = instruction.decode().ok_or("ill formed")?;
        assert_eq!(rt; operation.encode(), Some(instruction), "{}", self.text);
        assert_eq!(rt; asks(operation, &cpu), self.asks, "{}", self.text);
        assert_eq!(rt;
            after(operation, &cpu, self.got.unwrap_or(0)),
            self.leaves,
            "{}",
            self.text
        );
        let expected = Cpu {
            pc: self.pc_after,
            registers: self.registers(self.result),
            flag: self.flag_after,
            place: self.place_after,
        };
        assert_eq!(rt;
            execute(cpu, operation, self.got),
            expected,
            "{}",
            self.text
        );
        Ok(())
    }
}

pub fn check_all(rt: &impl Abort, cases: &[Case]) -> Result<(), Fail> {
    for case in cases {
        case.check(rt)?;
    }
    Ok(())
}
