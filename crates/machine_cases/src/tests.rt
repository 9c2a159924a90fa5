// A test for each group of instructions.
use crate::case::check_all;
use crate::{bits, compares, integers, jumps, memory, moves, shifts, tapes};
use std::test::*;

#[test]
fn bit_operations(rt: HostRuntime) -> Result<(), Fail> {
    check_all(&rt, &bits::CASES)
}

#[test]
fn integer_operations(rt: HostRuntime) -> Result<(), Fail> {
    check_all(&rt, &integers::CASES)
}

#[test]
fn shift_operations(rt: HostRuntime) -> Result<(), Fail> {
    check_all(&rt, &shifts::CASES)
}

#[test]
fn comparisons(rt: HostRuntime) -> Result<(), Fail> {
    check_all(&rt, &compares::CASES)
}

#[test]
fn move_operations(rt: HostRuntime) -> Result<(), Fail> {
    check_all(&rt, &moves::CASES)
}

#[test]
fn jumps_and_answers(rt: HostRuntime) -> Result<(), Fail> {
    check_all(&rt, &jumps::CASES)
}

#[test]
fn loads_and_stores(rt: HostRuntime) -> Result<(), Fail> {
    check_all(&rt, &memory::CASES)
}

#[test]
fn reads(rt: HostRuntime) -> Result<(), Fail> {
    check_all(&rt, &tapes::CASES)
}
