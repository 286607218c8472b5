//! What numeric instructions give of operands, as text.

use crate::hex::{hex, hex8, split};
use cases::Steps;
use std::alloc::{AllocError, Global};
use std::fmt::Write;
use std::test::Fail;
use syntax_trees::NumericOp;
use wasm_code_reader::numeric;
use wasm_numbers::{NumberTrap, of_one, of_two, takes_one, takes_two};

/// The name of a trap.
fn trap_name(trap: NumberTrap) -> &'static str {
    match trap {
        NumberTrap::DivideByZero => "by zero",
        NumberTrap::DivideOverflow => "overflow",
    }
}

/// Writes a result, or a trap.
fn write_result(text: &mut String, outcome: Result<u64, NumberTrap>) -> Result<(), AllocError> {
    match outcome {
        Ok(value) => write!(text, "{value:x}"),
        Err(trap) => text.push_str(trap_name(trap)),
    }
}

/// Writes a result, or a trap, or that an instruction takes other operands.
fn write_outcome(
    text: &mut String,
    outcome: Option<Result<u64, NumberTrap>>,
) -> Result<(), AllocError> {
    match outcome {
        Some(outcome) => write_result(text, outcome),
        None => text.push_str("other operands"),
    }
}

/// What an instruction gives of one operand, if it takes that.
fn given_one(op: NumericOp, a: u64) -> Option<Result<u64, NumberTrap>> {
    if takes_one(op, a) {
        Some(Ok(of_one(op, a)))
    } else {
        None
    }
}

/// What an instruction gives of two operands, if it takes these.
fn given_two(op: NumericOp, a: u64, b: u64) -> Option<Result<u64, NumberTrap>> {
    if takes_two(op, a, b) {
        Some(of_two(op, a, b))
    } else {
        None
    }
}

/// What an instruction gives of the operands of a text, if it takes these.
fn given(op: NumericOp, operands: &str) -> Option<Result<u64, NumberTrap>> {
    let (a, b) = split(operands);
    if b.is_empty() {
        given_one(op, hex(a))
    } else {
        given_two(op, hex(a), hex(b))
    }
}

/// Writes what the instruction of an opcode gives of the operands of a text, if there is one.
fn write_given(text: &mut String, opcode: u8, operands: &str) -> Result<(), AllocError> {
    match numeric(opcode) {
        Some(op) => write_outcome(text, given(op, operands)),
        None => text.push_str("no such opcode"),
    }
}

/// Writes what so many instructions give of the operands of a text, by the opcode of the first, with a space between two.
fn write_all_given(
    text: &mut String,
    first: u8,
    count: usize,
    operands: &str,
) -> Result<(), AllocError> {
    let mut opcode = first;
    for number in 0..count {
        if number > 0 {
            text.push(' ')?;
        }
        write_given(text, opcode, operands)?;
        opcode = opcode.saturating_add(1);
    }
    Ok(())
}

/// So many opcodes, from the first one on. Operands are given to the instruction of each.
#[derive(Drop)]
pub(crate) struct Opcodes {
    first: u8,
    count: usize,
}

impl Steps for Opcodes {
    fn begin(_alloc: Global, title: &str) -> Result<Opcodes, Fail> {
        let (opcode, names) = split(title);
        Ok(Opcodes {
            first: hex8(opcode),
            count: names.split(' ').count(),
        })
    }

    fn step(&mut self, _alloc: Global, line: &str, text: &mut String) -> Result<(), Fail> {
        write_all_given(text, self.first, self.count, line)?;
        Ok(())
    }
}
