//! What numeric instructions make of the operands on a stack, as text.

use crate::hex::{hex, hex8, hex32};
use cases::{Acts, write_acts};
use std::alloc::{AllocError, Global};
use std::fmt::Write;
use std::test::Fail;
use syntax_trees::{BinaryOp, NumericOp, Width};
use wasm_code_reader::numeric;
use wasm_numbers::{NumberTrap, apply, operand_count};

/// Writes an answer, and what is left of the operands.
fn write_left(
    text: &mut String,
    answer: Result<(), NumberTrap>,
    operands: &[u64],
) -> Result<(), AllocError> {
    write!(text, "{answer:?} {operands:?}")
}

/// Writes what `i64.sub` makes of operands.
fn write_difference(
    alloc: Global,
    text: &mut String,
    below: u64,
    a: u64,
    b: u64,
) -> Result<(), AllocError> {
    let mut operands = [below, a, b].to_vec(alloc)?;
    let answer = apply(NumericOp::Binary(Width::W64, BinaryOp::Sub), &mut operands);
    write_left(text, answer, &operands)
}

/// Writes what `i32.div_u` makes of operands.
fn write_quotient(
    alloc: Global,
    text: &mut String,
    below: u64,
    a: u32,
    b: u32,
) -> Result<(), AllocError> {
    let mut operands = [below, u64::from(a), u64::from(b)].to_vec(alloc)?;
    let answer = apply(NumericOp::Binary(Width::W32, BinaryOp::DivU), &mut operands);
    write_left(text, answer, &operands)
}

/// Writes what `i32.wrap_i64` makes of operands.
fn write_wrapped(alloc: Global, text: &mut String, below: u64, a: u64) -> Result<(), AllocError> {
    let mut operands = [below, a].to_vec(alloc)?;
    let answer = apply(NumericOp::WrapI64, &mut operands);
    write_left(text, answer, &operands)
}

/// Writes how many operands an instruction takes.
fn write_count(text: &mut String, op: Option<NumericOp>) -> Result<(), AllocError> {
    match op {
        Some(op) => write!(text, "{}", operand_count(op)),
        None => text.push_str("no such opcode"),
    }
}

/// Writes what the instruction of a name makes of operands, with a comma between two, or how many it takes.
fn write_made(
    alloc: Global,
    text: &mut String,
    name: &str,
    operands: &str,
) -> Result<(), AllocError> {
    let (below, rest) = operands.split_once(',').unwrap_or((operands, ""));
    let (a, b) = rest.split_once(',').unwrap_or((rest, ""));
    match name {
        "i64.sub" => write_difference(alloc, text, hex(below), hex(a), hex(b)),
        "i32.div_u" => write_quotient(alloc, text, hex(below), hex32(a), hex32(b)),
        "i32.wrap_i64" => write_wrapped(alloc, text, hex(below), hex(a)),
        _ => write_count(text, numeric(hex8(operands))),
    }
}

/// Instructions over stacks, which keep nothing.
#[derive(Drop)]
struct OverStacks;

impl Acts for OverStacks {
    fn act(
        &mut self,
        alloc: Global,
        name: &str,
        rest: &str,
        text: &mut String,
    ) -> Result<(), Fail> {
        write_made(alloc, text, name, rest)?;
        Ok(())
    }
}

/// What the words of a line make of operands, or answer.
pub(crate) fn operands_answer(alloc: Global, given: &str) -> Result<String, Fail> {
    let mut text = String::new(alloc);
    let mut stacks = OverStacks;
    write_acts(alloc, &mut stacks, given, &mut text)?;
    Ok(text)
}
