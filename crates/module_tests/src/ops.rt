//! Operations as text: those that the tables have, by their names.

use std::alloc::AllocError;
use std::fmt::Write;
use syntax_trees::{BinaryOp, Instr, NumericOp, Op, Width};

/// Writes an instruction.
fn write_instr(text: &mut String, instr: &Instr) -> Result<(), AllocError> {
    match instr {
        Instr::LocalGet(index) => write!(text, "LocalGet({index})"),
        Instr::Numeric(NumericOp::Binary(Width::W32, BinaryOp::Add)) => {
            text.push_str("Numeric(Binary(W32, Add))")
        }
        _ => text.push_str("another instruction"),
    }
}

/// Writes an instruction that holds no others.
fn write_plain(text: &mut String, instr: &Instr) -> Result<(), AllocError> {
    text.push_str("Plain(")?;
    write_instr(text, instr)?;
    text.push(')')
}

/// Writes an operation.
pub(crate) fn write_op(text: &mut String, op: &Op) -> Result<(), AllocError> {
    match op {
        Op::Plain(instr) => write_plain(text, instr),
        Op::End => text.push_str("End"),
        _ => text.push_str("another operation"),
    }
}

/// Writes the operation that stands somewhere, if there is one.
pub(crate) fn write_found(text: &mut String, op: Option<&Op>) -> Result<(), AllocError> {
    let Some(op) = op else {
        return text.push_str("None");
    };
    text.push_str("Some(")?;
    write_op(text, op)?;
    text.push(')')
}
