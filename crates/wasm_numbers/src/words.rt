//! Tests of words against types.

ghost use Rattle.std.specs.Prelude.{IsTrue, ◌↔◌, [], ◌∷◌};
ghost use Rattle.wasm_numbers.specs.Types.{IsWord, AreWords, integer, operand_types};

use syntax_trees::module_types::ValType;
use syntax_trees::{NumericOp, Width};

/// Whether a number is a value of a type.
pub fn is_word(value_type: ValType, number: u64) -> bool
    ensures { IsTrue result ↔ IsWord value_type number }
{
    match value_type {
        ValType::I32 => number < 0x1_0000_0000,
        ValType::I64 => true,
    }
}

/// Whether a number is an integer of a width.
fn is_integer(width: Width, number: u64) -> bool
    ensures { IsTrue result ↔ IsWord (integer width) number }
{
    match width {
        Width::W32 => number < 0x1_0000_0000,
        Width::W64 => true,
    }
}

/// Whether a numeric instruction takes this operand alone.
pub fn takes_one(op: NumericOp, a: u64) -> bool
    ensures { IsTrue result ↔ AreWords (operand_types op) (a ∷ []) }
{
    match op {
        NumericOp::Eqz(width) | NumericOp::Unary(width, _) => is_integer(width, a),
        NumericOp::WrapI64 | NumericOp::I64Extend32S => true,
        NumericOp::ExtendI32S | NumericOp::ExtendI32U => a < 0x1_0000_0000,
        NumericOp::Relation(_, _) | NumericOp::Binary(_, _) => false,
    }
}

/// Whether a numeric instruction takes these two operands, `a` being the first.
pub fn takes_two(op: NumericOp, a: u64, b: u64) -> bool
    ensures { IsTrue result ↔ AreWords (operand_types op) (a ∷ b ∷ []) }
{
    match op {
        NumericOp::Relation(width, _) | NumericOp::Binary(width, _) => {
            is_integer(width, a) && is_integer(width, b)
        }
        NumericOp::Eqz(_)
        | NumericOp::Unary(_, _)
        | NumericOp::WrapI64
        | NumericOp::ExtendI32S
        | NumericOp::ExtendI32U
        | NumericOp::I64Extend32S => false,
    }
}
