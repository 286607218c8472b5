//! Operations of one integer (Core 2.0, section 4.3.2).

ghost use Rattle.std.specs.Prelude.{◌≡◌};
ghost use Rattle.std.specs.Int.{w32, w64};
ghost use Rattle.wasm_numbers.specs.Numeric.{unary, width_of};
ghost use Rattle.wasm_numbers.specs.Types.{IsWord, integer};

use syntax_trees::{UnaryOp, Width};

/// An operation of one i32.
fn i32_unary(op: UnaryOp, a: u32) -> u32
    ensures { result ≡ unary w32 op a }
{
    match op {
        UnaryOp::Clz => a.leading_zeros(),
        UnaryOp::Ctz => a.trailing_zeros(),
        UnaryOp::Popcnt => a.count_ones(),
        UnaryOp::Extend8S => i32::from(((a % 256) as u8).cast_signed()).cast_unsigned(),
        UnaryOp::Extend16S => i32::from(((a % 65_536) as u16).cast_signed()).cast_unsigned(),
    }
}

/// An operation of one i64.
fn i64_unary(op: UnaryOp, a: u64) -> u64
    ensures { result ≡ unary w64 op a }
{
    match op {
        UnaryOp::Clz => u64::from(a.leading_zeros()),
        UnaryOp::Ctz => u64::from(a.trailing_zeros()),
        UnaryOp::Popcnt => u64::from(a.count_ones()),
        UnaryOp::Extend8S => i64::from(((a % 256) as u8).cast_signed()).cast_unsigned(),
        UnaryOp::Extend16S => i64::from(((a % 65_536) as u16).cast_signed()).cast_unsigned(),
    }
}

/// What an operation makes of one integer of this width.
pub fn unary(width: Width, op: UnaryOp, a: u64) -> u64
    requires { IsWord (integer width) a }
    ensures value { result ≡ unary (width_of width) op a }
    ensures word { IsWord (integer width) result }
{
    match width {
        Width::W32 => u64::from(i32_unary(op, a as u32)),
        Width::W64 => i64_unary(op, a),
    }
}
