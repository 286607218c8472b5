//! Operations of two integers (Core 2.0, section 4.3.2).

ghost use Rattle.std.specs.Prelude.{◌≡◌, IfOk};
ghost use Rattle.std.specs.Int.{w32, w64};
ghost use Rattle.wasm_numbers.specs.Numeric.{binary, width_of};
ghost use Rattle.wasm_numbers.specs.Types.{IsWord, integer};

use crate::division::{
    i32_div_s, i32_div_u, i32_rem_s, i32_rem_u, i64_div_s, i64_div_u, i64_rem_s, i64_rem_u,
};
use crate::trap::NumberTrap;
use syntax_trees::{BinaryOp, Width};

/// An operation of two i32.
fn i32_binary(op: BinaryOp, a: u32, b: u32) -> Result<u32, NumberTrap>
    ensures { result ≡ binary w32 op a b }
{
    match op {
        BinaryOp::Add => Ok(a.wrapping_add(b)),
        BinaryOp::Sub => Ok(a.wrapping_sub(b)),
        BinaryOp::Mul => Ok(a.wrapping_mul(b)),
        BinaryOp::DivS => i32_div_s(a, b),
        BinaryOp::DivU => i32_div_u(a, b),
        BinaryOp::RemS => i32_rem_s(a, b),
        BinaryOp::RemU => i32_rem_u(a, b),
        BinaryOp::And => Ok(a & b),
        BinaryOp::Or => Ok(a | b),
        BinaryOp::Xor => Ok(a ^ b),
        BinaryOp::Shl => Ok(a.wrapping_shl(b)),
        BinaryOp::ShrS => Ok(a.cast_signed().wrapping_shr(b).cast_unsigned()),
        BinaryOp::ShrU => Ok(a.wrapping_shr(b)),
        BinaryOp::Rotl => Ok(a.rotate_left(b)),
        BinaryOp::Rotr => Ok(a.rotate_right(b)),
    }
}

/// An operation of two i64.
fn i64_binary(op: BinaryOp, a: u64, b: u64) -> Result<u64, NumberTrap>
    ensures { result ≡ binary w64 op a b }
{
    match op {
        BinaryOp::Add => Ok(a.wrapping_add(b)),
        BinaryOp::Sub => Ok(a.wrapping_sub(b)),
        BinaryOp::Mul => Ok(a.wrapping_mul(b)),
        BinaryOp::DivS => i64_div_s(a, b),
        BinaryOp::DivU => i64_div_u(a, b),
        BinaryOp::RemS => i64_rem_s(a, b),
        BinaryOp::RemU => i64_rem_u(a, b),
        BinaryOp::And => Ok(a & b),
        BinaryOp::Or => Ok(a | b),
        BinaryOp::Xor => Ok(a ^ b),
        BinaryOp::Shl => Ok(a.wrapping_shl((b % 64) as u32)),
        BinaryOp::ShrS => Ok(
            a.cast_signed()
                .wrapping_shr((b % 64) as u32)
                .cast_unsigned(),
        ),
        BinaryOp::ShrU => Ok(a.wrapping_shr((b % 64) as u32)),
        BinaryOp::Rotl => Ok(a.rotate_left((b % 64) as u32)),
        BinaryOp::Rotr => Ok(a.rotate_right((b % 64) as u32)),
    }
}

/// What an operation makes of two integers of this width, `a` being the first operand.
///
/// `DivideByZero` comes exactly where a quotient or a remainder by 0 is asked, and `DivideOverflow` exactly for the signed
/// quotient of the least number by -1.
pub fn binary(width: Width, op: BinaryOp, a: u64, b: u64) -> Result<u64, NumberTrap>
    requires first { IsWord (integer width) a }
    requires second { IsWord (integer width) b }
    ensures value { result ≡ binary (width_of width) op a b }
    ensures word { IfOk result (λ value. IsWord (integer width) value) }
{
    match width {
        Width::W32 => match i32_binary(op, a as u32, b as u32) {
            Ok(value) => Ok(u64::from(value)),
            Err(trap) => Err(trap),
        },
        Width::W64 => i64_binary(op, a, b),
    }
}
