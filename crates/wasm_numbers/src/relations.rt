//! Comparisons of two integers (Core 2.0, section 4.3.2).

ghost use Rattle.std.specs.Prelude.{◌≡◌};
ghost use Rattle.std.specs.Int.{w32, w64};
ghost use Rattle.wasm_numbers.specs.Numeric.{relation, width_of};
ghost use Rattle.wasm_numbers.specs.Types.{IsWord, integer};

use syntax_trees::{RelationOp, Width};

/// Whether a comparison of two i32 holds.
fn i32_relation(op: RelationOp, a: u32, b: u32) -> bool
    ensures { result ≡ relation w32 op a b }
{
    match op {
        RelationOp::Eq => a == b,
        RelationOp::Ne => a != b,
        RelationOp::LtS => a.cast_signed() < b.cast_signed(),
        RelationOp::LtU => a < b,
        RelationOp::GtS => a.cast_signed() > b.cast_signed(),
        RelationOp::GtU => a > b,
        RelationOp::LeS => a.cast_signed() <= b.cast_signed(),
        RelationOp::LeU => a <= b,
        RelationOp::GeS => a.cast_signed() >= b.cast_signed(),
        RelationOp::GeU => a >= b,
    }
}

/// Whether a comparison of two i64 holds.
fn i64_relation(op: RelationOp, a: u64, b: u64) -> bool
    ensures { result ≡ relation w64 op a b }
{
    match op {
        RelationOp::Eq => a == b,
        RelationOp::Ne => a != b,
        RelationOp::LtS => a.cast_signed() < b.cast_signed(),
        RelationOp::LtU => a < b,
        RelationOp::GtS => a.cast_signed() > b.cast_signed(),
        RelationOp::GtU => a > b,
        RelationOp::LeS => a.cast_signed() <= b.cast_signed(),
        RelationOp::LeU => a <= b,
        RelationOp::GeS => a.cast_signed() >= b.cast_signed(),
        RelationOp::GeU => a >= b,
    }
}

/// Whether a comparison of two integers of this width holds.
pub fn relation(width: Width, op: RelationOp, a: u64, b: u64) -> bool
    requires first { IsWord (integer width) a }
    requires second { IsWord (integer width) b }
    ensures { result ≡ relation (width_of width) op a b }
{
    match width {
        Width::W32 => i32_relation(op, a as u32, b as u32),
        Width::W64 => i64_relation(op, a, b),
    }
}
