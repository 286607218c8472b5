//! `drop` and `select` (Core 2.0, section 4.4.4).

ghost use Rattle.std.specs.Prelude.{◌≡◌, ◌<◌, ℕ, List, reverse, vec_len};
ghost use Rattle.wasm_store.specs.Store as machine;
ghost use Rattle.wasm_store.specs.Effects.{Leaves, dropped, selected};

use wasm_code::operands::{pop, put};

/// Takes the last operand away.
#[inline]
pub(crate) fn discard(operands: &mut Vec<u64>)
    requires { 0 < vec_len operands.old }
    ensures { (s : machine.Store) (ls : List ℕ) → dropped s ls (reverse operands.old.items) ≡ Leaves s ls (reverse operands.new.items) }
{
    let _ = pop(operands);
}

/// Puts the first of two operands in the place of both where the one behind them, the last one, is not 0, and else the second.
#[inline]
pub(crate) fn select(operands: &mut Vec<u64>)
    requires { 2 < vec_len operands.old }
    ensures { (s : machine.Store) (ls : List ℕ) → selected s ls (reverse operands.old.items) ≡ Leaves s ls (reverse operands.new.items) }
{
    let test = pop(operands);
    let second = pop(operands);
    let first = pop(operands);
    put(operands, if test == 0 { second } else { first });
}
