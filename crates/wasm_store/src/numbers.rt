//! Constants, and numeric instructions (Core 2.0, section 4.4.1).

ghost use Rattle.std.specs.Prelude.{◌≡◌, ◌∷◌, ℕ, List, reverse, IfOk};
ghost use Rattle.std.specs.Int.{w32, w64};
ghost use Rattle.wasm_numbers.specs.Stack.{applied, HasOperands};
ghost use Rattle.wasm_store.specs.Store as machine;
ghost use Rattle.wasm_store.specs.Effects.{word_of, trap_of, by_number};
ghost use Rattle.wasm_store.specs.Fits.{Gives};

use crate::trap::Trap;
use faults::Memory;
use syntax_trees::NumericOp;
use wasm_code::operands::push;
use wasm_numbers::{NumberTrap, apply};

/// Puts a constant on top.
///
/// `Memory` comes where memory runs out.
#[inline]
pub(crate) fn i32_const(value: i32, operands: &mut Vec<u64>) -> Result<(), Memory>
    ensures { IfOk result (λ _. reverse operands.new.items ≡ word_of w32 value ∷ reverse operands.old.items) }
{
    push(operands, u64::from(value.cast_unsigned()))
}

/// Puts a constant on top.
///
/// `Memory` comes where memory runs out.
#[inline]
pub(crate) fn i64_const(value: i64, operands: &mut Vec<u64>) -> Result<(), Memory>
    ensures { IfOk result (λ _. reverse operands.new.items ≡ word_of w64 value ∷ reverse operands.old.items) }
{
    push(operands, value.cast_unsigned())
}

/// The trap of a numeric instruction.
#[inline]
fn number_trap(trap: NumberTrap) -> Trap
    ensures { result ≡ trap_of trap }
{
    match trap {
        NumberTrap::DivideByZero => Trap::DivideByZero,
        NumberTrap::DivideOverflow => Trap::DivideOverflow,
    }
}

/// Makes a numeric instruction over operands of its types. The answer is its trap, where it traps.
#[inline]
pub(crate) fn numeric(op: NumericOp, operands: &mut Vec<u64>) -> Option<Trap>
    requires { HasOperands op (reverse operands.old.items) }
    ensures { (s : machine.Store) (ls : List ℕ) → Gives s (by_number (applied op (reverse operands.old.items)) s ls) result s ls (reverse operands.new.items) }
{
    match apply(op, operands) {
        Ok(()) => None,
        Err(trap) => Some(number_trap(trap)),
    }
}
