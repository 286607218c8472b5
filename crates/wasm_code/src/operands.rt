//! Operands of an instruction, the last one at the end.

ghost use Rattle.std.specs.Prelude.{◌≡◌, ◌<◌, ◌∷◌, reverse, IfOk, vec_len, vec_capacity};

use faults::Memory;

/// Takes the last operand. There is room for another one.
#[inline]
pub fn pop(operands: &mut Vec<u64>) -> u64
    requires { 0 < vec_len operands.old }
    ensures taken { reverse operands.old.items ≡ result ∷ reverse operands.new.items }
    ensures room { vec_len operands.new < vec_capacity operands.new }
{
    operands.pop().unwrap()
}

/// Puts an operand on top, where there is room.
#[inline]
pub fn put(operands: &mut Vec<u64>, value: u64)
    requires { vec_len operands.old < vec_capacity operands.old }
    ensures { reverse operands.new.items ≡ value ∷ reverse operands.old.items }
{
    operands.push_reserved(value);
}

/// Puts an operand on top.
///
/// `Memory` comes where memory runs out.
#[inline]
pub fn push(operands: &mut Vec<u64>, value: u64) -> Result<(), Memory>
    ensures { IfOk result (λ _. reverse operands.new.items ≡ value ∷ reverse operands.old.items) }
{
    operands.push(value)?;
    Ok(())
}
