//! Numeric instructions as a whole, over their operands.

ghost use Rattle.std.specs.Prelude.{◌≡◌, ◌<◌, [], ◌∷◌, length, reverse, drop, IfOk, OnErr, vec_len, vec_capacity};
ghost use Rattle.wasm_numbers.specs.Numeric.{evaluated};
ghost use Rattle.wasm_numbers.specs.Stack.{applied, over_one, over_two, outcome, HasOperands, HasOne, HasTwo};
ghost use Rattle.wasm_numbers.specs.Types.{IsWord, AreWords, operand_types, result_type};

use crate::binaries::binary;
use crate::relations::relation;
use crate::trap::NumberTrap;
use crate::unaries::unary;
use syntax_trees::NumericOp;

/// How many operands a numeric instruction takes: 1 or 2.
pub fn operand_count(op: NumericOp) -> usize
    ensures { result ≡ length (operand_types op) }
{
    match op {
        NumericOp::Relation(_, _) | NumericOp::Binary(_, _) => 2,
        NumericOp::Eqz(_)
        | NumericOp::Unary(_, _)
        | NumericOp::WrapI64
        | NumericOp::ExtendI32S
        | NumericOp::ExtendI32U
        | NumericOp::I64Extend32S => 1,
    }
}

/// What a numeric instruction of one operand makes of it.
pub fn of_one(op: NumericOp, a: u64) -> u64
    requires { AreWords (operand_types op) (a ∷ []) }
    ensures value { evaluated op (a ∷ []) ≡ Some (Ok result) }
    ensures word { IsWord (result_type op) result }
{
    match op {
        NumericOp::Eqz(_) => u64::from(a == 0),
        NumericOp::Unary(width, op) => unary(width, op, a),
        NumericOp::WrapI64 => a % 0x1_0000_0000,
        NumericOp::ExtendI32S => i64::from((a as u32).cast_signed()).cast_unsigned(),
        NumericOp::ExtendI32U => a,
        NumericOp::I64Extend32S => {
            i64::from(((a % 0x1_0000_0000) as u32).cast_signed()).cast_unsigned()
        }
        NumericOp::Relation(_, _) | NumericOp::Binary(_, _) => unreachable!(),
    }
}

/// What a numeric instruction of two operands makes of them, `a` being the first.
///
/// `DivideByZero` comes exactly where a quotient or a remainder by 0 is asked, and `DivideOverflow` exactly for the signed
/// quotient of the least number by -1.
pub fn of_two(op: NumericOp, a: u64, b: u64) -> Result<u64, NumberTrap>
    requires { AreWords (operand_types op) (a ∷ b ∷ []) }
    ensures value { evaluated op (a ∷ b ∷ []) ≡ Some result }
    ensures word { IfOk result (λ value. IsWord (result_type op) value) }
{
    match op {
        NumericOp::Relation(width, op) => Ok(u64::from(relation(width, op, a, b))),
        NumericOp::Binary(width, op) => binary(width, op, a, b),
        NumericOp::Eqz(_)
        | NumericOp::Unary(_, _)
        | NumericOp::WrapI64
        | NumericOp::ExtendI32S
        | NumericOp::ExtendI32U
        | NumericOp::I64Extend32S => unreachable!(),
    }
}

/// Takes the last operand. There is room for another one.
fn pop(operands: &mut Vec<u64>) -> u64
    requires { 0 < vec_len operands.old }
    ensures taken { reverse operands.old.items ≡ result ∷ reverse operands.new.items }
    ensures room { vec_len operands.new < vec_capacity operands.new }
{
    operands.pop().unwrap()
}

/// Puts an operand on top, where there is room.
fn put(operands: &mut Vec<u64>, value: u64)
    requires { vec_len operands.old < vec_capacity operands.old }
    ensures { reverse operands.new.items ≡ value ∷ reverse operands.old.items }
{
    operands.push_reserved(value);
}

/// Makes an instruction of one operand.
fn apply_one(op: NumericOp, operands: &mut Vec<u64>)
    requires { HasOne op (reverse operands.old.items) }
    ensures { over_one op (reverse operands.old.items) ≡ Some (Ok (reverse operands.new.items)) }
{
    let a = pop(operands);
    let value = of_one(op, a);
    put(operands, value);
}

/// Makes an instruction of two operands, which may trap.
fn apply_two(op: NumericOp, operands: &mut Vec<u64>) -> Result<(), NumberTrap>
    requires { HasTwo op (reverse operands.old.items) }
    ensures value { over_two op (reverse operands.old.items) ≡ Some (outcome result (reverse operands.new.items)) }
    ensures trap { OnErr result (reverse operands.new.items ≡ drop 2 (reverse operands.old.items)) }
{
    let b = pop(operands);
    let a = pop(operands);
    match of_two(op, a, b) {
        Ok(value) => {
            put(operands, value);
            Ok(())
        }
        Err(trap) => Err(trap),
    }
}

/// Makes a numeric instruction over operands of its types, the last one at the end: its result is there in their place. It
/// takes no memory.
///
/// The traps are those of `of_two`, and then the operands are gone.
pub fn apply(op: NumericOp, operands: &mut Vec<u64>) -> Result<(), NumberTrap>
    requires { HasOperands op (reverse operands.old.items) }
    ensures value { applied op (reverse operands.old.items) ≡ Some (outcome result (reverse operands.new.items)) }
    ensures trap { OnErr result (reverse operands.new.items ≡ drop 2 (reverse operands.old.items)) }
{
    match op {
        NumericOp::Relation(_, _) | NumericOp::Binary(_, _) => return apply_two(op, operands),
        NumericOp::Eqz(_)
        | NumericOp::Unary(_, _)
        | NumericOp::WrapI64
        | NumericOp::ExtendI32S
        | NumericOp::ExtendI32U
        | NumericOp::I64Extend32S => apply_one(op, operands),
    }
    Ok(())
}
