//! Values without parts.

ghost use Rattle.std.specs.Prelude.{◌≡◌, ◌+◌, ◌≤◌, length, IfOk, Ok, Err};
ghost use Rattle.std.specs.Int.{w8};
ghost use Rattle.syntax_trees.specs.declared.types.ValType.{out-ValType};
ghost use Rattle.laid_types.specs.Layout.{laid};
ghost use Rattle.value_lift.specs.Bytes.{number};
ghost use Rattle.value_lift.specs.Pieces.{plain_of, char_of, flags_of};

use crate::bytes::{number8, number16, number32, number64};
use crate::trap::{LiftTrap, LiftWhy};
use faults::Memory;
use std::alloc::Global;
use syntax_trees::{Handle, Name, Seq, ValType, Value};

/// The character with this number.
#[tactic(auto, using(crate::proofs::Places::is_a_scalar, crate::proofs::Places::is_no_scalar))]
pub(crate) fn char_of(number: u32, place: u64) -> Result<Value, LiftTrap>
    ensures { result ≡ char_of number place }
{
    match char::from_u32(number) {
        Some(c) => Ok(Value::Char(c)),
        None => Err(LiftTrap::at(LiftWhy::BadChar, place)),
    }
}

/// The flags whose bits a number has, one for each of these labels. Bits above are ignored.
pub(crate) fn flags_of(alloc: Global, labels: &[Name], number: u32) -> Result<Value, Memory>
    ensures { IfOk result (λ v. v ≡ flags_of labels.now number) }
{
    let mut flags = Seq::new(alloc);
    let mut bits = number;
    for _label in labels {
        flags.push(bits % 2 == 1)?;
        bits /= 2;
    }
    Ok(Value::Flags(flags))
}

/// The value of a type without parts at a place. Of any other type none stands there.
pub(crate) fn plain_at(memory: &[u8], place: usize, val_type: &ValType) -> Result<Value, LiftTrap>
    requires { place + (laid val_type.now).size ≤ length memory.now }
    ensures { result ≡ plain_of (out-ValType val_type.now) w8 (λ w. number w place memory.now) place }
{
    match val_type {
        ValType::Bool => Ok(Value::Bool(number8(memory, place) != 0)),
        ValType::S8 => Ok(Value::S8(number8(memory, place).cast_signed())),
        ValType::U8 => Ok(Value::U8(number8(memory, place))),
        ValType::S16 => Ok(Value::S16(number16(memory, place).cast_signed())),
        ValType::U16 => Ok(Value::U16(number16(memory, place))),
        ValType::S32 => Ok(Value::S32(number32(memory, place).cast_signed())),
        ValType::U32 => Ok(Value::U32(number32(memory, place))),
        ValType::S64 => Ok(Value::S64(number64(memory, place).cast_signed())),
        ValType::U64 => Ok(Value::U64(number64(memory, place))),
        ValType::Char => char_of(number32(memory, place), place as u64),
        ValType::Own(resource) => Ok(Value::Own(Handle {
            resource: *resource,
            rep: number32(memory, place),
        })),
        ValType::Borrow(resource) => Ok(Value::Borrow(Handle {
            resource: *resource,
            rep: number32(memory, place),
        })),
        ValType::Stream(_) => Ok(Value::Stream(number32(memory, place))),
        ValType::Future(_) => Ok(Value::Future(number32(memory, place))),
        _ => Err(LiftTrap::at(LiftWhy::BadCase, place as u64)),
    }
}
