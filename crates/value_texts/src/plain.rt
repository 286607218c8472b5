//! The texts of values that their types tell nothing more about.

ghost use Rattle.std.specs.Prelude.{◌≡◌, ◌++◌, OnOk};
ghost use Rattle.std.specs.Fmt.{decimal, signed_decimal};
ghost use Rattle.syntax_trees.specs.declared.value.Value.{out-Value};
ghost use Rattle.syntax_trees.specs.ValueText.{bool_text, handle_text, plain_text};

use crate::characters::{push_quoted, push_quoted_char};
use crate::pieces::{push_number, push_word};
use faults::Memory;
use std::alloc::Global;
use syntax_trees::{Handle, Value};

/// Appends a truth value.
fn push_bool(value: bool, to: &mut Vec<u8>) -> Result<(), Memory>
    ensures { OnOk result (to.new.items ≡ to.old.items ++ bool_text value) }
{
    if value {
        push_word(b"true", to)
    } else {
        push_word(b"false", to)
    }
}

/// Appends a signed number.
fn push_signed(alloc: Global, number: i64, to: &mut Vec<u8>) -> Result<(), Memory>
    ensures { OnOk result (to.new.items ≡ to.old.items ++ signed_decimal number) }
{
    let digits = number.to_string(alloc)?;
    push_word(digits.as_bytes(), to)
}

/// Appends an unsigned number.
fn push_unsigned(alloc: Global, number: u64, to: &mut Vec<u8>) -> Result<(), Memory>
    ensures { OnOk result (to.new.items ≡ to.old.items ++ decimal number) }
{
    let digits = number.to_string(alloc)?;
    push_word(digits.as_bytes(), to)
}

/// Appends the numbers of a handle's resource type and representation.
fn push_handle(alloc: Global, handle: Handle, to: &mut Vec<u8>) -> Result<(), Memory>
    ensures { OnOk result (to.new.items ≡ to.old.items ++ handle_text handle) }
{
    push_word(b"R", to)?;
    push_number(alloc, handle.resource, to)?;
    push_word(b":", to)?;
    push_number(alloc, handle.rep, to)
}

/// Appends a value that its type tells nothing more about. Of any other value it appends nothing.
pub fn push_plain(alloc: Global, value: &Value, to: &mut Vec<u8>) -> Result<(), Memory>
    ensures { OnOk result (to.new.items ≡ to.old.items ++ plain_text (out-Value value.now)) }
{
    match value {
        Value::Bool(value) => push_bool(*value, to),
        Value::S8(number) => push_signed(alloc, i64::from(*number), to),
        Value::U8(number) => push_unsigned(alloc, u64::from(*number), to),
        Value::S16(number) => push_signed(alloc, i64::from(*number), to),
        Value::U16(number) => push_unsigned(alloc, u64::from(*number), to),
        Value::S32(number) => push_signed(alloc, i64::from(*number), to),
        Value::U32(number) => push_unsigned(alloc, u64::from(*number), to),
        Value::S64(number) => push_signed(alloc, *number, to),
        Value::U64(number) => push_unsigned(alloc, *number, to),
        Value::Char(c) => push_quoted_char(*c, to),
        Value::String(text) => push_quoted(text, to),
        Value::Own(handle) => {
            push_word(b"own ", to)?;
            push_handle(alloc, *handle, to)
        }
        Value::Borrow(handle) => {
            push_word(b"borrow ", to)?;
            push_handle(alloc, *handle, to)
        }
        Value::Stream(number) => {
            push_word(b"stream S", to)?;
            push_number(alloc, *number, to)
        }
        Value::Future(number) => {
            push_word(b"future F", to)?;
            push_number(alloc, *number, to)
        }
        _ => Ok(()),
    }
}
