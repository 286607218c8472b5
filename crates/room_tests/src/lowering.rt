//! What is lowered into a room, as text.

use copy_engine::{NestedTrap, StoreRoom};
use laid_types::LaidType;
use std::alloc::Global;
use std::fmt::Write;
use std::test::Fail;
use syntax_trees::Value;
use table_texts::{may_all_lower, may_lower};
use value_lower::{LowerError, LowerWhy, RoomEnd, Words};
use wasm_store::Trap;

/// The name of a trap.
fn trap_name(trap: NestedTrap) -> &'static str {
    match trap {
        NestedTrap::Core(Trap::Unreachable) => "unreachable",
        NestedTrap::Core(Trap::StackLimit) => "stack limit",
        NestedTrap::Core(_) => "another trap",
        NestedTrap::CannotLeave => "host called",
        NestedTrap::NoRealloc => "no realloc",
    }
}

/// Why nothing is lowered.
fn error_name(error: LowerError<NestedTrap>) -> &'static str {
    match error {
        LowerError::Failed(LowerWhy::Misaligned) => "misaligned",
        LowerError::Failed(LowerWhy::Bounds) => "bounds",
        LowerError::Failed(LowerWhy::TableFull) => "table full",
        LowerError::Ended(RoomEnd::Trapped(trap)) => trap_name(trap),
        LowerError::Ended(RoomEnd::NoFuel) => "no fuel",
        LowerError::Ended(RoomEnd::Memory) => "no memory",
    }
}

/// The name of what a store comes to.
fn stored_name(stored: Result<(), LowerError<NestedTrap>>) -> &'static str {
    match stored {
        Ok(()) => "stored",
        Err(error) => error_name(error),
    }
}

/// Writes a place, or why there is none.
fn write_place(placed: Result<u32, LowerError<NestedTrap>>, text: &mut String) -> Result<(), Fail> {
    match placed {
        Ok(place) => write!(text, "{place}")?,
        Err(error) => text.push_str(error_name(error))?,
    }
    Ok(())
}

/// Writes core values, with a space between them.
pub(crate) fn write_words(words: &[u64], text: &mut String) -> Result<(), Fail> {
    for (place, word) in words.iter().enumerate() {
        if place > 0 {
            text.push(' ')?;
        }
        write!(text, "{word}")?;
    }
    Ok(())
}

/// Writes core values, or why there are none.
fn write_flat(
    lowered: Result<Words, LowerError<NestedTrap>>,
    text: &mut String,
) -> Result<(), Fail> {
    match lowered {
        Ok(words) => write_words(words.as_slice(), text),
        Err(error) => Ok(text.push_str(error_name(error))?),
    }
}

/// Writes what comes of storing values one after the other from the place 8 on.
pub(crate) fn write_all_stored(
    alloc: Global,
    room: &mut StoreRoom<'_>,
    values: &[Value],
    t: &LaidType<'_>,
    text: &mut String,
) -> Result<(), Fail> {
    if !may_all_lower(values, t) {
        return Err(Fail::new("misfit"));
    }
    let stored = room.store_list(alloc, 8, values, t);
    Ok(text.push_str(stored_name(stored))?)
}

/// Writes what comes of lowering a value: flat, placed, or stored at the place 4.
pub(crate) fn write_lowered(
    alloc: Global,
    room: &mut StoreRoom<'_>,
    how: &str,
    value: &Value,
    t: &LaidType<'_>,
    text: &mut String,
) -> Result<(), Fail> {
    if !may_lower(value, t) || t.flat().len() > 16 {
        return Err(Fail::new("misfit"));
    }
    match how {
        "flat" => write_flat(room.lower_flat(alloc, value, t), text),
        "placed" => write_place(room.lower_placed(alloc, value, t), text),
        _ => Ok(text.push_str(stored_name(room.store(alloc, 4, value, t)))?),
    }
}
