//! What is lowered, as text.

use crate::scripted::ScriptedRoom;
use laid_types::LaidType;
use std::alloc::Global;
use std::fmt::Write;
use std::test::Fail;
use syntax_trees::Value;
use table_texts::{may_all_lower, may_lower};
use value_lower::{
    LowerError, RoomEnd, Words, lower_flat_bare, lower_placed_bare, store_bare, store_list_bare,
};

/// The text of why a room gives no answer.
fn end_told(alloc: Global, end: RoomEnd<u32>) -> Result<String, Fail> {
    match end {
        RoomEnd::Trapped(why) => Ok(format!(in alloc; "Trapped {why}")?),
        RoomEnd::NoFuel => Ok(String::from_str(alloc, "NoFuel")?),
        RoomEnd::Memory => Ok(String::from_str(alloc, "Memory")?),
    }
}

/// The text of why nothing is lowered.
fn error_told(alloc: Global, error: LowerError<u32>) -> Result<String, Fail> {
    match error {
        LowerError::Failed(why) => Ok(format!(in alloc; "{why:?}")?),
        LowerError::Ended(end) => end_told(alloc, end),
    }
}

/// The text of a store.
pub(crate) fn store_told(
    alloc: Global,
    stored: Result<(), LowerError<u32>>,
) -> Result<String, Fail> {
    match stored {
        Ok(()) => Ok(String::from_str(alloc, "stored")?),
        Err(error) => error_told(alloc, error),
    }
}

/// The text of a place.
pub(crate) fn place_told(
    alloc: Global,
    placed: Result<u32, LowerError<u32>>,
) -> Result<String, Fail> {
    match placed {
        Ok(place) => Ok(format!(in alloc; "at {place}")?),
        Err(error) => error_told(alloc, error),
    }
}

/// The text of core values, with a space between them.
fn words_text(alloc: Global, words: &[u64]) -> Result<String, Fail> {
    let mut text = String::new(alloc);
    for word in words {
        write!(text, " {word}")?;
    }
    Ok(String::from_str(alloc, text.trim_start())?)
}

/// The text of core values, or of why there are none.
pub(crate) fn words_told(
    alloc: Global,
    lowered: Result<Words, LowerError<u32>>,
) -> Result<String, Fail> {
    match lowered {
        Ok(words) => words_text(alloc, words.as_slice()),
        Err(error) => error_told(alloc, error),
    }
}

/// What comes of storing a value at a place.
pub(crate) fn stored(
    alloc: Global,
    room: &mut ScriptedRoom,
    place: u32,
    value: &Value,
    t: &LaidType<'_>,
) -> Result<String, Fail> {
    if !may_lower(value, t) {
        return Err(Fail::new("misfit"));
    }
    store_told(alloc, store_bare(alloc, room, place, value, t))
}

/// What comes of storing values one after the other from a place on.
pub(crate) fn all_stored(
    alloc: Global,
    room: &mut ScriptedRoom,
    place: u32,
    values: &[Value],
    t: &LaidType<'_>,
) -> Result<String, Fail> {
    if !may_all_lower(values, t) {
        return Err(Fail::new("misfit"));
    }
    store_told(alloc, store_list_bare(alloc, room, place, values, t))
}

/// The core values that a value is lowered into.
pub(crate) fn flattened(
    alloc: Global,
    room: &mut ScriptedRoom,
    value: &Value,
    t: &LaidType<'_>,
) -> Result<String, Fail> {
    if !may_lower(value, t) || t.flat().len() > 16 {
        return Err(Fail::new("misfit"));
    }
    words_told(alloc, lower_flat_bare(alloc, room, value, t))
}

/// The place that a value is lowered to.
pub(crate) fn placed(
    alloc: Global,
    room: &mut ScriptedRoom,
    value: &Value,
    t: &LaidType<'_>,
) -> Result<String, Fail> {
    if !may_lower(value, t) {
        return Err(Fail::new("misfit"));
    }
    place_told(alloc, lower_placed_bare(alloc, room, value, t))
}
