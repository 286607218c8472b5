//! What a line says of lowering.

use crate::kinds::Lowers;
use crate::lines::room_of;
use crate::lowering::{all_stored, flattened, placed, stored};
use crate::scripted::ScriptedRoom;
use laid_types::LaidType;
use std::alloc::Global;
use std::fmt::Write;
use std::test::Fail;
use table_texts::number;
use type_texts::{value_of, values_of};

/// The bytes of a memory, in groups of four.
fn write_bytes(text: &mut String, bytes: &[u8]) -> Result<(), Fail> {
    for group in bytes.chunks(4) {
        text.push(' ')?;
        for byte in group {
            write!(text, "{byte:02X}")?;
        }
    }
    Ok(())
}

/// What comes of a lowering, what its reallocs were asked for, and the memory then.
pub(crate) fn told(alloc: Global, outcome: &str, room: &ScriptedRoom) -> Result<String, Fail> {
    let mut text = String::new(alloc);
    write!(text, "{outcome} |{} |", room.asked())?;
    write_bytes(&mut text, room.memory())?;
    Ok(text)
}

/// A value that is stored at a place.
fn store_told(
    alloc: Global,
    room: &mut ScriptedRoom,
    values: &str,
    t: &LaidType<'_>,
) -> Result<String, Fail> {
    let (words, place) = values.rsplit_once(" at ").ok_or("no place")?;
    let value = value_of(alloc, words)?;
    stored(alloc, room, number(place)?, &value, t)
}

/// Values that are stored one after the other from a place on.
fn all_told(
    alloc: Global,
    room: &mut ScriptedRoom,
    values: &str,
    t: &LaidType<'_>,
) -> Result<String, Fail> {
    let (words, place) = values.rsplit_once(" at ").ok_or("no place")?;
    let values = values_of(alloc, words)?;
    all_stored(alloc, room, number(place)?, &values, t)
}

/// A value that is lowered into core values.
fn flat_told(
    alloc: Global,
    room: &mut ScriptedRoom,
    values: &str,
    t: &LaidType<'_>,
) -> Result<String, Fail> {
    let value = value_of(alloc, values)?;
    flattened(alloc, room, &value, t)
}

/// A value that is lowered to a new place.
fn place_told(
    alloc: Global,
    room: &mut ScriptedRoom,
    values: &str,
    t: &LaidType<'_>,
) -> Result<String, Fail> {
    let value = value_of(alloc, values)?;
    placed(alloc, room, &value, t)
}

/// What comes of lowering values in a room.
fn in_room(
    alloc: Global,
    lowers: Lowers,
    room: &mut ScriptedRoom,
    values: &str,
    t: &LaidType<'_>,
) -> Result<String, Fail> {
    match lowers {
        Lowers::Store => store_told(alloc, room, values, t),
        Lowers::StoreAll => all_told(alloc, room, values, t),
        Lowers::Flatten => flat_told(alloc, room, values, t),
        Lowers::Place => place_told(alloc, room, values, t),
    }
}

/// What comes of lowering values of a line: the values, a memory, and what reallocs do.
pub(crate) fn lower_told(
    alloc: Global,
    lowers: Lowers,
    t: &LaidType<'_>,
    given: &str,
) -> Result<String, Fail> {
    let (values, room) = given.split_once('|').ok_or("no memory")?;
    let mut room = room_of(alloc, room)?;
    let outcome = in_room(alloc, lowers, &mut room, values, t)?;
    told(alloc, outcome.as_str(), &room)
}
