//! What is lowered with a table of handles, as text: what comes of it, what its reallocs were asked for, the memory then, and the
//! entries of the table.
//!
//! A line has a type, the entries of a table as `table_texts` reads them, the resources that the instance defines, values, the bytes of
//! a memory, and what reallocs do; the types of ends stand behind the type, with a plus before each. Borrows count for task 3.

use crate::kinds::Lowers;
use crate::lines::room_of;
use crate::lowering::{place_told, store_told, words_told};
use crate::scripted::ScriptedRoom;
use crate::storing::told;
use handle_table::Table;
use laid_types::{LaidTypes, NumberedType};
use res_handles::Home;
use std::alloc::Global;
use std::test::Fail;
use table_texts::{
    Thing, are_all_of, is_of, number, put_all, slots_of, table_of, types_told, write_table,
};
use type_texts::{value_of, values_of};
use value_lower::{lower_flat, lower_placed, store, store_list};

/// What comes of storing a value at a place.
fn stored(
    alloc: Global,
    room: &mut ScriptedRoom,
    table: &mut Table<Thing>,
    home: &Home<'_>,
    values: &str,
    t: &NumberedType<'_>,
) -> Result<String, Fail> {
    let (words, place) = values.rsplit_once(" at ").ok_or("no place")?;
    let value = value_of(alloc, words)?;
    let place = number(place)?;
    if !is_of(&value, t) {
        return Err(Fail::new("misfit"));
    }
    store_told(alloc, store(alloc, room, table, home, place, &value, t))
}

/// What comes of storing values one after the other from a place on.
fn all_stored(
    alloc: Global,
    room: &mut ScriptedRoom,
    table: &mut Table<Thing>,
    home: &Home<'_>,
    values: &str,
    t: &NumberedType<'_>,
) -> Result<String, Fail> {
    let (words, place) = values.rsplit_once(" at ").ok_or("no place")?;
    let all = values_of(alloc, words)?;
    let place = number(place)?;
    if !are_all_of(&all, t) {
        return Err(Fail::new("misfit"));
    }
    store_told(alloc, store_list(alloc, room, table, home, place, &all, t))
}

/// The core values that a value is lowered into.
fn flattened(
    alloc: Global,
    room: &mut ScriptedRoom,
    table: &mut Table<Thing>,
    home: &Home<'_>,
    values: &str,
    t: &NumberedType<'_>,
) -> Result<String, Fail> {
    let value = value_of(alloc, values)?;
    let laid = t.laid();
    if !is_of(&value, t) || laid.flat().len() > 16 {
        return Err(Fail::new("misfit"));
    }
    words_told(alloc, lower_flat(alloc, room, table, home, &value, t))
}

/// The place that a value is lowered to.
fn placed(
    alloc: Global,
    room: &mut ScriptedRoom,
    table: &mut Table<Thing>,
    home: &Home<'_>,
    values: &str,
    t: &NumberedType<'_>,
) -> Result<String, Fail> {
    let value = value_of(alloc, values)?;
    if !is_of(&value, t) {
        return Err(Fail::new("misfit"));
    }
    place_told(alloc, lower_placed(alloc, room, table, home, &value, t))
}

/// What comes of lowering values with a table.
fn entered(
    alloc: Global,
    lowers: Lowers,
    room: &mut ScriptedRoom,
    table: &mut Table<Thing>,
    home: &Home<'_>,
    values: &str,
    t: &NumberedType<'_>,
) -> Result<String, Fail> {
    match lowers {
        Lowers::Store => stored(alloc, room, table, home, values, t),
        Lowers::StoreAll => all_stored(alloc, room, table, home, values, t),
        Lowers::Flatten => flattened(alloc, room, table, home, values, t),
        Lowers::Place => placed(alloc, room, table, home, values, t),
    }
}

/// What a line has.
#[derive(Clone, Copy)]
struct Given<'a> {
    types: &'a str,
    slots: &'a str,
    resources: &'a str,
    values: &'a str,
    room: &'a str,
}

/// The parts of a line.
fn given_of(line: &str) -> Result<Given<'_>, Fail> {
    let (types, line) = line.split_once('|').ok_or("no entries")?;
    let (slots, line) = line.split_once('|').ok_or("no resources")?;
    let (resources, line) = line.split_once('|').ok_or("no values")?;
    let (values, room) = line.split_once('|').ok_or("no memory")?;
    Ok(Given {
        types,
        slots,
        resources,
        values,
        room,
    })
}

/// The numbers of the resources that the instance defines.
fn resources_of(alloc: Global, words: &str) -> Result<Vec<u32>, Fail> {
    let mut resources = Vec::new(alloc);
    for word in words.split_whitespace() {
        resources.push(number(word)?)?;
    }
    Ok(resources)
}

/// What is told of values of a type that are lowered with a table that had so many entries.
fn table_told(
    alloc: Global,
    lowers: Lowers,
    table: &mut Table<Thing>,
    t: &NumberedType<'_>,
    given: Given<'_>,
    count: usize,
) -> Result<String, Fail> {
    let resources = resources_of(alloc, given.resources)?;
    let home = Home {
        task: 3,
        resources: &resources,
    };
    let mut room = room_of(alloc, given.room)?;
    let outcome = entered(alloc, lowers, &mut room, table, &home, given.values, t)?;
    let mut text = told(alloc, outcome.as_str(), &room)?;
    text.push_str(" ;")?;
    write_table(&mut text, table, count)?;
    Ok(text)
}

/// What is told of values of the first of some types.
fn typed_told(
    alloc: Global,
    lowers: Lowers,
    types: &LaidTypes,
    numbers: &[usize],
    given: Given<'_>,
) -> Result<String, Fail> {
    let number = numbers.first().copied().ok_or("no type")?;
    let slots = slots_of(alloc, given.slots)?;
    let count = slots.split_whitespace().count();
    let mut table = table_of(alloc, slots.as_str(), numbers)?;
    match types.numbered(number) {
        Some(t) => table_told(alloc, lowers, &mut table, &t, given, count),
        None => Err(Fail::new("no type")),
    }
}

/// What is told of a line.
pub(crate) fn entered_told(alloc: Global, lowers: Lowers, line: &str) -> Result<String, Fail> {
    let given = given_of(line)?;
    let val_types = types_told(alloc, given.types)?;
    let (types, numbers) = put_all(alloc, &val_types)?;
    typed_told(alloc, lowers, &types, &numbers, given)
}
