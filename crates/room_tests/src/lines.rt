//! What a line says: what is lowered, the code of the modules' function, the options, the units of fuel, and a place in the memories.

use crate::lowering::{write_all_stored, write_lowered, write_words};
use crate::modules::{add_all, module_with};
use ca_base::Fuel;
use cases::Answers;
use copy_engine::{HostCall, LowerOptions, StoreRoom};
use laid_types::LaidType;
use std::alloc::Global;
use std::fmt::Write;
use std::test::Fail;
use table_texts::{Made, put_made};
use type_texts::{value_of, values_of};
use wasm_store::Store;
use wasm_typing::Valid;

/// What is lowered.
#[derive(Clone, Copy)]
struct Lowered<'t> {
    how: &'t str,
    type_name: &'t str,
    values: &'t str,
}

/// What a line says.
#[derive(Clone, Copy)]
struct Line<'t> {
    what: Lowered<'t>,
    code: &'t str,
    options: LowerOptions,
    units: u64,
    place: usize,
}

/// What is lowered, of a text.
fn lowered_of(text: &str) -> Result<Lowered<'_>, Fail> {
    let (_title, text) = text.split_once(" | ").ok_or("no way")?;
    let (how, text) = text.split_once(" | ").ok_or("no type")?;
    let (type_name, values) = text.split_once(" | ").ok_or("no values")?;
    Ok(Lowered {
        how,
        type_name,
        values,
    })
}

/// The options, of the address of the memory and that of the realloc, or `none`.
fn options_of(memory: &str, realloc: &str) -> Result<LowerOptions, Fail> {
    let memory = memory.parse::<usize>()?;
    let realloc = match realloc {
        "none" => None,
        _ => Some(realloc.parse::<usize>()?),
    };
    Ok(LowerOptions { memory, realloc })
}

/// What a line says up to the units, of its text.
fn front_of(text: &str, units: u64, place: usize) -> Result<Line<'_>, Fail> {
    let (text, realloc) = text.rsplit_once(" | ").ok_or("no realloc")?;
    let (text, memory) = text.rsplit_once(" | ").ok_or("no memory")?;
    let (text, code) = text.rsplit_once(" | ").ok_or("no code")?;
    let what = lowered_of(text)?;
    let options = options_of(memory, realloc)?;
    Ok(Line {
        what,
        code,
        options,
        units,
        place,
    })
}

/// What a line says, of its text.
fn line_of(text: &str) -> Result<Line<'_>, Fail> {
    let (text, place) = text.rsplit_once(" | ").ok_or("no place")?;
    let (text, units) = text.rsplit_once(" | ").ok_or("no units")?;
    let units = units.parse::<u64>()?;
    let place = place.parse::<usize>()?;
    front_of(text, units, place)
}

/// Writes what comes of lowering in a room.
fn write_room(
    alloc: Global,
    room: &mut StoreRoom<'_>,
    what: Lowered<'_>,
    t: &LaidType<'_>,
    text: &mut String,
) -> Result<(), Fail> {
    if what.how == "all at 8" {
        let values = values_of(alloc, what.values)?;
        return write_all_stored(alloc, room, &values, t, text);
    }
    let value = value_of(alloc, what.values)?;
    write_lowered(alloc, room, what.how, &value, t, text)
}

/// Writes the call of the host, where there is one.
fn write_call(call: &Option<HostCall>, text: &mut String) -> Result<(), Fail> {
    let Some(call) = call else {
        return Ok(());
    };
    let address = call.address;
    write!(text, ": {address} ")?;
    write_words(call.words.as_slice(), text)
}

/// Writes what comes of lowering over a store and its fuel, and the call of the host that is kept.
fn write_over(
    alloc: Global,
    store: &mut Store,
    fuel: &mut Fuel,
    line: Line<'_>,
    t: &LaidType<'_>,
    text: &mut String,
) -> Result<(), Fail> {
    let mut call = None;
    let mut room = StoreRoom::new(store, fuel, &mut call, line.options);
    write_room(alloc, &mut room, line.what, t, text)?;
    write_call(&call, text)
}

/// Writes what comes of lowering a value of the line's type.
fn write_typed(
    alloc: Global,
    store: &mut Store,
    fuel: &mut Fuel,
    line: Line<'_>,
    text: &mut String,
) -> Result<(), Fail> {
    let put = put_made(alloc, Made::OfWords, line.what.type_name)?;
    match put.types.get(put.number) {
        Some(t) => write_over(alloc, store, fuel, line, &t, text),
        None => Err(Fail::new("no type")),
    }
}

/// Writes the size of a memory, and four bytes at a place.
fn write_memory(store: &Store, memory: usize, place: usize, text: &mut String) -> Result<(), Fail> {
    if memory >= store.memory_count() {
        return Err(Fail::new("no memory"));
    }
    let bytes = store.memory(memory);
    let size = bytes.len();
    write!(text, " | {size}:")?;
    for byte in bytes.iter().skip(place).take(4) {
        write!(text, "{byte:02x}")?;
    }
    Ok(())
}

/// Writes the units that are left, and both memories.
fn write_store(store: &Store, fuel: &Fuel, place: usize, text: &mut String) -> Result<(), Fail> {
    let left = fuel.left();
    write!(text, " | {left}")?;
    write_memory(store, 0, place, text)?;
    write_memory(store, 1, place, text)
}

/// Writes what comes of a line in a store.
fn write_line(
    alloc: Global,
    store: &mut Store,
    valid: &Valid,
    line: Line<'_>,
    text: &mut String,
) -> Result<(), Fail> {
    add_all(alloc, store, valid)?;
    let mut fuel = Fuel::new(line.units);
    write_typed(alloc, store, &mut fuel, line, text)?;
    write_store(store, &fuel, line.place, text)
}

/// Writes what comes of a line in the module.
fn write_module(
    alloc: Global,
    valid: &Valid,
    line: Line<'_>,
    text: &mut String,
) -> Result<(), Fail> {
    let mut store = Store::new(alloc);
    write_line(alloc, &mut store, valid, line, text)
}

/// Writes what comes of a line.
fn write_told(alloc: Global, line: Line<'_>, text: &mut String) -> Result<(), Fail> {
    let valid = module_with(alloc, line.code)?;
    write_module(alloc, &valid, line, text)
}

/// Lines of what is lowered: a title, how, the type, the values, the code section of both modules, the addresses of the options' memory
/// and realloc, the units of fuel, and a place. The answer is what comes of it, with the call of the host that is kept, then the units
/// that are left, and for each of the two memories how many bytes it has and the four bytes at the place.
pub(crate) struct Reallocs;

impl Answers for Reallocs {
    fn answer(alloc: Global, given: &str) -> Result<String, Fail> {
        let line = line_of(given)?;
        let mut text = String::new(alloc);
        write_told(alloc, line, &mut text)?;
        Ok(text)
    }
}
