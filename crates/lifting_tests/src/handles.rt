//! What is lifted with a table of handles, as text: what is lifted or why nothing is, the entries of the table then, and what moved.
//!
//! A line has a type, the entries of a table as `table_texts` reads them, bytes of a memory, and what is lifted of them; the types of ends stand behind
//! the type, with a plus before each.

ghost use Rattle.std.specs.Prelude.{◌≡◌, ◌≤◌, ◌^◌, length, true};
ghost use Rattle.laid_types.specs.SameTypes.{AreDistinct};
ghost use Rattle.value_lift.specs.Tables.{MostLends};
ghost use Rattle.table_texts.specs.Things.{thing_view};

use crate::kinds::Lifts;
use crate::lifting::{is_for, value_or_error, values_or_error};
use crate::loading::core_values;
use cases::bytes_of;
use handle_table::Table;
use laid_types::{LaidTypes, NumberedType};
use std::alloc::Global;
use std::test::Fail;
use syntax_trees::Seq;
use table_texts::{Thing, number, put_all, table_of, types_told, write_moved, write_slots};
use value_lift::{LiftOf, Moved, lift_flat, load, load_list};

/// What is loaded from a place.
fn loaded(
    alloc: Global,
    t: &NumberedType<'_>,
    table: &mut Table<Thing>,
    memory: &[u8],
    rest: &str,
    moved: &mut Seq<Moved>,
) -> Result<String, Fail>
    requires distinct { AreDistinct t.now.types }
    requires most { MostLends thing_view (2 ^ 63) table.old.slots }
{
    let place = number(rest)?;
    let lifted = load(alloc, memory, table, place, t, LiftOf::Value, moved);
    value_or_error(alloc, lifted, t.laid().val_type())
}

/// The elements of a list, so many of which are loaded from a place.
fn elements_loaded(
    alloc: Global,
    t: &NumberedType<'_>,
    table: &mut Table<Thing>,
    memory: &[u8],
    rest: &str,
    moved: &mut Seq<Moved>,
) -> Result<String, Fail>
    requires distinct { AreDistinct t.now.types }
    requires most { MostLends thing_view (2 ^ 63) table.old.slots }
{
    let (place, count) = rest.trim().split_once(' ').ok_or("no count")?;
    let Some(element) = t.part(0) else {
        return Err(Fail::new("no list"));
    };
    let place = number(place)?;
    let count = number(count)?;
    let lifted = load_list(alloc, memory, table, place, count, &element, moved);
    values_or_error(alloc, lifted, t.laid().val_type())
}

/// What core values stand for.
fn lifted(
    alloc: Global,
    t: &NumberedType<'_>,
    table: &mut Table<Thing>,
    memory: &[u8],
    rest: &str,
    moved: &mut Seq<Moved>,
    what: LiftOf,
) -> Result<String, Fail>
    requires distinct { AreDistinct t.now.types }
    requires most { MostLends thing_view (2 ^ 63) table.old.slots }
{
    let words = core_values(alloc, rest)?;
    let laid = t.laid();
    if !is_for(what, laid.val_type()) || words.len() > 16 || words.len() != laid.flat().len() {
        return Err(Fail::new("words"));
    }
    let lifted = lift_flat(alloc, memory, table, t, &words, what, moved);
    value_or_error(alloc, lifted, laid.val_type())
}

/// What is lifted with a table.
fn with_table(
    alloc: Global,
    lifts: Lifts,
    t: &NumberedType<'_>,
    table: &mut Table<Thing>,
    memory: &[u8],
    rest: &str,
    moved: &mut Seq<Moved>,
) -> Result<String, Fail>
    requires distinct { AreDistinct t.now.types }
    requires most { MostLends thing_view (2 ^ 63) table.old.slots }
{
    match lifts {
        Lifts::Load => loaded(alloc, t, table, memory, rest, moved),
        Lifts::LoadElements => elements_loaded(alloc, t, table, memory, rest, moved),
        Lifts::Lift => lifted(alloc, t, table, memory, rest, moved, LiftOf::Value),
        Lifts::LiftArguments => lifted(alloc, t, table, memory, rest, moved, LiftOf::Arguments),
        Lifts::LoadArguments | Lifts::LoadInteger => Err(Fail::new("no table")),
    }
}

/// What a line has.
#[derive(Clone, Copy)]
struct Given<'a> {
    types: &'a str,
    slots: &'a str,
    memory: &'a str,
    rest: &'a str,
}

/// The parts of a line.
fn given_of(line: &str) -> Result<Given<'_>, Fail> {
    let (types, line) = line.split_once('|').ok_or("no entries")?;
    let (slots, line) = line.split_once('|').ok_or("no memory")?;
    let (memory, rest) = line.split_once('|').ok_or("nothing to lift")?;
    Ok(Given {
        types,
        slots,
        memory,
        rest,
    })
}

/// What is told of what is lifted with a table.
fn table_told(
    alloc: Global,
    lifts: Lifts,
    t: &NumberedType<'_>,
    table: &mut Table<Thing>,
    given: Given<'_>,
) -> Result<String, Fail>
    requires distinct { AreDistinct t.now.types }
    requires most { MostLends thing_view (2 ^ 63) table.old.slots }
{
    let memory = bytes_of(alloc, given.memory)?;
    let mut moved = Seq::new(alloc);
    let mut text = with_table(alloc, lifts, t, table, &memory, given.rest, &mut moved)?;
    text.push_str(" ;")?;
    let count = u32::try_from(given.slots.split_whitespace().count());
    write_slots(&mut text, table, count.ok().ok_or("too many entries")?)?;
    text.push_str(" ;")?;
    write_moved(&mut text, moved.as_slice())?;
    Ok(text)
}

/// What is told of the first of some types.
fn typed_told(
    alloc: Global,
    lifts: Lifts,
    types: &LaidTypes,
    numbers: &[usize],
    given: Given<'_>,
) -> Result<String, Fail>
    requires distinct { AreDistinct types.now }
{
    let number = numbers.first().copied().ok_or("no type")?;
    let mut table = table_of(alloc, given.slots, numbers)?;
    match types.numbered(number) {
        Some(t) => table_told(alloc, lifts, &t, &mut table, given),
        None => Err(Fail::new("no type")),
    }
}

/// What is told of a line.
pub(crate) fn handles_told(alloc: Global, lifts: Lifts, line: &str) -> Result<String, Fail> {
    let given = given_of(line)?;
    let val_types = types_told(alloc, given.types)?;
    let (types, numbers) = put_all(alloc, &val_types)?;
    typed_told(alloc, lifts, &types, &numbers, given)
}
