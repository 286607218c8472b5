//! Tables of handles and ends, of words.
//!
//! The words are the entries from index 1 on: `own:1,7` is an own handle of resource 1 with the representation 7, `borrow:1,7` a
//! borrow of it for task 3, and behind a plus stands how often one is lent; `end:4` is the idle readable end 4 of the next type of some,
//! from the second one on, `busy:4` one that is not idle, `other` an entry of another kind. Where `free` stands nothing is: such an
//! entry is removed again, and of several the last one last. In place of entries `full` stands for 65,535 of another kind, and
//! `one-left` for one less; of so many the live ones are counted, and the last one is told.

ghost use Rattle.std.specs.Prelude.{◌≤◌, ◌^◌, Some, IfOk};
ghost use Rattle.res_handles.specs.Calls.{lends_in};
ghost use Rattle.value_lift.specs.Tables.{MostLends};
ghost use Rattle.table_texts.specs.Things.{thing_view};

use crate::numbers::number;
use handle_table::Table;
use res_handles::{Entry, EntryView, Handle, Ownership, ReadableEnd};
use std::alloc::{AllocError, Global};
use std::test::Fail;
use value_lift::Moved;

/// An entry.
#[derive(Drop)]
pub enum Thing {
    /// A handle.
    Handle(Handle),
    /// A readable end, and the number of its type.
    End(usize, ReadableEnd),
    /// An entry of another kind.
    Other,
}

impl Entry for Thing {
    ghost use Rattle.std.specs.Prelude.{refl, true, Some, None};
    ghost use Rattle.res_handles.specs.Ends.{idle_end};
    ghost use Rattle.table_texts.specs.declared.things.Thing.TheVariants as thing;
    ghost use Rattle.table_texts.specs.Things.{thing_view};

    /// The number of the type.
    type EndType = usize;

    ghost view = { thing_view };

    ghost end_type = { elim [ thing.Handle _ ↦ None | thing.End t _ ↦ Some t | thing.Other ↦ None ] };

    ghost made = { λ x. thing.Handle x };

    ghost made_end = { λ t n. thing.End t (idle_end n) };

    fn view(&self) -> EntryView {
        match self {
            Thing::Handle(handle) => EntryView::Handle(*handle),
            Thing::End(_, end) => EntryView::ReadableEnd(*end),
            Thing::Other => EntryView::Other,
        }
    }

    fn is_of(&self, wanted: &usize) -> bool {
        match self {
            Thing::End(end_type, _) => *end_type == *wanted,
            Thing::Handle(_) | Thing::Other => false,
        }
    }

    fn of_handle(handle: Handle) -> Thing {
        Thing::Handle(handle)
    }

    fn of_end(wanted: &usize, number: u32) -> Result<Thing, AllocError> {
        Ok(Thing::End(
            *wanted,
            ReadableEnd {
                number,
                is_idle: true,
            },
        ))
    }

    ghost made_is_seen = { λ x. refl };

    ghost made_end_is_seen = { λ t n. refl };

    ghost made_end_has_type = { λ t n. refl };
}

/// The handle of a resource and a representation, with this ownership.
fn handle(rest: &str, ownership: Ownership) -> Result<Thing, Fail>
    ensures { IfOk result (λ t. lends_in (Some (thing_view t)) ≤ 2 ^ 63) }
{
    let (named, lends) = rest.split_once('+').unwrap_or((rest, "0"));
    let (resource, rep) = named.split_once(',').ok_or("no representation")?;
    let lends = u64::from(number(lends)?);
    Ok(Thing::Handle(Handle {
        resource: number(resource)?,
        rep: number(rep)?,
        lends,
        ownership,
    }))
}

/// The entry of a word, and the number of the type, where it is an end.
fn entry_of(word: &str, end_type: usize) -> Result<Thing, Fail>
    ensures { IfOk result (λ t. lends_in (Some (thing_view t)) ≤ 2 ^ 63) }
{
    if let Some(rest) = word.strip_prefix("own:") {
        return handle(rest, Ownership::Own);
    }
    if let Some(rest) = word.strip_prefix("borrow:") {
        return handle(rest, Ownership::Borrow(3));
    }
    if let Some(rest) = word.strip_prefix("end:") {
        let number = number(rest)?;
        let is_idle = true;
        return Ok(Thing::End(end_type, ReadableEnd { number, is_idle }));
    }
    if let Some(rest) = word.strip_prefix("busy:") {
        let number = number(rest)?;
        let is_idle = false;
        return Ok(Thing::End(end_type, ReadableEnd { number, is_idle }));
    }
    Ok(Thing::Other)
}

/// Adds an entry.
fn add_thing(table: &mut Table<Thing>, thing: Thing) -> Result<u32, Fail>
    requires entry { lends_in (Some (thing_view thing)) ≤ 2 ^ 63 }
    requires most { MostLends thing_view (2 ^ 63) table.old.slots }
    ensures { IfOk result (λ _. MostLends thing_view (2 ^ 63) table.new.slots) }
{
    match table.add(thing) {
        Ok(index) => Ok(index),
        Err(_) => Err(Fail::new("no room")),
    }
}

/// Removes an entry.
fn remove_thing(table: &mut Table<Thing>, index: u32)
    requires { MostLends thing_view (2 ^ 63) table.old.slots }
    ensures { MostLends thing_view (2 ^ 63) table.new.slots }
{
    drop(table.remove(index));
}

/// The table of words, whose ends have the types of these numbers behind the first, one after the other.
pub fn table_of(alloc: Global, words: &str, types: &[usize]) -> Result<Table<Thing>, Fail>
    ensures { IfOk result (λ t. MostLends thing_view (2 ^ 63) t.slots) }
{
    let mut table = Table::new(alloc);
    let mut ends = 1_usize;
    for word in words.split_whitespace() {
        let end_type = types.get(ends).copied().unwrap_or(0);
        add_thing(&mut table, entry_of(word, end_type)?)?;
        if word.starts_with("end:") || word.starts_with("busy:") {
            ends = ends.saturating_add(1);
        }
    }
    let mut index = 0_u32;
    for word in words.split_whitespace() {
        index = index.saturating_add(1);
        if word == "free" {
            remove_thing(&mut table, index);
        }
    }
    Ok(table)
}

/// The words of the entries of a table.
pub fn slots_of(alloc: Global, words: &str) -> Result<String, Fail> {
    match words.trim() {
        "full" => Ok("other ".repeat(alloc, 65_535)?),
        "one-left" => Ok("other ".repeat(alloc, 65_534)?),
        words => Ok(String::from_str(alloc, words)?),
    }
}

/// Writes a handle as its word.
fn write_handle(text: &mut String, handle: Handle) -> Result<(), Fail> {
    let word = match handle.ownership {
        Ownership::Own => "own",
        Ownership::Borrow(_) => "borrow",
    };
    let resource = handle.resource;
    let rep = handle.rep;
    write!(text, "{word}:{resource},{rep}")?;
    if handle.lends > 0 {
        let lends = handle.lends;
        write!(text, "+{lends}")?;
    }
    Ok(())
}

/// Writes an entry as its word.
fn write_thing(text: &mut String, thing: Option<&Thing>) -> Result<(), Fail> {
    match thing {
        Some(Thing::Handle(handle)) => write_handle(text, *handle),
        Some(Thing::End(_, end)) => {
            let number = end.number;
            let word = if end.is_idle { "end" } else { "busy" };
            write!(text, "{word}:{number}")?;
            Ok(())
        }
        Some(Thing::Other) => Ok(text.push_str("other")?),
        None => Ok(text.push_str("free")?),
    }
}

/// Writes the words of so many slots, each behind a space.
pub fn write_slots(text: &mut String, table: &Table<Thing>, count: u32) -> Result<(), Fail> {
    for place in 0..count {
        text.push(' ')?;
        write_thing(text, table.get(place + 1))?;
    }
    Ok(())
}

/// Writes the entries of a table that had so many, or how many there are and the last one.
pub fn write_table(text: &mut String, table: &Table<Thing>, count: usize) -> Result<(), Fail> {
    let count = u32::try_from(count).ok().ok_or("too many entries")?;
    let live = table.len();
    if live > 40 {
        write!(text, " {live}: ")?;
        return write_thing(text, table.get(live));
    }
    write_slots(text, table, count.max(live))
}

/// Writes what has moved, each behind a space.
pub fn write_moved(text: &mut String, moved: &[Moved]) -> Result<(), Fail> {
    for one in moved {
        match one {
            Moved::Lent(index) => write!(text, " lent:{index}")?,
            Moved::Taken(index) => write!(text, " taken:{index}")?,
        }
    }
    Ok(())
}
