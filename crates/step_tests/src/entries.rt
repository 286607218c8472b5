//! Instances with tables of words, and the text of a table.
//!
//! The words are the entries from index 1 on: `own:1,7` is an own handle of resource 1 with the representation 7, `borrow:1,7` a borrow handle
//! of it for task 2, and behind a plus stands how often one is lent; `end:4` is the idle readable end 4 of the next type of some, `busy:4` one that
//! is not idle, `writer:4` an idle writable end, and `subtask` the subtask that task 2 is. Where `free` stands nothing is.

ghost use Rattle.std.specs.Prelude.{◌≤◌, ◌^◌, Some, IfOk};
ghost use Rattle.instances.specs.Entries.{seen_as};
ghost use Rattle.res_handles.specs.Calls.{lends_in};
ghost use Rattle.value_lift.specs.Tables.{MostLends};

use instances::{EndEntry, Instance, WorldEntry};
use res_handles::{Handle, Ownership};
use std::alloc::Global;
use std::fmt::Write;
use std::test::Fail;
use stream_ends::Side;
use table_texts::number;

/// The handle of a resource and a representation, with this ownership.
fn handle(rest: &str, ownership: Ownership) -> Result<WorldEntry, Fail>
    ensures { IfOk result (λ e. lends_in (Some (seen_as e)) ≤ 2 ^ 63) }
{
    let (named, lends) = rest.split_once('+').unwrap_or((rest, "0"));
    let (resource, rep) = named.split_once(',').ok_or("no representation")?;
    let lends = u64::from(number(lends)?);
    Ok(WorldEntry::Handle(Handle {
        resource: number(resource)?,
        rep: number(rep)?,
        lends,
        ownership,
    }))
}

/// The end of a side and a number, of the type of a number.
fn end(rest: &str, side: Side, end_type: usize, is_idle: bool) -> Result<WorldEntry, Fail>
    ensures { IfOk result (λ e. lends_in (Some (seen_as e)) ≤ 2 ^ 63) }
{
    Ok(WorldEntry::End(EndEntry {
        side,
        end_type,
        number: number(rest)?,
        is_idle,
    }))
}

/// The entry of a word, and the number of the type, where it is an end.
fn entry_of(word: &str, end_type: usize) -> Result<WorldEntry, Fail>
    ensures { IfOk result (λ e. lends_in (Some (seen_as e)) ≤ 2 ^ 63) }
{
    let (name, rest) = word.split_once(':').unwrap_or((word, ""));
    match name {
        "own" => handle(rest, Ownership::Own),
        "borrow" => handle(rest, Ownership::Borrow(2)),
        "end" => end(rest, Side::Reader, end_type, true),
        "busy" => end(rest, Side::Reader, end_type, false),
        "writer" => end(rest, Side::Writer, end_type, true),
        _ => Ok(WorldEntry::Subtask(2)),
    }
}

/// Adds an entry.
fn add_entry(instance: &mut Instance, entry: WorldEntry) -> Result<(), Fail>
    requires entry { lends_in (Some (seen_as entry)) ≤ 2 ^ 63 }
    requires most { MostLends seen_as (2 ^ 63) instance.old.slots }
    ensures { IfOk result (λ _. MostLends seen_as (2 ^ 63) instance.new.slots) }
{
    match instance.add(entry) {
        Ok(_) => Ok(()),
        Err(_) => Err(Fail::new("no room")),
    }
}

/// Removes an entry.
fn remove_entry(instance: &mut Instance, index: u32)
    requires { MostLends seen_as (2 ^ 63) instance.old.slots }
    ensures { MostLends seen_as (2 ^ 63) instance.new.slots }
{
    drop(instance.remove(index));
}

/// Makes a set, which waitables at these indices join.
fn join_all(alloc: Global, instance: &mut Instance, indices: &[u32]) -> Result<(), Fail>
    requires { MostLends seen_as (2 ^ 63) instance.old.slots }
    ensures { IfOk result (λ _. MostLends seen_as (2 ^ 63) instance.new.slots) }
{
    let Ok(set) = instance.make_set(alloc) else {
        return Err(Fail::new("no set"));
    };
    for index in indices {
        if instance.join(*index, set).is_err() {
            return Err(Fail::new("no set"));
        }
    }
    Ok(())
}

/// Adds the entries of words, whose ends have these types, one after the other.
fn add_all(instance: &mut Instance, words: &str, types: &[usize]) -> Result<(), Fail>
    requires { MostLends seen_as (2 ^ 63) instance.old.slots }
    ensures { IfOk result (λ _. MostLends seen_as (2 ^ 63) instance.new.slots) }
{
    let mut ends = 0_usize;
    for word in words.split_whitespace() {
        let end_type = types.get(ends).copied().unwrap_or(0);
        add_entry(instance, entry_of(word, end_type)?)?;
        if is_end(word) {
            ends = ends.saturating_add(1);
        }
    }
    Ok(())
}

/// Removes the entries where `free` stands.
fn remove_all(instance: &mut Instance, words: &str)
    requires { MostLends seen_as (2 ^ 63) instance.old.slots }
    ensures { MostLends seen_as (2 ^ 63) instance.new.slots }
{
    let mut index = 0_u32;
    for word in words.split_whitespace() {
        index = index.saturating_add(1);
        if word == "free" {
            remove_entry(instance, index);
        }
    }
}

/// Fills an instance with the entries of words, and lets those at these indices join a set.
fn fill(
    alloc: Global,
    instance: &mut Instance,
    words: &str,
    types: &[usize],
    joined: &[u32],
) -> Result<(), Fail>
    requires { MostLends seen_as (2 ^ 63) instance.old.slots }
    ensures { IfOk result (λ _. MostLends seen_as (2 ^ 63) instance.new.slots) }
{
    add_all(instance, words, types)?;
    remove_all(instance, words);
    if joined.is_empty() {
        Ok(())
    } else {
        join_all(alloc, instance, joined)
    }
}

/// The instance of words, whose ends have these types, one after the other, with what has joined a set.
pub(crate) fn instance_of(
    alloc: Global,
    words: &str,
    types: &[usize],
    joined: &[u32],
) -> Result<Instance, Fail>
    ensures { IfOk result (λ i. MostLends seen_as (2 ^ 63) i.slots) }
{
    let mut instance = Instance::new(alloc);
    fill(alloc, &mut instance, words, types, joined)?;
    Ok(instance)
}

/// Whether a word is one of an end.
fn is_end(word: &str) -> bool {
    word.starts_with("end:") || word.starts_with("busy:") || word.starts_with("writer:")
}

/// How many words there are.
pub(crate) fn count_of(words: &str) -> Result<u32, Fail> {
    let count = words.split_whitespace().count();
    Ok(u32::try_from(count).ok().ok_or("too many entries")?)
}

/// How many words are those of ends.
pub(crate) fn count_ends(words: &str) -> usize {
    words
        .split_whitespace()
        .filter(|word| is_end(*word))
        .count()
}

/// Writes a handle as its word.
fn write_handle(handle: Handle, text: &mut String) -> Result<(), Fail> {
    let word = match handle.ownership {
        Ownership::Own => "own",
        Ownership::Borrow(_) => "borrow",
    };
    let (resource, rep, lends) = (handle.resource, handle.rep, handle.lends);
    write!(text, " {word}:{resource},{rep}")?;
    if lends > 0 {
        write!(text, "+{lends}")?;
    }
    Ok(())
}

/// Writes an end as its word.
fn write_end(end: EndEntry, text: &mut String) -> Result<(), Fail> {
    let word = match (end.side, end.is_idle) {
        (Side::Writer, _) => "writer",
        (Side::Reader, true) => "end",
        (Side::Reader, false) => "busy",
    };
    let number = end.number;
    Ok(write!(text, " {word}:{number}")?)
}

/// Writes an entry as its word.
fn write_entry(entry: Option<WorldEntry>, text: &mut String) -> Result<(), Fail> {
    match entry {
        Some(WorldEntry::Handle(handle)) => write_handle(handle, text),
        Some(WorldEntry::End(end)) => write_end(end, text),
        Some(WorldEntry::Subtask(_)) => Ok(text.push_str(" subtask")?),
        Some(WorldEntry::Set(_)) => Ok(text.push_str(" set")?),
        None => Ok(text.push_str(" free")?),
    }
}

/// Writes the entries of so many indices, and the members of the first set.
pub(crate) fn write_instance(
    alloc: Global,
    instance: &Instance,
    name: &str,
    count: u32,
    text: &mut String,
) -> Result<(), Fail> {
    if count > 0 {
        write!(text, "; {name}")?;
    }
    for place in 0..count {
        write_entry(instance.entry(place.saturating_add(1)), text)?;
    }
    if let Some(members) = instance.members(0) {
        text.push_str("; set")?;
        for member in members.list(alloc)?.as_slice() {
            write!(text, " {member}")?;
        }
    }
    Ok(())
}
