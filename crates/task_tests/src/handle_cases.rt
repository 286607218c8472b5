//! Handles and readable ends in a table whose other entries are numbers.
//!
//! What is done to an empty table, then what is answered. The words have numbers with commas between them: `own:1,70` lowers an own
//! handle of resource 1 with the representation 70, `borrow:1,80` a borrow of it for task 9 into an instance that defines resources 2
//! and 3, `home:1,77` into one that defines 3 and 1, `end:50,6` the end 6 of type 50; `busy:50,8` puts an end that is not idle and
//! `number:5` a number. `take:1,1` lifts an own handle, `lend:1,1` a borrow, `leave:3,50` an end; `back:1` ends a loan, `lends:1` tells
//! the loans, and `rep:1,1` and `drop:1,1` are what they say. `fill` lowers own handles of resource 1 with the representations 1 to
//! 65535, each at the index of its number.

use crate::texts::{number_of, numbers_of, write_behind, write_value};
use cases::{Acts, Answers, acted};
use handle_table::Table;
use res_handles::{
    Entry, EntryView, Handle, Home, LowerError, Ownership, ReadableEnd, Refusal, drop_handle,
    end_lend, lift_borrow, lift_end, lift_own, lower_borrow, lower_end, lower_own, rep,
};
use std::alloc::{AllocError, Global};
use std::test::Fail;

/// An entry.
#[derive(Drop)]
pub(crate) enum Thing {
    /// A handle.
    Handle(Handle),
    /// A readable end: the number of its type, its own number, and whether it is idle.
    End(u32, u32, bool),
    /// A number.
    Number(u32),
}

impl Entry for Thing {
    ghost use Rattle.std.specs.Prelude.{refl, true, Some, None};
    ghost use Rattle.res_handles.specs.declared.entry.EntryView.TheVariants as seen;
    ghost use Rattle.task_tests.specs.declared.handle_cases.Thing.TheVariants as thing;

    /// The number of the type.
    type EndType = u32;

    ghost view = { elim [ thing.Handle x ↦ seen.Handle x | thing.End _ n idle ↦ seen.ReadableEnd (record { number = n; is_idle = idle }) | thing.Number _ ↦ seen.Other ] };

    ghost end_type = { elim [ thing.Handle _ ↦ None | thing.End t _ _ ↦ Some t | thing.Number _ ↦ None ] };

    ghost made = { λ x. thing.Handle x };

    ghost made_end = { λ t n. thing.End t n true };

    fn view(&self) -> EntryView {
        match self {
            Thing::Handle(handle) => EntryView::Handle(*handle),
            Thing::End(_, number, is_idle) => EntryView::ReadableEnd(ReadableEnd {
                number: *number,
                is_idle: *is_idle,
            }),
            Thing::Number(_) => EntryView::Other,
        }
    }

    fn is_of(&self, wanted: &u32) -> bool {
        match self {
            Thing::End(end_type, _, _) => *end_type == *wanted,
            Thing::Handle(_) | Thing::Number(_) => false,
        }
    }

    fn of_handle(handle: Handle) -> Thing {
        Thing::Handle(handle)
    }

    fn of_end(wanted: &u32, number: u32) -> Result<Thing, AllocError> {
        Ok(Thing::End(*wanted, number, true))
    }

    ghost made_is_seen = { λ x. refl };

    ghost made_end_is_seen = { λ t n. refl };

    ghost made_end_has_type = { λ t n. refl };
}

/// A table.
#[derive(Drop)]
pub(crate) struct Things {
    table: Table<Thing>,
}

/// The handle at an index.
fn handle_at(table: &Table<Thing>, index: u32) -> Option<Handle> {
    match table.get(index) {
        Some(Thing::Handle(handle)) => Some(*handle),
        _ => None,
    }
}

/// Lifts a borrow, unless the lends are at their greatest.
fn lend(table: &mut Table<Thing>, index: u32, resource: u32) -> Result<u32, Refusal> {
    if let Some(Thing::Handle(handle)) = table.get(index) {
        if handle.lends == u64::MAX {
            return Err(Refusal::Lent);
        }
    }
    lift_borrow(table, index, resource)
}

/// Ends a loan, where there is one.
fn give_back(table: &mut Table<Thing>, index: u32) -> &'static str {
    if let Some(Thing::Handle(handle)) = table.get(index) {
        if handle.lends > 0 {
            end_lend(table, index);
            return "ok";
        }
    }
    "none"
}

/// Lowers a borrow for task 9 into an instance that defines these resources.
fn lower_into(
    table: &mut Table<Thing>,
    resource: u32,
    rep: u32,
    resources: &[u32],
) -> Result<u32, LowerError> {
    let home = Home { task: 9, resources };
    lower_borrow(table, resource, rep, &home)
}

/// The name of a refusal.
fn name_of(refusal: Refusal) -> &'static str {
    match refusal {
        Refusal::Absent => "Absent",
        Refusal::OtherKind => "OtherKind",
        Refusal::OtherType => "OtherType",
        Refusal::NotOwn => "NotOwn",
        Refusal::Lent => "Lent",
        Refusal::NotIdle => "NotIdle",
    }
}

/// Writes what was lifted, or why nothing was.
fn write_lifted(text: &mut String, lifted: Result<u32, Refusal>) -> Result<(), AllocError> {
    match lifted {
        Ok(number) => write_value(text, number),
        Err(refusal) => text.push_str(name_of(refusal)),
    }
}

/// Writes the handle that was dropped, or why none was.
fn write_dropped(text: &mut String, dropped: Result<Handle, Refusal>) -> Result<(), AllocError> {
    match dropped {
        Ok(handle) => match handle.ownership {
            Ownership::Own => write_behind(text, "own ", handle.rep),
            Ownership::Borrow(task) => {
                write_behind(text, "borrow ", handle.rep)?;
                write_behind(text, " of ", task)
            }
        },
        Err(refusal) => text.push_str(name_of(refusal)),
    }
}

/// Writes the index at which something was lowered.
fn write_lowered(text: &mut String, lowered: Result<u32, LowerError>) -> Result<(), AllocError> {
    match lowered {
        Ok(index) => write_value(text, index),
        Err(LowerError::TableFull) => text.push_str("TableFull"),
        Err(LowerError::Memory) => text.push_str("memory"),
    }
}

/// Adds an entry that is no handle.
fn write_added(
    text: &mut String,
    table: &mut Table<Thing>,
    entry: Thing,
) -> Result<(), AllocError> {
    match table.add(entry) {
        Ok(index) => write_value(text, index),
        Err(_) => text.push_str("not added"),
    }
}

/// Lowers own handles of resource 1 with the representations 1 to 65535, each at the index of its number.
fn fill(table: &mut Table<Thing>) -> &'static str {
    for wanted in 1..65_536u32 {
        match lower_own(table, 1, wanted) {
            Ok(index) => {
                if index != wanted {
                    return "another index";
                }
            }
            Err(_) => return "not lowered",
        }
    }
    "ok"
}

impl Things {
    /// Does what a word says of one number.
    fn act_at(&mut self, text: &mut String, word: &str, index: u32) -> Result<(), AllocError> {
        match word {
            "back" => text.push_str(give_back(&mut self.table, index)),
            "lends" => match handle_at(&self.table, index) {
                Some(handle) => write_value(text, handle.lends),
                None => text.push_str("none"),
            },
            "number" => write_added(text, &mut self.table, Thing::Number(index)),
            "len" => write_value(text, self.table.len()),
            "fill" => text.push_str(fill(&mut self.table)),
            _ => text.push_str("no such word"),
        }
    }

    /// Puts what a word says of two numbers into the table.
    fn put(
        &mut self,
        text: &mut String,
        word: &str,
        of: u32,
        number: u32,
    ) -> Result<(), AllocError> {
        match word {
            "own" => write_lowered(text, lower_own(&mut self.table, of, number)),
            "borrow" => write_lowered(text, lower_into(&mut self.table, of, number, &[2, 3])),
            "home" => write_lowered(text, lower_into(&mut self.table, of, number, &[3, 1])),
            "end" => write_lowered(text, lower_end(&mut self.table, &of, number)),
            "busy" => write_added(text, &mut self.table, Thing::End(of, number, false)),
            _ => self.act_at(text, word, of),
        }
    }

    /// Does what a word says of the entry at an index, of a resource or a type.
    fn act_of(
        &mut self,
        text: &mut String,
        word: &str,
        index: u32,
        of: u32,
    ) -> Result<(), AllocError> {
        match word {
            "take" => write_lifted(text, lift_own(&mut self.table, index, of)),
            "lend" => write_lifted(text, lend(&mut self.table, index, of)),
            "leave" => write_lifted(text, lift_end(&mut self.table, index, &of)),
            "rep" => write_lifted(text, rep(&self.table, index, of)),
            "drop" => write_dropped(text, drop_handle(&mut self.table, index, of)),
            _ => self.put(text, word, index, of),
        }
    }
}

impl Acts for Things {
    fn act(
        &mut self,
        alloc: Global,
        name: &str,
        rest: &str,
        text: &mut String,
    ) -> Result<(), Fail> {
        let numbers = numbers_of(alloc, rest)?;
        let first = numbers.first().copied().unwrap_or(number_of(rest));
        let second = numbers.get(1).copied().unwrap_or(0);
        self.act_of(text, name, first, second)?;
        Ok(())
    }
}

/// Empty tables.
pub(crate) struct Handles;

impl Answers for Handles {
    fn answer(alloc: Global, given: &str) -> Result<String, Fail> {
        let table = Table::new(alloc);
        acted(alloc, Things { table }, given)
    }
}
