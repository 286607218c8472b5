//! Tables of handles.
//!
//! What is done to an empty table, then what is answered. The entries that are added are 100, 101, and so on; `put:7` adds 7.
//! `fill` adds 1 to 65535, each at the index of its number. `shuffle` adds 1,000 entries to an empty table, removes them in
//! another order, and adds 1,000 again. `greatest` tells the greatest index that was given, and `all` the indices of live entries.

ghost use Rattle.std.specs.Prelude.{◌<◌};

use crate::texts::{number_of, write_behind, write_numbers, write_value};
use cases::{Acts, Answers, Steps, acted, write_acts};
use handle_table::{AddError, Table};
use std::alloc::{AllocError, Global};
use std::test::Fail;

/// A table and the next entry.
#[derive(Drop)]
pub(crate) struct Run {
    table: Table<u32>,
    entry: u32,
}

/// Writes what came of an add.
fn write_added(text: &mut String, added: Result<u32, AddError<u32>>) -> Result<(), AllocError> {
    match added {
        Ok(index) => write_value(text, index),
        Err(AddError::Full(entry)) => write_behind(text, "full ", entry),
        Err(AddError::Memory(entry)) => write_behind(text, "memory ", entry),
    }
}

/// Writes an entry.
fn write_entry(text: &mut String, entry: Option<u32>) -> Result<(), AllocError> {
    match entry {
        Some(entry) => write_value(text, entry),
        None => text.push_str("none"),
    }
}

/// Adds an entry where room was reserved.
fn add_reserved(table: &mut Table<u32>, entry: u32) -> Result<u32, AddError<u32>> {
    match table.reserve() {
        Ok(()) => match table.add_reserved(entry) {
            Ok(index) => Ok(index),
            Err(full) => Err(AddError::Full(full.entry)),
        },
        Err(_) => Err(AddError::Memory(entry)),
    }
}

/// Adds 1 to 65535, each at the index of its number.
fn fill(table: &mut Table<u32>) -> &'static str {
    for wanted in 1..65_536u32 {
        match table.add(wanted) {
            Ok(index) => {
                if index != wanted {
                    return "another index";
                }
            }
            Err(_) => return "not added",
        }
    }
    "ok"
}

/// The index that is removed after so many others.
fn shuffled(k: u32) -> u32
    requires { k < 1000 }
{
    7 * k % 1_000 + 1
}

/// Adds an entry that is to be given this index.
fn add_at(table: &mut Table<u32>, wanted: u32) -> bool {
    match table.add(wanted) {
        Ok(index) => index == wanted,
        Err(_) => false,
    }
}

/// Adds 1,000 entries, removes them in the order `7 k mod 1000 + 1` for k from 0 to 999, and adds 1,000 again, whose indices
/// are to be those that were removed, the last one first.
fn shuffle(table: &mut Table<u32>) -> &'static str {
    for k in 0..1_000u32 {
        if !add_at(table, k + 1) {
            return "another index";
        }
    }
    for k in 0..1_000u32 {
        if table.remove(shuffled(k)) != Some(shuffled(k)) {
            return "another entry";
        }
    }
    for k in 0..1_000u32 {
        if !add_at(table, shuffled(999 - k)) {
            return "another index again";
        }
    }
    "ok"
}

/// Writes over the entry at an index.
fn write_over(table: &mut Table<u32>, index: u32) -> &'static str {
    match table.get_mut(index) {
        Some(entry) => {
            *entry = 7;
            "ok"
        }
        None => "none",
    }
}

impl Run {
    /// Adds the next entry.
    fn add(&mut self, text: &mut String, is_reserved: bool) -> Result<(), AllocError> {
        let entry = self.entry;
        self.entry = entry.wrapping_add(1);
        let added = if is_reserved {
            add_reserved(&mut self.table, entry)
        } else {
            self.table.add(entry)
        };
        write_added(text, added)
    }

    /// Does what a word says of an index, or of an entry.
    fn act_at(&mut self, text: &mut String, word: &str, index: u32) -> Result<(), AllocError> {
        match word {
            "put" => write_added(text, self.table.add(index)),
            "remove" => write_entry(text, self.table.remove(index)),
            "get" => write_entry(text, self.table.get(index).copied()),
            "write" => text.push_str(write_over(&mut self.table, index)),
            _ => text.push_str("no such word"),
        }
    }
}

impl Run {
    /// Writes the indices at which an entry is live.
    fn write_indices(&self, alloc: Global, text: &mut String) -> Result<(), AllocError> {
        let indices = self.table.indices(alloc)?;
        write_numbers(text, &indices)
    }

    /// Writes the answer to a word.
    fn write_answer(
        &mut self,
        alloc: Global,
        name: &str,
        rest: &str,
        text: &mut String,
    ) -> Result<(), AllocError> {
        match name {
            "greatest" => write_value(text, self.table.greatest()),
            "all" => self.write_indices(alloc, text),
            "next" => write_value(text, self.table.next()),
            "len" => write_value(text, self.table.len()),
            "fill" => text.push_str(fill(&mut self.table)),
            "shuffle" => text.push_str(shuffle(&mut self.table)),
            "add" => self.add(text, false),
            "reserved" => self.add(text, true),
            _ => self.act_at(text, name, number_of(rest)),
        }
    }
}

impl Acts for Run {
    fn act(
        &mut self,
        alloc: Global,
        name: &str,
        rest: &str,
        text: &mut String,
    ) -> Result<(), Fail> {
        self.write_answer(alloc, name, rest, text)?;
        Ok(())
    }
}

impl Steps for Run {
    fn step(&mut self, alloc: Global, line: &str, text: &mut String) -> Result<(), Fail> {
        write_acts(alloc, self, line, text)
    }

    fn begin(alloc: Global, _title: &str) -> Result<Run, Fail> {
        let table = Table::new(alloc);
        Ok(Run { table, entry: 100 })
    }
}

/// Empty tables.
pub(crate) struct Indices;

impl Answers for Indices {
    fn answer(alloc: Global, given: &str) -> Result<String, Fail> {
        let table = Table::new(alloc);
        acted(alloc, Run { table, entry: 100 }, given)
    }
}
