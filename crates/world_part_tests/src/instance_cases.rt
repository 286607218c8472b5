//! Entries of an instance, and what stands at an index.
//!
//! `sub:7` adds the subtask that task 7 is, `mk` makes a set and adds it, `r:50,6` and `w:50,6` add the readable and the writable end
//! of the stream or the future 6 of type 50. `at:1` tells what stands at an index; `s:1`, `t:1` and `m:1` what is found there where a
//! subtask, a set or a waitable is wanted; `er:1,50` and `ew:1,50` where the readable or the writable end of type 50 is. `rm:1` removes, `busy:1` and `idle:1` say of an end whether it is idle, `all` lists the
//! indices, `out` takes the table out and tells its length, and `swap` takes it out and puts it back. `fill` adds subtasks until no
//! more is added, and tells how many.

use crate::words::{number, pair, refused, write_list, write_number, yes_or_no};
use cases::{Acts, Answers, acted};
use instances::{EndEntry, Instance, WorldEntry};
use res_handles::{Handle, LowerError, Ownership, Refusal};
use std::alloc::{AllocError, Global};
use std::fmt::Write;
use std::test::Fail;
use stream_ends::Side;

/// An end of a type and a number, which is idle.
fn end(side: Side, of: &str) -> WorldEntry {
    let (end_type, number) = pair(of);
    WorldEntry::End(EndEntry {
        side,
        end_type: end_type as usize,
        number,
        is_idle: true,
    })
}

/// Writes the index at which something was added.
pub(crate) fn write_added(
    text: &mut String,
    added: Result<u32, LowerError>,
) -> Result<(), AllocError> {
    match added {
        Ok(index) => write_number(text, u64::from(index)),
        Err(LowerError::TableFull) => text.push_str("TableFull"),
        Err(LowerError::Memory) => text.push_str("memory"),
    }
}

/// Writes a handle.
pub(crate) fn write_handle(text: &mut String, handle: Handle) -> Result<(), AllocError> {
    let Handle {
        resource,
        rep,
        lends,
        ownership,
    } = handle;
    match ownership {
        Ownership::Own => write!(text, "own-R{resource}:{rep}-{lends}"),
        Ownership::Borrow(task) => write!(text, "borrow-R{resource}:{rep}-T{task}-{lends}"),
    }
}

/// Writes an end.
fn write_end(text: &mut String, end: EndEntry) -> Result<(), AllocError> {
    let side = match end.side {
        Side::Reader => "readable",
        Side::Writer => "writable",
    };
    let (of, number, idle) = (end.end_type, end.number, yes_or_no(end.is_idle));
    write!(text, "{side}-{number}:{of}-{idle}")
}

/// Writes what stands at an index.
fn write_entry(text: &mut String, entry: Option<WorldEntry>) -> Result<(), AllocError> {
    match entry {
        None => text.push_str("none"),
        Some(WorldEntry::Handle(handle)) => write_handle(text, handle),
        Some(WorldEntry::Subtask(callee)) => write!(text, "T{callee}"),
        Some(WorldEntry::Set(set)) => write!(text, "set{set}"),
        Some(WorldEntry::End(end)) => write_end(text, end),
    }
}

/// Writes a number that was found, or why none was.
fn write_found(text: &mut String, found: Result<u64, Refusal>) -> Result<(), AllocError> {
    match found {
        Ok(number) => write_number(text, number),
        Err(why) => text.push_str(refused(why)),
    }
}

/// Writes the end that was found, or why none was.
fn write_found_end(text: &mut String, found: Result<EndEntry, Refusal>) -> Result<(), AllocError> {
    match found {
        Ok(end) => write_end(text, end),
        Err(why) => text.push_str(refused(why)),
    }
}

/// Adds subtasks until no more is added, and tells how many.
fn fill(instance: &mut Instance) -> u64 {
    let mut added = 0;
    for callee in 0..70_000u32 {
        if instance.add(WorldEntry::Subtask(callee)).is_err() {
            return added;
        }
        added = u64::from(callee) + 1;
    }
    added
}

/// An instance that words change.
#[derive(Drop)]
pub(crate) struct Changed {
    pub(crate) instance: Instance,
}

impl Changed {
    /// Makes a set, and adds it.
    pub(crate) fn write_set(&mut self, alloc: Global, text: &mut String) -> Result<(), AllocError> {
        match self.instance.make_set(alloc) {
            Ok(set) => write_added(text, self.instance.add(WorldEntry::Set(set))),
            Err(_) => text.push_str("memory"),
        }
    }

    /// The end of a side at an index, of a type.
    fn write_end_at(
        &mut self,
        text: &mut String,
        side: Side,
        rest: &str,
    ) -> Result<(), AllocError> {
        let (index, wanted) = pair(rest);
        write_found_end(text, self.instance.end_at(side, wanted as usize, index))
    }

    /// Adds an end.
    fn write_new_end(
        &mut self,
        text: &mut String,
        side: Side,
        rest: &str,
    ) -> Result<(), AllocError> {
        write_added(text, self.instance.add(end(side, rest)))
    }

    /// What a word says of the end of a stream or a future.
    fn write_ends(&mut self, text: &mut String, name: &str, rest: &str) -> Result<(), AllocError> {
        match name {
            "r" => self.write_new_end(text, Side::Reader, rest),
            "w" => self.write_new_end(text, Side::Writer, rest),
            "er" => self.write_end_at(text, Side::Reader, rest),
            "ew" => self.write_end_at(text, Side::Writer, rest),
            _ => text.push_str("no such word"),
        }
    }

    /// What is found at an index.
    fn write_at(&mut self, text: &mut String, name: &str, rest: &str) -> Result<(), AllocError> {
        let index = number(rest);
        match name {
            "at" => write_entry(text, self.instance.entry(index)),
            "s" => write_found(text, self.instance.subtask_at(index).map(u64::from)),
            "t" => write_found(text, self.instance.set_at(index)),
            "m" => match self.instance.waitable_at(index) {
                Ok(()) => text.push_str("ok"),
                Err(why) => text.push_str(refused(why)),
            },
            "rm" => write_entry(text, self.instance.remove(index)),
            "busy" => text.push_str(yes_or_no(self.instance.set_idle(index, false))),
            "idle" => text.push_str(yes_or_no(self.instance.set_idle(index, true))),
            _ => self.write_ends(text, name, rest),
        }
    }

    /// What a word says of the whole table.
    fn write_whole(
        &mut self,
        alloc: Global,
        text: &mut String,
        name: &str,
        rest: &str,
    ) -> Result<(), AllocError> {
        match name {
            "mk" => self.write_set(alloc, text),
            "sub" => write_added(text, self.instance.add(WorldEntry::Subtask(number(rest)))),
            "fill" => write_number(text, fill(&mut self.instance)),
            "all" => match self.instance.indices(alloc) {
                Ok(indices) => write_list(text, indices.as_slice()),
                Err(_) => text.push_str("memory"),
            },
            "out" => write_number(text, u64::from(self.instance.take_table(alloc).len())),
            "swap" => {
                let table = self.instance.take_table(alloc);
                write_number(text, u64::from(table.len()))?;
                self.instance.put_table(table);
                Ok(())
            }
            _ => self.write_at(text, name, rest),
        }
    }
}

impl Acts for Changed {
    fn act(
        &mut self,
        alloc: Global,
        name: &str,
        rest: &str,
        text: &mut String,
    ) -> Result<(), Fail> {
        self.write_whole(alloc, text, name, rest)?;
        Ok(())
    }
}

/// New instances.
pub(crate) struct Entries;

impl Answers for Entries {
    fn answer(alloc: Global, given: &str) -> Result<String, Fail> {
        let instance = Instance::new(alloc);
        acted(alloc, Changed { instance }, given)
    }
}
