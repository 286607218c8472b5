//! A world that words fill.
//!
//! `instance` begins a component instance; `task` makes a task, `enter:1` lets it enter and `return:1` lets it return. In the instance of the first
//! number, from 0 on, `own:0,1,7` adds an own handle of resource 1 with the representation 7, `borrow:0,1,7,2` a borrow handle of task 2, `set:0` a
//! new set, and `subtask:0,1` the subtask that task 1 is; `lend:0,1,1` lends the handle at index 1, of resource 1, and `join:0,2,0` lets the
//! waitable at index 2 join the set of number 0; `remove:0,1` removes what stands at an index. `stream` and `future` make one; `read-end:0,1` and
//! `write-end:0,1` add the ends of stream 1, `read-future:0,1` and `write-future:0,1` those of future 1. `read:1` begins a read of 3 elements at
//! stream 1 and `write:1` a write, `drop-read:1` drops the end that reads, and `told-write:1` tells the end that writes what came of its copy.

use builtin_kinds::EndKind;
use cases::Answers;
use channels::Channel;
use entry_gate::Kind;
use faults::Memory;
use instances::{EndEntry, Instance, WorldEntry};
use res_handles::{Handle, Ownership};
use std::alloc::{AllocError, Global};
use std::test::Fail;
use stream_ends::{By, Side};
use syntax_trees::Bytes;
use task_table::{Callee, Caller, TaskSlot};
use tasks::TaskEvent;
use world_cases::{let_go, nothing};
use world_dumps::dump_text;
use world_parts::Parts;

/// The numbers of a text with commas between them.
fn numbers(alloc: Global, text: &str) -> Result<Vec<u32>, AllocError> {
    let mut numbers = Vec::new(alloc);
    for part in text.split(',') {
        if let Ok(number) = part.parse::<u32>() {
            numbers.push(number)?;
        }
    }
    Ok(numbers)
}

/// A number at a place, 0 where there is none.
fn at(numbers: &[u32], place: usize) -> u32 {
    match numbers.get(place) {
        Some(number) => *number,
        None => 0,
    }
}

/// A handle.
fn handle(resource: u32, rep: u32, ownership: Ownership) -> WorldEntry {
    WorldEntry::Handle(Handle {
        resource,
        rep,
        lends: 0,
        ownership,
    })
}

/// An end. Streams are of type 0, and futures of type 1.
fn end(side: Side, end_type: usize, number: u32) -> WorldEntry {
    WorldEntry::End(EndEntry {
        side,
        end_type,
        number,
        is_idle: true,
    })
}

/// Adds a set to an instance.
fn add_set(alloc: Global, parts: &mut Parts, instance: usize) {
    if instance < parts.instances.len() {
        if let Ok(set) = parts.instances[instance].make_set(alloc) {
            let _index = parts.add_entry(instance, WorldEntry::Set(set));
        }
    }
}

/// Lends a handle, or lets a waitable join a set, in an instance.
fn change(name: &str, parts: &mut Parts, instance: usize, index: u32, other: u32) {
    if instance < parts.instances.len() {
        if name == "lend" {
            let _rep = parts.instances[instance].lift_borrow(index, other);
        } else {
            let _joined = parts.instances[instance].join(index, u64::from(other));
        }
    }
}

/// Lets something happen to a stream.
fn flow(name: &str, parts: &mut Parts, number: usize) {
    if number == 0 || number > parts.streams.len() {
        return;
    }
    let by = By::Task(0);
    match name {
        "read" => {
            let _meet = parts.streams[number - 1].offer(Side::Reader, by, 0, 0, 3);
        }
        "write" => {
            let _meet = parts.streams[number - 1].offer(Side::Writer, by, 0, 0, 3);
        }
        "drop-read" => {
            let _dropped = parts.streams[number - 1].drop_end(Side::Reader);
        }
        _ => {
            let _payload = parts.streams[number - 1].deliver(Side::Writer);
        }
    }
}

/// Makes what a word names.
fn make(alloc: Global, name: &str, parts: &mut Parts) -> Result<(), Fail> {
    match name {
        "instance" => parts.instances.push(Instance::new(alloc))?,
        "stream" => parts.streams.push(Channel::new(EndKind::Stream, 0))?,
        "future" => parts.futures.push(Channel::new(EndKind::Future, 1))?,
        _ => {
            let slot = TaskSlot::new(alloc, 0, Kind::Stackful, Callee::Export(0), Caller::Nobody);
            let _task = parts.make_task(slot);
        }
    }
    Ok(())
}

/// The entry that a word names.
fn entry_of(name: &str, numbers: &[u32]) -> WorldEntry {
    let (one, two) = (at(numbers, 1), at(numbers, 2));
    match name {
        "own" => handle(one, two, Ownership::Own),
        "borrow" => handle(one, two, Ownership::Borrow(at(numbers, 3))),
        "read-end" => end(Side::Reader, 0, one),
        "write-end" => end(Side::Writer, 0, one),
        "read-future" => end(Side::Reader, 1, one),
        "write-future" => end(Side::Writer, 1, one),
        _ => WorldEntry::Subtask(one),
    }
}

/// Does what a word says with numbers.
fn fill_at(alloc: Global, name: &str, numbers: &[u32], parts: &mut Parts) {
    let first = at(numbers, 0);
    match name {
        "enter" => {
            let _entered = parts.advance(first, TaskEvent::Enter);
        }
        "return" => {
            let _returned = parts.advance(first, TaskEvent::Return);
        }
        "set" => add_set(alloc, parts, first as usize),
        "lend" | "join" => change(name, parts, first as usize, at(numbers, 1), at(numbers, 2)),
        "remove" => {
            let _removed = parts.remove_entry(first as usize, at(numbers, 1));
        }
        "read" | "write" | "drop-read" | "told-write" => flow(name, parts, first as usize),
        _ => {
            let _index = parts.add_entry(first as usize, entry_of(name, numbers));
        }
    }
}

/// Does what a word says.
fn fill(alloc: Global, word: &str, parts: &mut Parts) -> Result<(), Fail> {
    let Some((name, rest)) = word.split_once(':') else {
        return make(alloc, word, parts);
    };
    let numbers = numbers(alloc, rest)?;
    fill_at(alloc, name, &numbers, parts);
    Ok(())
}

/// The text of what is kept of a world.
fn text_of(alloc: Global, parts: &Parts) -> Result<Bytes, Memory> {
    dump_text(alloc, parts)
}

/// The text of what is kept of a world that words fill.
fn filled(alloc: Global, words: &str, parts: &mut Parts) -> Result<String, Fail> {
    for word in words.split_whitespace() {
        fill(alloc, word, parts)?;
    }
    let text = text_of(alloc, parts)?;
    Ok(String::from_str(alloc, str::from_utf8(text.as_slice())?)?)
}

/// Worlds, each with the text of what is kept.
pub struct Dumped;

impl Answers for Dumped {
    fn answer(alloc: Global, given: &str) -> Result<String, Fail> {
        let (_title, words) = given.split_once('\n').ok_or("no words")?;
        let mut parts = nothing(alloc);
        let text = filled(alloc, words, &mut parts);
        let_go(parts);
        text
    }
}
