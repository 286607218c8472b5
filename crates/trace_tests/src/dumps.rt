//! What is left in tables and memories.

use crate::labels::{number_at, numbers_of, tasks};
use cases::{Answers, bytes_of};
use std::alloc::Global;
use std::str::from_utf8;
use std::test::Fail;
use syntax_trees::Seq;
use trace_labels::{Channel, Dump, EndState, Entry, LiveEntry, Side};
use trace_show::dump_text;

/// How an end stands.
fn state_of(word: &str) -> Option<EndState> {
    match word {
        "idle" => Some(EndState::Idle),
        "copying" => Some(EndState::Copying),
        "done" => Some(EndState::Done),
        _ => None,
    }
}

/// Which end a word names.
fn side_of(word: &str) -> Option<Side> {
    match word {
        "readable" => Some(Side::Readable),
        "writable" => Some(Side::Writable),
        _ => None,
    }
}

/// The stream or future of a number.
fn channel_of(word: &str, number: u32) -> Option<Channel> {
    match word {
        "stream" => Some(Channel::Stream(number)),
        "future" => Some(Channel::Future(number)),
        _ => None,
    }
}

/// An end of three words and a number.
fn end_of(kind: &str, number: u32) -> Option<Entry> {
    let (channel, rest) = kind.split_once('-')?;
    let (side, state) = rest.split_once('-')?;
    Some(Entry::End {
        channel: channel_of(channel, number)?,
        side: side_of(side)?,
        state: state_of(state)?,
    })
}

/// A handle or a subtask.
fn plain_entry(kind: &str, numbers: &[u64]) -> Option<Entry> {
    let one = number_at(numbers, 0);
    let two = number_at(numbers, 1);
    let three = number_at(numbers, 2);
    match kind {
        "own" => Some(Entry::Own {
            resource: one,
            rep: two,
            lends: u64::from(three),
        }),
        "borrow" => Some(Entry::Borrow {
            resource: one,
            rep: two,
            task: three,
            lends: u64::from(number_at(numbers, 3)),
        }),
        "subtask" => Some(Entry::Subtask {
            task: one,
            state: two,
        }),
        _ => end_of(kind, one),
    }
}

/// The entry of a word and numbers.
fn entry_of(alloc: Global, kind: &str, numbers: &[u64]) -> Result<Entry, Fail> {
    if kind == "set" {
        let members = tasks(alloc, numbers)?;
        return Ok(Entry::Set { members });
    }
    Ok(plain_entry(kind, numbers).ok_or("no entry")?)
}

/// The entry of a text, with its index.
fn live_entry(alloc: Global, text: &str) -> Result<LiveEntry, Fail> {
    let (index, rest) = text.split_once(' ').ok_or("no kind")?;
    let (kind, numbers) = rest.split_once(' ').unwrap_or((rest, ""));
    let index = index.parse::<u32>()?;
    let numbers = numbers_of(alloc, numbers)?;
    let entry = entry_of(alloc, kind, &numbers)?;
    Ok(LiveEntry { index, entry })
}

/// The entries of an instance.
fn table_of(alloc: Global, line: &str) -> Result<Seq<LiveEntry>, Fail> {
    let mut entries = Seq::new(alloc);
    for text in line.trim_matches('-').split_terminator(';') {
        entries.push(live_entry(alloc, text)?)?;
    }
    Ok(entries)
}

/// The entries of instances.
fn tables_of(alloc: Global, lines: &str) -> Result<Seq<Seq<LiveEntry>>, Fail> {
    let mut tables = Seq::new(alloc);
    for line in lines.lines() {
        tables.push(table_of(alloc, line)?)?;
    }
    Ok(tables)
}

/// The text of a dump, in angle brackets.
fn dump_told(alloc: Global, dump: &Dump) -> Result<String, Fail> {
    let text = dump_text(alloc, dump)?;
    let text = from_utf8(text.as_slice())?;
    Ok(format!(in alloc; "<{text}>")?)
}

/// What is left in tables alone.
pub struct InTables;

impl Answers for InTables {
    fn answer(alloc: Global, given: &str) -> Result<String, Fail> {
        let dump = Dump {
            instances: tables_of(alloc, given)?,
            memories: Seq::new(alloc),
        };
        dump_told(alloc, &dump)
    }
}

/// Puts the bytes of a word behind zeros up to its place.
fn push_part(alloc: Global, memory: &mut Vec<u8>, word: &str) -> Result<(), Fail> {
    let (place, bytes) = word.split_once(':').ok_or("no place")?;
    let bytes = bytes_of(alloc, bytes)?;
    memory.resize(place.parse()?, 0)?;
    memory.extend_from_slice(&bytes)?;
    Ok(())
}

/// The memory of a line.
fn memory_of(alloc: Global, line: &str) -> Result<Vec<u8>, Fail> {
    let mut memory = Vec::new(alloc);
    for word in line.split(' ') {
        push_part(alloc, &mut memory, word)?;
    }
    Ok(memory)
}

/// The memories of lines.
fn memories_of(alloc: Global, lines: &str) -> Result<Vec<Vec<u8>>, Fail> {
    let mut memories = Vec::new(alloc);
    for line in lines.lines() {
        memories.push(memory_of(alloc, line)?)?;
    }
    Ok(memories)
}

/// The text of memories behind an instance without entries.
fn memories_told(alloc: Global, kept: &[Vec<u8>]) -> Result<String, Fail> {
    let mut memories = Seq::new(alloc);
    for memory in kept {
        memories.push(memory.as_slice())?;
    }
    let dump = Dump {
        instances: Seq::of(alloc, Seq::new(alloc))?,
        memories,
    };
    dump_told(alloc, &dump)
}

/// What is left in memories alone.
pub struct InMemories;

impl Answers for InMemories {
    fn answer(alloc: Global, given: &str) -> Result<String, Fail> {
        let kept = memories_of(alloc, given)?;
        memories_told(alloc, &kept)
    }
}
