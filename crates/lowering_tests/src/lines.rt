//! The parts of a line.

use crate::scripted::{Reply, ScriptedRoom};
use cases::bytes_of;
use std::alloc::Global;
use std::test::Fail;
use table_texts::number;
use value_lower::RoomEnd;

/// What a realloc answers.
fn answer(word: &str) -> Result<Result<u32, RoomEnd<u32>>, Fail> {
    if let Some(why) = word.strip_prefix("trap:") {
        return Ok(Err(RoomEnd::Trapped(number(why)?)));
    }
    match word {
        "fuel" => Ok(Err(RoomEnd::NoFuel)),
        "memory" => Ok(Err(RoomEnd::Memory)),
        place => Ok(Ok(number(place)?)),
    }
}

/// What a realloc does. By how many bytes the memory grows stands behind a plus.
fn reply(word: &str) -> Result<Reply, Fail> {
    let (word, growth) = word.split_once('+').unwrap_or((word, "0"));
    let growth = number(growth)?;
    let answer = answer(word)?;
    Ok(Reply { growth, answer })
}

/// What reallocs do, the last one first.
fn replies(alloc: Global, text: &str) -> Result<Vec<Reply>, Fail> {
    let mut replies = Vec::new(alloc);
    for word in text.split_whitespace() {
        replies.push(reply(word)?)?;
    }
    replies.reverse();
    Ok(replies)
}

/// The bytes of digits, two each. Behind a star stands how often they are there.
fn repeated(alloc: Global, word: &str) -> Result<Vec<u8>, Fail> {
    let (digits, times) = word.split_once('*').unwrap_or((word, "1"));
    let bytes = bytes_of(alloc, digits)?;
    let mut all = Vec::new(alloc);
    for _ in 0..number(times)? {
        all.extend_from_slice(&bytes)?;
    }
    Ok(all)
}

/// The bytes of a memory.
fn memory(alloc: Global, text: &str) -> Result<Vec<u8>, Fail> {
    let mut bytes = Vec::new(alloc);
    for word in text.split_whitespace() {
        bytes.extend_from_slice(&repeated(alloc, word)?)?;
    }
    Ok(bytes)
}

/// The room of a line: its memory, and what its reallocs do.
pub(crate) fn room_of(alloc: Global, text: &str) -> Result<ScriptedRoom, Fail> {
    let (bytes, words) = text.split_once('|').ok_or("no replies")?;
    let bytes = memory(alloc, bytes)?;
    let replies = replies(alloc, words)?;
    Ok(ScriptedRoom::new(alloc, bytes, replies).ok_or("a large memory")?)
}
