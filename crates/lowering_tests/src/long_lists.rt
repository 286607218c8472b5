//! A list of numbers, which is lowered and lifted again.

use crate::lowering::all_stored;
use crate::scripted::ScriptedRoom;
use faults::MemoryOr;
use laid_types::LaidType;
use std::alloc::{AllocError, Global};
use std::test::Fail;
use syntax_trees::{Value, Values};
use table_texts::{holds, number};
use value_lift::load_list_bare;

/// So many numbers, of which no two are equal.
fn numbers(alloc: Global, count: u32) -> Result<Vec<Value>, AllocError> {
    let mut values = Vec::new(alloc);
    for at in 0..count {
        values.push(Value::U32(at.wrapping_mul(2_654_435_761)))?;
    }
    Ok(values)
}

/// A room with a memory of four bytes for each.
fn room(alloc: Global, count: u32) -> Result<ScriptedRoom, Fail> {
    let mut memory = Vec::new(alloc);
    memory.resize((count as usize).saturating_mul(4), 0)?;
    let replies = Vec::new(alloc);
    Ok(ScriptedRoom::new(alloc, memory, replies).ok_or("no room")?)
}

/// Whether two values are the same number.
fn are_same(one: &Value, other: &Value) -> bool {
    match (one, other) {
        (Value::U32(one), Value::U32(other)) => one == other,
        _ => false,
    }
}

/// So many elements that a memory holds.
fn lifted(alloc: Global, memory: &[u8], count: u32, t: &LaidType<'_>) -> Result<Values, Fail> {
    if holds(t) {
        return Err(Fail::new("handles"));
    }
    match load_list_bare(alloc, memory, 0, count, t) {
        Ok(values) => Ok(values),
        Err(MemoryOr::Memory) => Err(Fail::new("memory")),
        Err(MemoryOr::Fault(_)) => Err(Fail::new("not lifted")),
    }
}

/// How many elements are lifted as they were lowered.
fn kept(alloc: Global, count: u32, values: &[Value], t: &LaidType<'_>) -> Result<usize, Fail> {
    let mut room = room(alloc, count)?;
    let told = all_stored(alloc, &mut room, 0, values, t)?;
    if told.as_str() != "stored" {
        return Err(Fail::new("not lowered"));
    }
    let others = lifted(alloc, room.memory(), count, t)?;
    let pairs = values.iter().zip(others.as_slice());
    Ok(pairs.filter(|(one, other)| are_same(one, other)).count())
}

/// How many of so many numbers are lifted as they were lowered.
pub(crate) fn passed_told(alloc: Global, t: &LaidType<'_>, rest: &str) -> Result<String, Fail> {
    let count = number(rest)?;
    let values = numbers(alloc, count)?;
    let kept = kept(alloc, count, &values, t)?;
    Ok(format!(in alloc; "{kept}")?)
}
