//! A list whose texts are too large together: each of its places names the same bytes, so that the memory is small.

use crate::lifting::loaded;
use laid_types::LaidType;
use std::alloc::{AllocError, Global};
use std::test::Fail;
use table_texts::number;
use value_lift::LiftOf;

/// How many bytes each text has.
const TEXT: u32 = 1_048_576;

/// Adds the place and the count of a text or a list.
fn push_pair(memory: &mut Vec<u8>, place: u32, count: u32) -> Result<(), AllocError> {
    memory.extend_from_slice(&place.to_le_bytes())?;
    memory.extend_from_slice(&count.to_le_bytes())
}

/// At 0 stands a list of so many texts, and from 8 on their places. Each is the same mebibyte of the letter `a`.
fn memory(alloc: Global, count: u32) -> Result<Vec<u8>, AllocError> {
    let place = count.saturating_mul(8).saturating_add(8);
    let mut memory = Vec::new(alloc);
    push_pair(&mut memory, 8, count)?;
    for _ in 0..count {
        push_pair(&mut memory, place, TEXT)?;
    }
    memory.resize(place.saturating_add(TEXT) as usize, b'a')?;
    Ok(memory)
}

/// What is loaded of a list of so many texts.
pub(crate) fn texts_told(alloc: Global, t: &LaidType<'_>, rest: &str) -> Result<String, Fail> {
    let memory = memory(alloc, number(rest)?)?;
    loaded(alloc, t, &memory, 0, LiftOf::Value)
}
