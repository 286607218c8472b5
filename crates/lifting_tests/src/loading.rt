//! What a line says of lifting.

use crate::kinds::Lifts;
use crate::lifting::{elements_loaded, integer_loaded, lifted, loaded};
use cases::bytes_of;
use laid_types::LaidType;
use std::alloc::Global;
use std::test::Fail;
use table_texts::number;
use value_lift::LiftOf;

/// Core values with spaces between them.
pub(crate) fn core_values(alloc: Global, text: &str) -> Result<Vec<u64>, Fail> {
    let mut words = Vec::new(alloc);
    for word in text.split_whitespace() {
        words.push(word.parse::<u64>()?)?;
    }
    Ok(words)
}

/// Elements of a list that are loaded from a place: the place, and how many.
fn elements_told(
    alloc: Global,
    t: &LaidType<'_>,
    memory: &[u8],
    rest: &str,
) -> Result<String, Fail> {
    let (place, count) = rest.trim().split_once(' ').ok_or("no count")?;
    elements_loaded(alloc, t, memory, number(place)?, number(count)?)
}

/// What core values stand for.
fn words_told(
    alloc: Global,
    t: &LaidType<'_>,
    memory: &[u8],
    rest: &str,
    what: LiftOf,
) -> Result<String, Fail> {
    let words = core_values(alloc, rest)?;
    lifted(alloc, t, memory, &words, what)
}

/// What is lifted with a memory.
fn with_memory(
    alloc: Global,
    lifts: Lifts,
    t: &LaidType<'_>,
    memory: &[u8],
    rest: &str,
) -> Result<String, Fail> {
    match lifts {
        Lifts::Load => loaded(alloc, t, memory, number(rest)?, LiftOf::Value),
        Lifts::LoadArguments => loaded(alloc, t, memory, number(rest)?, LiftOf::Arguments),
        Lifts::LoadElements => elements_told(alloc, t, memory, rest),
        Lifts::LoadInteger => integer_loaded(alloc, t.val_type(), memory, number(rest)?),
        Lifts::Lift => words_told(alloc, t, memory, rest, LiftOf::Value),
        Lifts::LiftArguments => words_told(alloc, t, memory, rest, LiftOf::Arguments),
    }
}

/// What is lifted of a line: the bytes of a memory, and what stands behind them.
pub(crate) fn lift_told(
    alloc: Global,
    lifts: Lifts,
    t: &LaidType<'_>,
    given: &str,
) -> Result<String, Fail> {
    let (memory, rest) = given.split_once('|').ok_or("nothing to lift")?;
    let memory = bytes_of(alloc, memory)?;
    with_memory(alloc, lifts, t, &memory, rest)
}
