//! What is computed of types in a table, as text.

use laid_types::LaidType;
use layouts::aligned;
use std::alloc::{AllocError, Global};
use std::fmt::Write;
use std::test::Fail;
use syntax_trees::CoreType;
use type_texts::type_told;

/// Writes how values lie in memory.
fn write_layout(text: &mut String, t: &LaidType<'_>) -> Result<(), AllocError> {
    let size = t.size();
    let align = t.align();
    write!(text, "{size} {align} |")
}

/// Writes where a payload stands and the size of the case's number, where there are cases.
fn write_cases(text: &mut String, t: &LaidType<'_>) -> Result<(), AllocError> {
    if t.case_count() == 0 {
        return text.push_str(" |");
    }
    let place = t.payload_place();
    let size = t.tag_size();
    write!(text, " {place} {size} |")
}

/// Writes core types.
fn write_core(text: &mut String, types: &[CoreType]) -> Result<(), AllocError> {
    for core_type in types {
        match core_type {
            CoreType::I32 => text.push_str(" i32")?,
            CoreType::I64 => text.push_str(" i64")?,
        }
    }
    Ok(())
}

/// A truth value.
fn word(truth: bool) -> &'static str {
    if truth { "yes" } else { "no" }
}

/// Writes what values hold.
fn write_holding(text: &mut String, t: &LaidType<'_>) -> Result<(), AllocError> {
    let end = word(t.has_end());
    let handle = word(t.has_handle());
    write!(text, " | {end} {handle}")
}

/// What is computed of a type.
pub(crate) fn layout_told(alloc: Global, t: &LaidType<'_>) -> Result<String, Fail> {
    let mut text = String::new(alloc);
    write_layout(&mut text, t)?;
    write_cases(&mut text, t)?;
    write_core(&mut text, t.flat())?;
    write_holding(&mut text, t)?;
    Ok(text)
}

/// The text of a type, to which there is one more reference for a time.
fn shared_told(alloc: Global, t: LaidType<'_>) -> Result<String, Fail> {
    let shared = t.again().share()?;
    type_told(alloc, shared.get())
}

/// The text of a part, a line where there is none.
fn part_told(alloc: Global, t: &LaidType<'_>, at: usize) -> Result<String, Fail> {
    match t.part(at) {
        Some(part) => shared_told(alloc, part),
        None => Ok(String::from_str(alloc, "-")?),
    }
}

/// Writes the text of a part behind a space.
fn write_part(alloc: Global, text: &mut String, t: &LaidType<'_>, at: usize) -> Result<(), Fail> {
    let part = part_told(alloc, t, at)?;
    Ok(write!(text, " {part}")?)
}

/// The parts of a type.
pub(crate) fn parts_told(alloc: Global, t: &LaidType<'_>) -> Result<String, Fail> {
    let parts = t.part_count();
    let cases = t.case_count();
    let mut text = format!(in alloc; "{parts} {cases}:")?;
    for at in 0..parts.saturating_add(1) {
        write_part(alloc, &mut text, t, at)?;
    }
    Ok(text)
}

/// Where a label stands.
pub(crate) fn label_told(alloc: Global, t: &LaidType<'_>, label: &str) -> Result<String, Fail> {
    match t.label_at(label) {
        Some(at) => Ok(format!(in alloc; "{at}")?),
        None => Ok(String::from_str(alloc, "none")?),
    }
}

/// The first multiple of an alignment at or behind a place, none where there is no such place or alignment.
fn aligned_place(place: u64, align: u32) -> Option<u128> {
    if align == 0 || align > 8 {
        return None;
    }
    Some(aligned(u128::from(place), align))
}

/// The place of a line that is aligned.
pub(crate) fn aligned_told(alloc: Global, given: &str) -> Result<String, Fail> {
    let (place, align) = given.split_once(' ').ok_or("no alignment")?;
    let place = aligned_place(place.parse::<u64>()?, align.parse::<u32>()?);
    let place = place.ok_or("no place")?;
    Ok(format!(in alloc; "{place}")?)
}

/// The text of a type in a table of so many.
pub(crate) fn size_told(alloc: Global, count: usize, t: &LaidType<'_>) -> Result<String, Fail> {
    let size = t.size();
    let align = t.align();
    let kept = t.flat().len();
    Ok(format!(in alloc; "{count} types, {size} {align}, {kept} core types")?)
}
