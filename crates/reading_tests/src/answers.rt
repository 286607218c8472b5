//! What becomes of the bytes of a component, as text.

use crate::items::write_items;
use ca_base::{ReadError, Refusal};
use cases::{Answers, bytes_of, bytes_of_lines};
use comp_reader::{Component, ComponentWhy, read_component};
use std::alloc::{AllocError, Global};
use std::test::Fail;

/// The component of bytes.
fn component_of(alloc: Global, bytes: &[u8]) -> Result<Component, ReadError<ComponentWhy>> {
    read_component(alloc, bytes)
}

/// The items of a component.
fn shown(alloc: Global, component: &Component) -> Result<String, AllocError> {
    let mut text = String::new(alloc);
    write_items(&mut text, component)?;
    Ok(text)
}

/// The items of a component that is let go then.
fn items_text(alloc: Global, component: Component) -> Result<String, AllocError> {
    shown(alloc, &component)
}

/// The place and the reason of a refusal.
fn refusal_text(alloc: Global, refusal: Refusal<ComponentWhy>) -> Result<String, AllocError> {
    let Refusal { place, why } = refusal;
    format!(in alloc; "{place} {why:?}")
}

/// What becomes of bytes: the items of the component, or the place and the reason of the refusal.
pub(crate) fn answer_of(alloc: Global, bytes: &[u8]) -> Result<String, Fail> {
    match component_of(alloc, bytes) {
        Ok(component) => Ok(items_text(alloc, component)?),
        Err(ReadError::Memory) => Err(Fail::new("memory")),
        Err(ReadError::Fault(refusal)) => Ok(refusal_text(alloc, refusal)?),
    }
}

/// The preamble of a component.
pub(crate) const PREAMBLE: &[u8] = &[0x00, 0x61, 0x73, 0x6D, 0x0D, 0x00, 0x01, 0x00];

/// What stands in front of the bytes of a line.
fn start_of(name: &str) -> Option<&'static [u8]> {
    match name {
        "file" => Some(&[]),
        "sections" => Some(PREAMBLE),
        _ => None,
    }
}

/// The bytes of a start and a text behind it.
fn bytes_behind(alloc: Global, start: &[u8], code: &str) -> Result<Vec<u8>, Fail> {
    let mut bytes = Vec::from_slice(alloc, start)?;
    let part = bytes_of(alloc, code)?;
    bytes.extend_from_slice(&part)?;
    Ok(bytes)
}

/// What becomes of the component of a line.
pub(crate) struct InLine;

impl Answers for InLine {
    fn answer(alloc: Global, given: &str) -> Result<String, Fail> {
        let (head, code) = given.rsplit_once('|').ok_or("no bytes")?;
        let (_title, name) = head.trim().rsplit_once("| ").ok_or("no start")?;
        let start = start_of(name).ok_or("another start")?;
        let bytes = bytes_behind(alloc, start, code)?;
        answer_of(alloc, &bytes)
    }
}

/// What becomes of the component of a paragraph.
pub(crate) struct InLines;

impl Answers for InLines {
    fn answer(alloc: Global, given: &str) -> Result<String, Fail> {
        let (_title, lines) = given.split_once('\n').ok_or("no bytes")?;
        let bytes = bytes_of_lines(alloc, lines)?;
        answer_of(alloc, &bytes)
    }
}
