//! Sections that end within their items: at whichever byte, what passes the end of the section is refused there.

use crate::answers::{PREAMBLE, answer_of};
use cases::{Answers, bytes_of};
use std::alloc::Global;
use std::test::Fail;

/// The bytes of a component of one section, of which this is the id and the payload.
fn in_root(alloc: Global, id: u8, payload: &[u8]) -> Result<Vec<u8>, Fail> {
    let size = u8::try_from(payload.len())?;
    let mut bytes = Vec::from_slice(alloc, PREAMBLE)?;
    bytes.extend_from_slice(&[id, size])?;
    bytes.extend_from_slice(payload)?;
    Ok(bytes)
}

/// The bytes of a component that has such a one in it, before a section of no types.
fn in_another(alloc: Global, inner: &[u8]) -> Result<Vec<u8>, Fail> {
    let size = u8::try_from(inner.len())?;
    let mut bytes = Vec::from_slice(alloc, PREAMBLE)?;
    bytes.extend_from_slice(&[0x04, size])?;
    bytes.extend_from_slice(inner)?;
    bytes.extend_from_slice(&[0x07, 0x01, 0x00])?;
    Ok(bytes)
}

/// Whether bytes are refused at a place, where something passes the end of its section.
fn is_cut_at(alloc: Global, bytes: &[u8], place: usize) -> Result<bool, Fail> {
    let answer = answer_of(alloc, bytes)?;
    let wanted = format!(in alloc; "{place} SectionSize")?;
    Ok(answer.as_str() == wanted.as_str())
}

/// Whether a front of a section's payload is refused at its end.
fn is_refused(alloc: Global, id: u8, front: &[u8]) -> Result<bool, Fail> {
    let root = in_root(alloc, id, front)?;
    let another = in_another(alloc, &root)?;
    let count = front.len();
    Ok(
        is_cut_at(alloc, &root, count.saturating_add(10))?
            && is_cut_at(alloc, &another, count.saturating_add(20))?,
    )
}

/// Whether all fronts of a section's payload are refused at their ends.
fn are_refused(alloc: Global, id: u8, payload: &[u8]) -> Result<bool, Fail> {
    for count in 0..payload.len() {
        if !is_refused(alloc, id, &payload[..count])? {
            return Ok(false);
        }
    }
    Ok(true)
}

/// Whether a section is read whole.
fn is_read(alloc: Global, id: u8, payload: &[u8]) -> Result<bool, Fail> {
    let bytes = in_root(alloc, id, payload)?;
    let whole = answer_of(alloc, &bytes)?;
    Ok(whole.starts_with("\n11 "))
}

/// The id of a section, of two digits.
fn id_of(alloc: Global, code: &str) -> Result<u8, Fail> {
    let ids = bytes_of(alloc, code)?;
    Ok(ids.first().copied().ok_or("no id")?)
}

/// What becomes of a section, and of its fronts.
fn cut(alloc: Global, id: u8, payload: &[u8]) -> Result<&'static str, Fail> {
    if !is_read(alloc, id, payload)? {
        return Ok("not read");
    }
    if are_refused(alloc, id, payload)? {
        Ok("refused")
    } else {
        Ok("not refused")
    }
}

/// Sections that are read whole, and whose fronts are refused at their ends.
pub(crate) struct CutOff;

impl Answers for CutOff {
    fn answer(alloc: Global, given: &str) -> Result<String, Fail> {
        let (head, code) = given.rsplit_once('|').ok_or("no payload")?;
        let (_title, id) = head.rsplit_once('|').ok_or("no id")?;
        let told = cut(alloc, id_of(alloc, id)?, &bytes_of(alloc, code)?)?;
        Ok(String::from_str(alloc, told)?)
    }
}
