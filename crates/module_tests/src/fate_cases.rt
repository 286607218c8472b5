//! What becomes of bodies, of modules and of files.

use crate::fates::fate;
use crate::frames::frame_of;
use cases::bytes_of;
use std::alloc::Global;
use std::test::Fail;

/// What becomes of the module of a line: what it is, the frame, and the section of its code.
pub(crate) fn body_answer(alloc: Global, given: &str) -> Result<String, Fail> {
    let (start, hex) = given.rsplit_once(" | ").ok_or("no bytes")?;
    let (_title, name) = start.rsplit_once(" | ").ok_or("no frame")?;
    let frame = frame_of(name).ok_or("another frame")?;
    let text = format!(in alloc; "{frame}{hex}")?;
    let bytes = bytes_of(alloc, text.as_str())?;
    fate(alloc, &bytes, 0)
}

/// What becomes of the bytes of a line behind others: what they are, the place of the first one, and the bytes.
fn answer_behind(alloc: Global, start: &str, given: &str) -> Result<String, Fail> {
    let (head, hex) = given.rsplit_once('|').ok_or("no bytes")?;
    let (_title, base) = head.rsplit_once('|').ok_or("no base")?;
    let base: u16 = base.trim().parse()?;
    let text = format!(in alloc; "{start}{hex}")?;
    let bytes = bytes_of(alloc, text.as_str())?;
    fate(alloc, &bytes, base)
}

/// What becomes of the module of a line, behind the preamble.
pub(crate) fn module_answer(alloc: Global, given: &str) -> Result<String, Fail> {
    answer_behind(alloc, "0061736d01000000", given)
}

/// What becomes of the whole file of a line.
pub(crate) fn file_answer(alloc: Global, given: &str) -> Result<String, Fail> {
    answer_behind(alloc, "", given)
}
