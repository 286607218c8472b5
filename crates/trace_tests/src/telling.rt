//! The texts of labels.

use std::alloc::Global;
use std::str::from_utf8;
use std::test::Fail;
use trace_labels::Label;
use trace_show::label_text;
use type_texts::text_of;

/// The line of bytes, without the line feed at its end. It fails if none is there.
fn line_of(alloc: Global, bytes: &[u8]) -> Result<String, Fail> {
    let line = bytes.strip_suffix(b"\n").ok_or("no line feed")?;
    text_of(alloc, line)
}

/// The line of a label.
fn label_told(alloc: Global, label: &Label) -> Result<String, Fail> {
    let text = label_text(alloc, label)?;
    line_of(alloc, text.as_slice())
}

/// The line of a label that is let go then.
pub fn line_told(alloc: Global, label: Label) -> Result<String, Fail> {
    label_told(alloc, &label)
}
