//! Why something stops, and the lines that are told, as text.

use std::alloc::Global;
use std::fmt::Write;
use std::test::Fail;
use trace_labels::Label;
use trace_show::label_text;
use world_parts::{Parts, Stop};

/// Why something stops.
pub(crate) fn stopped(why: Stop) -> &'static str {
    match why {
        Stop::Trap(name) => name.as_str(),
        Stop::NoFuel => "no fuel",
        Stop::Stuck => "stuck",
        Stop::Memory => "memory",
    }
}

/// Writes a line that was told.
fn write_line(alloc: Global, label: &Label, text: &mut String) -> Result<(), Fail> {
    let line = label_text(alloc, label)?;
    let told = str::from_utf8(line.as_slice())?;
    write!(text, "; {}", told.trim_matches('\n'))?;
    Ok(())
}

/// Writes the lines that were told.
pub(crate) fn write_lines(alloc: Global, parts: &Parts, text: &mut String) -> Result<(), Fail> {
    for label in parts.feed.labels.as_slice() {
        write_line(alloc, label, text)?;
    }
    Ok(())
}
