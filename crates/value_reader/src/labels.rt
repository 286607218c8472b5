//! Labels that are looked up: flags and enums.

ghost use Rattle.std.specs.Prelude.{◌≡◌};
ghost use Rattle.std.specs.Str.{bytes_eq};
ghost use Rattle.value_reader.specs.Reads.{Reads, MayRead};
ghost use Rattle.value_reader.specs.Values as values;

use crate::fault::NoText;
use crate::text::Text;
use faults::MemoryOr;
use std::alloc::Global;
use syntax_trees::{Name, Seq};

/// Whether two labels are the same.
pub fn is_label(name: &Name, label: &[u8]) -> bool
    ensures { result ≡ bytes_eq name.now label.now }
{
    name.as_str().as_bytes() == label
}

/// The number of the first of these labels that is this one.
pub fn place_of(label: &[u8], labels: &[Name]) -> Option<usize>
    ensures { result ≡ values.place_of label.now labels.now }
{
    labels.iter().position(|name| is_label(name, label))
}

/// Reads what stands behind a flag, and answers whether another one follows.
fn is_open_behind(text: &mut Text<'_>) -> Result<bool, NoText>
    ensures { Reads (values.behind_flag text.old) text.new result }
{
    if text.has_mark(b'}') {
        return Ok(false);
    }
    text.mark(b',')?;
    Ok(true)
}

/// Reads flags: whether each of these labels is set.
pub fn flags_at(
    alloc: Global,
    labels: &[Name],
    text: &mut Text<'_>,
) -> Result<Seq<bool>, MemoryOr<NoText>>
    ensures { MayRead (values.flags_in labels.now text.old) text.new result }
{
    text.word(b"{")?;
    let mut is_open = !text.has_mark(b'}');
    let mut flags = Seq::new(alloc);
    for label in labels {
        let is_set = is_open && text.has_label(label.as_str().as_bytes());
        flags.push(is_set)?;
        if is_set {
            is_open = is_open_behind(text)?;
        }
    }
    if is_open {
        return Err(MemoryOr::Fault(NoText));
    }
    Ok(flags)
}
