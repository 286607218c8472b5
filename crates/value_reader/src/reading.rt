//! Whole texts: a value, and the arguments of a call.

ghost use Rattle.std.specs.Prelude.{◌≡◌, map, IfOk};
ghost use Rattle.value_reader.specs.Reads.{MayRead, MayMake, Answers};
ghost use Rattle.value_reader.specs.Values as values;

use crate::fault::NoText;
use crate::text::Text;
use crate::values::{skip_separator, value_at};
use faults::{Memory, MemoryOr};
use std::alloc::Global;
use syntax_trees::{Param, Seq, ValType, Value, Values};

/// What was read, or none where the text is not one of those that are asked for.
fn if_text<T>(read: Result<T, MemoryOr<NoText>>) -> Result<Option<T>, Memory>
    ensures { Answers read result }
{
    match read {
        Ok(value) => Ok(Some(value)),
        Err(MemoryOr::Fault(_)) => Ok(None),
        Err(MemoryOr::Memory) => Err(Memory),
    }
}

/// Reads a value that is the whole text.
fn whole_value(alloc: Global, text: &[u8], val_type: &ValType) -> Result<Value, MemoryOr<NoText>>
    ensures { MayMake (values.read_value val_type.now text.now) result }
{
    let mut text = Text::of(text);
    text.skip_blanks();
    let value = value_at(alloc, val_type, &mut text)?;
    text.skip_blanks();
    if text.is_empty() {
        Ok(value)
    } else {
        Err(MemoryOr::Fault(NoText))
    }
}

/// Reads values of the types of parameters, and the parenthesis that closes them.
fn params_at(
    alloc: Global,
    params: &[Param],
    text: &mut Text<'_>,
) -> Result<Values, MemoryOr<NoText>>
    ensures { MayRead (values.values_at 41 (map values.reader (map (λ p. p.val_type) params.now)) text.old) text.new result }
{
    let mut values = Seq::new(alloc);
    for param in params {
        skip_separator(&values, text)?;
        text.skip_blanks();
        let value = value_at(alloc, param.val_type.get(), text)?;
        values.push(value)?;
    }
    text.mark(b')')?;
    Ok(values)
}

/// Reads arguments that are the whole text.
fn whole_arguments(alloc: Global, text: &[u8], params: &[Param]) -> Result<Values, MemoryOr<NoText>>
    ensures { MayMake (values.arguments (map (λ p. p.val_type) params.now) text.now) result }
{
    let mut text = Text::of(text);
    text.mark(b'(')?;
    let values = params_at(alloc, params, &mut text)?;
    if text.is_empty() {
        Ok(values)
    } else {
        Err(MemoryOr::Fault(NoText))
    }
}

/// The value of a type that a text stands for, or none where the text is no text of such a value: `{a: 1, b: "x"}`,
/// `some('c')`, `[1, 2]`. Spaces and tabs may stand between the parts of the text and at both its ends. Handles and the ends
/// of streams and futures have no text (`has_host_type`). It fails for want of memory alone; that is also the answer where a
/// label is that of a case whose number is 2^32 or more.
pub fn read_value(alloc: Global, text: &[u8], val_type: &ValType) -> Result<Option<Value>, Memory>
    ensures { IfOk result (λ value. value ≡ values.read_value val_type.now text.now) }
{
    if_text(whole_value(alloc, text, val_type))
}

/// The arguments that a text stands for, or none where it is no text of such arguments: values of the types of these
/// parameters in parentheses, with commas between them, as `(1, "x")`. Spaces and tabs may stand between the parts of the
/// text, and nothing behind its last parenthesis. It fails for want of memory alone, as `read_value`.
pub fn read_arguments(
    alloc: Global,
    text: &[u8],
    params: &[Param],
) -> Result<Option<Values>, Memory>
    ensures { IfOk result (λ all. all ≡ values.arguments (map (λ p. p.val_type) params.now) text.now) }
{
    if_text(whole_arguments(alloc, text, params))
}
