//! The texts of values with their types.

ghost use Rattle.std.specs.Prelude.{◌≡◌, ◌++◌, OnOk};
ghost use Rattle.syntax_trees.specs.ValueText.{value_text};
ghost use Rattle.trace_show.specs.Typed.{typed_text, each_typed_text};

use faults::Memory;
use std::alloc::Global;
use syntax_trees::{ValType, Value};
use trace_labels::{TypedValue, TypedValues};
use value_texts::value_text;

/// Appends the text of a value of a type.
fn push_value(
    alloc: Global,
    value: &Value,
    val_type: &ValType,
    to: &mut Vec<u8>,
) -> Result<(), Memory>
    ensures { OnOk result (to.new.items ≡ to.old.items ++ value_text value.now val_type.now) }
{
    let text = value_text(alloc, value, val_type)?;
    to.extend_from_slice(text.as_slice())?;
    Ok(())
}

/// Appends the text of a value. It fails for want of memory alone.
pub(crate) fn push_typed(alloc: Global, value: &TypedValue, to: &mut Vec<u8>) -> Result<(), Memory>
    ensures { OnOk result (to.new.items ≡ to.old.items ++ typed_text value.now) }
{
    push_value(alloc, &value.value, value.val_type.get(), to)
}

/// Appends the texts of values, with a comma and a space between them. It fails for want of memory alone.
pub(crate) fn push_each_typed(
    alloc: Global,
    values: &TypedValues,
    to: &mut Vec<u8>,
) -> Result<(), Memory>
    ensures { OnOk result (to.new.items ≡ to.old.items ++ each_typed_text values.now) }
{
    let val_type = values.val_type.get();
    let Some((first, others)) = values.values.as_slice().split_first() else {
        return Ok(());
    };
    push_value(alloc, first, val_type, to)?;
    for value in others {
        to.extend_from_slice(b", ")?;
        push_value(alloc, value, val_type, to)?;
    }
    Ok(())
}
