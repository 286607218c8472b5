//! The types of values of components as text.

use crate::texts::{write_behind, write_debug};
use comp_tree::{Case, DefValType, Field, ValTypeRef};
use std::alloc::AllocError;
use syntax_trees::Name;

/// Writes a value type.
pub(crate) fn write_val_type(text: &mut String, val_type: ValTypeRef) -> Result<(), AllocError> {
    match val_type {
        ValTypeRef::Primitive(primitive) => write_debug(text, "", primitive),
        ValTypeRef::Index(index) => write_behind(text, "type ", index),
    }
}

/// Writes a value type, if there is one.
pub(crate) fn write_held(
    text: &mut String,
    val_type: Option<ValTypeRef>,
) -> Result<(), AllocError> {
    match val_type {
        Some(val_type) => write_val_type(text, val_type),
        None => text.push_str("nothing"),
    }
}

/// Writes a label and a value type, if there is one.
pub(crate) fn write_labelled(
    text: &mut String,
    label: &Name,
    val_type: Option<ValTypeRef>,
) -> Result<(), AllocError> {
    text.push(' ')?;
    text.push_str(label.as_str())?;
    text.push_str(": ")?;
    write_held(text, val_type)?;
    text.push(',')
}

/// Writes the fields of a record.
fn write_fields(text: &mut String, fields: &[Field]) -> Result<(), AllocError> {
    text.push_str("record type of")?;
    for field in fields {
        write_labelled(text, &field.label, Some(field.val_type))?;
    }
    Ok(())
}

/// Writes the cases of a variant.
fn write_cases(text: &mut String, cases: &[Case]) -> Result<(), AllocError> {
    text.push_str("variant type of")?;
    for case in cases {
        write_labelled(text, &case.label, case.payload)?;
    }
    Ok(())
}

/// Writes the places of a tuple.
fn write_places(text: &mut String, places: &[ValTypeRef]) -> Result<(), AllocError> {
    text.push_str("tuple type of")?;
    for place in places {
        text.push(' ')?;
        write_val_type(text, *place)?;
        text.push(',')?;
    }
    Ok(())
}

/// Writes labels behind what has them.
fn write_labels(text: &mut String, front: &str, labels: &[Name]) -> Result<(), AllocError> {
    text.push_str(front)?;
    for label in labels {
        text.push(' ')?;
        text.push_str(label.as_str())?;
        text.push(',')?;
    }
    Ok(())
}

/// Writes a value type behind what has it.
fn write_over(text: &mut String, front: &str, val_type: ValTypeRef) -> Result<(), AllocError> {
    text.push_str(front)?;
    write_val_type(text, val_type)
}

/// Writes what a success and a failure hold.
fn write_outcomes(
    text: &mut String,
    ok: Option<ValTypeRef>,
    err: Option<ValTypeRef>,
) -> Result<(), AllocError> {
    text.push_str("result type of ")?;
    write_held(text, ok)?;
    text.push_str(" or ")?;
    write_held(text, err)
}

/// Writes a type of streams or futures.
fn write_ends(
    text: &mut String,
    front: &str,
    element: Option<ValTypeRef>,
) -> Result<(), AllocError> {
    text.push_str(front)?;
    write_held(text, element)
}

/// Writes a type of values.
pub(crate) fn write_def_val_type(
    text: &mut String,
    val_type: &DefValType,
) -> Result<(), AllocError> {
    match val_type {
        DefValType::Primitive(primitive) => write_debug(text, "value type ", *primitive),
        DefValType::Record(fields) => write_fields(text, fields.as_slice()),
        DefValType::Variant(cases) => write_cases(text, cases.as_slice()),
        DefValType::List(element) => write_over(text, "list type of ", *element),
        DefValType::Tuple(places) => write_places(text, places.as_slice()),
        DefValType::Flags(labels) => write_labels(text, "flags type of", labels.as_slice()),
        DefValType::Enum(labels) => write_labels(text, "enum type of", labels.as_slice()),
        DefValType::Option(payload) => write_over(text, "option type of ", *payload),
        DefValType::Result { ok, err } => write_outcomes(text, *ok, *err),
        DefValType::Own(resource) => write_behind(text, "owning handle of type ", *resource),
        DefValType::Borrow(resource) => write_behind(text, "borrowed handle of type ", *resource),
        DefValType::Stream(element) => write_ends(text, "stream type of ", *element),
        DefValType::Future(element) => write_ends(text, "future type of ", *element),
    }
}
