//! The texts of values.

ghost use Rattle.std.specs.Prelude.{◌≡◌, ◌++◌, OnOk, IfOk, codes, map};
ghost use Rattle.syntax_trees.specs.NameText.{name_text};
ghost use Rattle.syntax_trees.specs.TypeText.{listed};
ghost use Rattle.syntax_trees.specs.ValueText.{value_text, writer, payload_writer, field_writer, by_label, by_each, set_labels, payload_text, rest_text};

use crate::names::push_name;
use crate::pieces::push_word;
use crate::plain::push_plain;
use faults::Memory;
use std::alloc::Global;
use syntax_trees::{Boxed, Bytes, Field, Name, Seq, Shared, ValType, Value, item_at};

/// Appends a value behind its field's label.
#[cycle(value_text)]
fn push_field(alloc: Global, value: &Value, field: &Field, to: &mut Vec<u8>) -> Result<(), Memory>
    ensures { OnOk result (to.new.items ≡ to.old.items ++ (name_text field.now.label ++ codes ": " ++ writer field.now.val_type value.now)) }
{
    push_name(&field.label, to)?;
    push_word(b": ", to)?;
    push_value(alloc, value, field.val_type.get(), to)
}

/// Appends values behind their fields' labels, with a comma and a space between them.
#[cycle(value_text)]
fn push_fields(
    alloc: Global,
    values: &[Value],
    fields: &[Field],
    to: &mut Vec<u8>,
) -> Result<(), Memory>
    ensures { OnOk result (to.new.items ≡ to.old.items ++ listed (by_label values.now (map field_writer fields.now))) }
{
    let Some((value, values)) = values.split_first() else {
        return Ok(());
    };
    let Some((field, fields)) = fields.split_first() else {
        return Ok(());
    };
    push_field(alloc, value, field, to)?;
    for (i, value) in values.iter().enumerate() {
        let Some(field) = fields.get(i) else {
            return Ok(());
        };
        push_word(b", ", to)?;
        push_field(alloc, value, field, to)?;
    }
    Ok(())
}

/// Appends values, each of its own type, with a comma and a space between them.
#[cycle(value_text)]
fn push_parts(
    alloc: Global,
    values: &[Value],
    parts: &[Shared<ValType>],
    to: &mut Vec<u8>,
) -> Result<(), Memory>
    ensures { OnOk result (to.new.items ≡ to.old.items ++ listed (by_each values.now (map writer parts.now))) }
{
    let Some((value, values)) = values.split_first() else {
        return Ok(());
    };
    let Some((part, parts)) = parts.split_first() else {
        return Ok(());
    };
    push_value(alloc, value, part.get(), to)?;
    for (place, value) in values.iter().enumerate() {
        let Some(part) = parts.get(place) else {
            return Ok(());
        };
        push_word(b", ", to)?;
        push_value(alloc, value, part.get(), to)?;
    }
    Ok(())
}

/// Appends values of one type, with a comma and a space between them.
#[cycle(value_text)]
fn push_elements(
    alloc: Global,
    values: &[Value],
    element: &ValType,
    to: &mut Vec<u8>,
) -> Result<(), Memory>
    ensures { OnOk result (to.new.items ≡ to.old.items ++ listed (map (writer element.now) values.now)) }
{
    let Some((first, others)) = values.split_first() else {
        return Ok(());
    };
    push_value(alloc, first, element, to)?;
    for value in others {
        push_word(b", ", to)?;
        push_value(alloc, value, element, to)?;
    }
    Ok(())
}

/// Appends a payload in parentheses, or nothing where there is none.
#[cycle(value_text)]
fn push_payload(
    alloc: Global,
    payload: &Option<Boxed<Value>>,
    part: &ValType,
    to: &mut Vec<u8>,
) -> Result<(), Memory>
    ensures { OnOk result (to.new.items ≡ to.old.items ++ payload_text (writer part.now) payload.now) }
{
    let Some(value) = payload else {
        return Ok(());
    };
    push_word(b"(", to)?;
    push_value(alloc, value.get(), part, to)?;
    push_word(b")", to)
}

/// Appends what stands behind the label of a case.
#[cycle(value_text)]
fn push_rest(
    alloc: Global,
    payload: &Option<Boxed<Value>>,
    part: &Option<Shared<ValType>>,
    to: &mut Vec<u8>,
) -> Result<(), Memory>
    ensures { OnOk result (to.new.items ≡ to.old.items ++ rest_text (payload_writer part.now) payload.now) }
{
    match part {
        Some(part) => push_payload(alloc, payload, part.get(), to),
        None => Ok(()),
    }
}

/// Appends the labels that are set, with a comma and a space between them.
fn push_flags(labels: &[Name], flags: &[bool], to: &mut Vec<u8>) -> Result<(), Memory>
    ensures { OnOk result (to.new.items ≡ to.old.items ++ listed (set_labels (map name_text labels.now) flags.now)) }
{
    let mut is_first = true;
    for (i, label) in labels.iter().enumerate() {
        let Some(is_set) = flags.get(i) else {
            return Ok(());
        };
        if *is_set {
            if !is_first {
                push_word(b", ", to)?;
            }
            push_name(label, to)?;
            is_first = false;
        }
    }
    Ok(())
}

/// Appends a value of a type.
#[cycle(value_text)]
#[tactic(auto, using(syntax_trees::proofs::WriterEquations::writer_of_tuple, syntax_trees::proofs::WriterEquations::writer_of_record, syntax_trees::proofs::WriterEquations::writer_of_variant, syntax_trees::proofs::WriterEquations::writer_of_result, syntax_trees::proofs::WriterEquations::writes_case, syntax_trees::proofs::WriterEquations::writes_no_case, syntax_trees::proofs::WriterEquations::writes_label, syntax_trees::proofs::WriterEquations::writes_no_label))]
fn push_value(
    alloc: Global,
    value: &Value,
    val_type: &ValType,
    to: &mut Vec<u8>,
) -> Result<(), Memory>
    ensures { OnOk result (to.new.items ≡ to.old.items ++ value_text value.now val_type.now) }
{
    match val_type {
        ValType::Record(fields) => match value {
            Value::Record(values) => {
                push_word(b"{", to)?;
                push_fields(alloc, values.as_slice(), fields.as_slice(), to)?;
                push_word(b"}", to)?;
                Ok(())
            }
            _ => Ok(()),
        },
        ValType::Variant(cases) => match value {
            Value::Variant(case, payload) => match item_at(cases.as_slice(), *case) {
                Some(case) => {
                    push_name(&case.label, to)?;
                    push_rest(alloc, payload, &case.payload, to)?;
                    Ok(())
                }
                None => Ok(()),
            },
            _ => Ok(()),
        },
        ValType::List(element) => match value {
            Value::List(values) => {
                push_word(b"[", to)?;
                push_elements(alloc, values.as_slice(), element.get(), to)?;
                push_word(b"]", to)?;
                Ok(())
            }
            _ => Ok(()),
        },
        ValType::Tuple(parts) => match value {
            Value::Record(values) => {
                push_word(b"(", to)?;
                push_parts(alloc, values.as_slice(), parts.as_slice(), to)?;
                push_word(b")", to)?;
                Ok(())
            }
            _ => Ok(()),
        },
        ValType::Flags(labels) => match value {
            Value::Flags(flags) => {
                push_word(b"{", to)?;
                push_flags(labels.as_slice(), flags.as_slice(), to)?;
                push_word(b"}", to)?;
                Ok(())
            }
            _ => Ok(()),
        },
        ValType::Enum(labels) => match value {
            Value::Variant(case, _) => match item_at(labels.as_slice(), *case) {
                Some(label) => push_name(label, to),
                None => Ok(()),
            },
            _ => Ok(()),
        },
        ValType::Option(part) => match value {
            Value::Variant(case, payload) => {
                if *case == 0 {
                    return push_word(b"none", to);
                }
                push_word(b"some", to)?;
                push_payload(alloc, payload, part.get(), to)?;
                Ok(())
            }
            _ => Ok(()),
        },
        ValType::Result { ok, err } => match value {
            Value::Variant(case, payload) => {
                if *case == 0 {
                    push_word(b"ok", to)?;
                    return push_rest(alloc, payload, ok, to);
                }
                push_word(b"err", to)?;
                push_rest(alloc, payload, err, to)?;
                Ok(())
            }
            _ => Ok(()),
        },
        _ => push_plain(alloc, value, to),
    }
}

/// The text of a value of a type, as scripts write it: `{a: 1, b: "x"}`, `some('c')`, `[1, 2]`. Characters and texts stand
/// between quotes, handles and ends are `own R1:5`, `borrow R1:5`, `stream S1` and `future F1`. The value should be of the
/// type (`fits`); of another value the text says nothing. It fails for want of memory alone.
pub fn value_text(alloc: Global, value: &Value, val_type: &ValType) -> Result<Bytes, Memory>
    ensures { IfOk result (λ text. text ≡ value_text value.now val_type.now) }
{
    let mut text = Vec::new(alloc);
    push_value(alloc, value, val_type, &mut text)?;
    Ok(Seq::from_vec(text))
}
