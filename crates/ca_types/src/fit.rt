//! Whether values are of their types.

ghost use Rattle.std.specs.Prelude.{◌≡◌, map};
ghost use Rattle.syntax_trees.specs.Fits.{fits, test_of, payload_test, each_passes, all_pass, payload_passes};

use syntax_trees::{Boxed, Field, Shared, ValType, Value, item_at};

/// Whether there are as many values as fields, each of the type of its field.
#[cycle(fits)]
#[tactic(auto, using(syntax_trees::proofs::FitsEquations::passes_no_other_length, syntax_trees::proofs::FitsEquations::fits_of_tuple, syntax_trees::proofs::FitsEquations::fits_of_record, syntax_trees::proofs::FitsEquations::fits_of_variant, syntax_trees::proofs::FitsEquations::fits_of_result, syntax_trees::proofs::FitsEquations::passes_case, syntax_trees::proofs::FitsEquations::passes_no_case))]
fn fields_fit(values: &[Value], fields: &[Field]) -> bool
    ensures { result ≡ each_passes (map (λ f. test_of f.val_type) fields.now) values.now }
{
    if values.len() != fields.len() {
        return false;
    }
    for (i, value) in values.iter().enumerate() {
        if !fits(value, fields[i].val_type.get()) {
            return false;
        }
    }
    true
}

/// Whether there are as many values as types, each of its type.
#[cycle(fits)]
#[tactic(auto, using(syntax_trees::proofs::FitsEquations::passes_no_other_length, syntax_trees::proofs::FitsEquations::fits_of_tuple, syntax_trees::proofs::FitsEquations::fits_of_record, syntax_trees::proofs::FitsEquations::fits_of_variant, syntax_trees::proofs::FitsEquations::fits_of_result, syntax_trees::proofs::FitsEquations::passes_case, syntax_trees::proofs::FitsEquations::passes_no_case))]
fn parts_fit(values: &[Value], parts: &[Shared<ValType>]) -> bool
    ensures { result ≡ each_passes (map test_of parts.now) values.now }
{
    if values.len() != parts.len() {
        return false;
    }
    for (place, value) in values.iter().enumerate() {
        if !fits(value, parts[place].get()) {
            return false;
        }
    }
    true
}

/// Whether all values are of a type.
#[cycle(fits)]
#[tactic(auto, using(syntax_trees::proofs::FitsEquations::passes_no_other_length, syntax_trees::proofs::FitsEquations::fits_of_tuple, syntax_trees::proofs::FitsEquations::fits_of_record, syntax_trees::proofs::FitsEquations::fits_of_variant, syntax_trees::proofs::FitsEquations::fits_of_result, syntax_trees::proofs::FitsEquations::passes_case, syntax_trees::proofs::FitsEquations::passes_no_case))]
fn all_fit(values: &[Value], element: &ValType) -> bool
    ensures { result ≡ all_pass (test_of element.now) values.now }
{
    for value in values {
        if !fits(value, element) {
            return false;
        }
    }
    true
}

/// Whether a payload is there exactly where it has a type, and is of that type.
#[cycle(fits)]
#[tactic(auto, using(syntax_trees::proofs::FitsEquations::passes_no_other_length, syntax_trees::proofs::FitsEquations::fits_of_tuple, syntax_trees::proofs::FitsEquations::fits_of_record, syntax_trees::proofs::FitsEquations::fits_of_variant, syntax_trees::proofs::FitsEquations::fits_of_result, syntax_trees::proofs::FitsEquations::passes_case, syntax_trees::proofs::FitsEquations::passes_no_case))]
fn payload_fits(payload: &Option<Boxed<Value>>, part: &Option<Shared<ValType>>) -> bool
    ensures { result ≡ payload_passes (payload_test part.now) payload.now }
{
    match part {
        Some(part) => match payload {
            Some(value) => fits(value.get(), part.get()),
            None => false,
        },
        None => payload.is_none(),
    }
}

/// Whether a value is of a type. A handle is of the type of handles to its resource, and every stream or future is of each
/// type of streams or futures.
#[cycle(fits)]
#[tactic(auto, using(syntax_trees::proofs::FitsEquations::passes_no_other_length, syntax_trees::proofs::FitsEquations::fits_of_tuple, syntax_trees::proofs::FitsEquations::fits_of_record, syntax_trees::proofs::FitsEquations::fits_of_variant, syntax_trees::proofs::FitsEquations::fits_of_result, syntax_trees::proofs::FitsEquations::passes_case, syntax_trees::proofs::FitsEquations::passes_no_case))]
pub fn fits(value: &Value, val_type: &ValType) -> bool
    ensures { result ≡ fits value.now val_type.now }
{
    match val_type {
        ValType::Bool => matches!(value, Value::Bool(_)),
        ValType::S8 => matches!(value, Value::S8(_)),
        ValType::U8 => matches!(value, Value::U8(_)),
        ValType::S16 => matches!(value, Value::S16(_)),
        ValType::U16 => matches!(value, Value::U16(_)),
        ValType::S32 => matches!(value, Value::S32(_)),
        ValType::U32 => matches!(value, Value::U32(_)),
        ValType::S64 => matches!(value, Value::S64(_)),
        ValType::U64 => matches!(value, Value::U64(_)),
        ValType::Char => matches!(value, Value::Char(_)),
        ValType::String => matches!(value, Value::String(_)),
        ValType::Record(fields) => match value {
            Value::Record(values) => fields_fit(values.as_slice(), fields.as_slice()),
            _ => false,
        },
        ValType::Variant(cases) => match value {
            Value::Variant(case, payload) => match item_at(cases.as_slice(), *case) {
                Some(case) => payload_fits(payload, &case.payload),
                None => false,
            },
            _ => false,
        },
        ValType::List(element) => match value {
            Value::List(values) => all_fit(values.as_slice(), element.get()),
            _ => false,
        },
        ValType::Tuple(parts) => match value {
            Value::Record(values) => parts_fit(values.as_slice(), parts.as_slice()),
            _ => false,
        },
        ValType::Flags(labels) => match value {
            Value::Flags(flags) => flags.len() == labels.len(),
            _ => false,
        },
        ValType::Enum(labels) => match value {
            Value::Variant(case, None) => (*case as usize) < labels.len(),
            _ => false,
        },
        ValType::Option(part) => match value {
            Value::Variant(0, payload) => payload.is_none(),
            Value::Variant(1, Some(payload)) => fits(payload.get(), part.get()),
            _ => false,
        },
        ValType::Result { ok, err } => match value {
            Value::Variant(0, payload) => payload_fits(payload, ok),
            Value::Variant(1, payload) => payload_fits(payload, err),
            _ => false,
        },
        ValType::Own(resource) => match value {
            Value::Own(handle) => handle.resource == *resource,
            _ => false,
        },
        ValType::Borrow(resource) => match value {
            Value::Borrow(handle) => handle.resource == *resource,
            _ => false,
        },
        ValType::Stream(_) => matches!(value, Value::Stream(_)),
        ValType::Future(_) => matches!(value, Value::Future(_)),
    }
}
