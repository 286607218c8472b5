//! Types put into a table, layer by layer.

ghost use Rattle.std.specs.Prelude.{◌≡◌, nat_lt, true};
ghost use Rattle.std.specs.List.{list_all};
ghost use Rattle.laid_types.specs.Layers.{AreThere, part_numbers};
ghost use Rattle.table_texts.specs.There.{is_there, layer_there};

use laid_types::{LabelledCase, LabelledPart, LaidTypes, ValTypeLayer};
use link_values::ValueTypes;
use std::alloc::Global;
use std::test::Fail;
use syntax_trees::{Case, Field, Name, Shared, ValType};

/// Whether a number, if there is one, is below a count.
fn is_there(count: usize, number: Option<usize>) -> bool
    ensures { result ≡ is_there count number }
{
    match number {
        Some(number) => number < count,
        None => true,
    }
}

/// Whether the types of fields are there.
fn fields_there(count: usize, fields: &[LabelledPart<'_>]) -> bool
    ensures { result ≡ list_all (λ f. nat_lt f.number count) fields.now }
{
    fields.iter().all(|field| field.number < count)
}

/// Whether the types of payloads are there.
fn payloads_there(count: usize, cases: &[LabelledCase<'_>]) -> bool
    ensures { result ≡ list_all (λ c. is_there count c.payload) cases.now }
{
    cases.iter().all(|case| is_there(count, case.payload))
}

/// Whether the types of places are there.
fn places_there(count: usize, numbers: &[usize]) -> bool
    ensures { result ≡ list_all (λ n. nat_lt n count) numbers.now }
{
    numbers.iter().all(|number| *number < count)
}

/// Whether the parts of a layer are among so many types.
fn layer_there(count: usize, layer: &ValTypeLayer<'_, '_>) -> bool
    ensures { result ≡ layer_there count layer.now }
{
    match layer {
        ValTypeLayer::Record(fields) => fields_there(count, fields),
        ValTypeLayer::Variant(cases) => payloads_there(count, cases),
        ValTypeLayer::Tuple(numbers) => places_there(count, numbers),
        ValTypeLayer::List(part) | ValTypeLayer::Option(part) => *part < count,
        ValTypeLayer::Stream(part) | ValTypeLayer::Future(part) => is_there(count, *part),
        ValTypeLayer::Result { ok, err } => is_there(count, *ok) && is_there(count, *err),
        _ => true,
    }
}

/// Whether the parts of a layer are among types of which none stands twice.
#[tactic(auto, using(crate::proofs::There::layer_is_there))]
fn are_there_once(types: &ValueTypes<'_>, layer: &ValTypeLayer<'_, '_>) -> bool
    ensures { result ≡ true → AreThere types.now (part_numbers layer.now) }
{
    layer_there(types.len(), layer)
}

/// The number of the type of a layer among types of which none stands twice. It is added where it is not there.
fn add_once<'a>(
    alloc: Global,
    types: &mut ValueTypes<'a>,
    layer: &ValTypeLayer<'_, 'a>,
) -> Result<usize, Fail> {
    if !are_there_once(types, layer) {
        return Err(Fail::new("no part"));
    }
    Ok(types.number_of(alloc, layer)?)
}

/// Whether the parts of a layer are there.
#[tactic(auto, using(crate::proofs::There::layer_is_there))]
fn are_there(types: &LaidTypes, layer: &ValTypeLayer<'_, '_>) -> bool
    ensures { result ≡ true → AreThere types.now (part_numbers layer.now) }
{
    layer_there(types.len(), layer)
}

/// Adds the type of a layer to a table, and answers its number.
pub(crate) fn add(
    alloc: Global,
    types: &mut LaidTypes,
    layer: &ValTypeLayer<'_, '_>,
) -> Result<usize, Fail> {
    if !are_there(types, layer) {
        return Err(Fail::new("no part"));
    }
    Ok(types.add(alloc, layer)?)
}

/// The layer of a type without parts. Any other is taken as one of truth values.
fn plain_layer(val_type: &ValType) -> ValTypeLayer<'static, 'static> {
    match val_type {
        ValType::S8 => ValTypeLayer::S8,
        ValType::U8 => ValTypeLayer::U8,
        ValType::S16 => ValTypeLayer::S16,
        ValType::U16 => ValTypeLayer::U16,
        ValType::S32 => ValTypeLayer::S32,
        ValType::U32 => ValTypeLayer::U32,
        ValType::S64 => ValTypeLayer::S64,
        ValType::U64 => ValTypeLayer::U64,
        ValType::Char => ValTypeLayer::Char,
        ValType::String => ValTypeLayer::String,
        ValType::Own(resource) => ValTypeLayer::Own(*resource),
        ValType::Borrow(resource) => ValTypeLayer::Borrow(*resource),
        _ => ValTypeLayer::Bool,
    }
}

/// The texts of labels.
fn texts<'a>(alloc: Global, labels: &'a [Name]) -> Result<Vec<&'a str>, Fail> {
    let mut texts = Vec::new(alloc);
    for label in labels {
        texts.push(label.as_str())?;
    }
    Ok(texts)
}

/// Puts flags into a table.
fn put_flags<'a>(
    alloc: Global,
    types: &mut ValueTypes<'a>,
    labels: &'a [Name],
) -> Result<usize, Fail> {
    let labels = texts(alloc, labels)?;
    add_once(alloc, types, &ValTypeLayer::Flags(&labels))
}

/// Puts an enum into a table.
fn put_enum<'a>(
    alloc: Global,
    types: &mut ValueTypes<'a>,
    labels: &'a [Name],
) -> Result<usize, Fail> {
    let labels = texts(alloc, labels)?;
    add_once(alloc, types, &ValTypeLayer::Enum(&labels))
}

/// Puts a record into a table.
#[cycle(putting)]
fn put_record<'a>(
    alloc: Global,
    types: &mut ValueTypes<'a>,
    fields: &'a [Field],
) -> Result<usize, Fail> {
    let mut parts = Vec::new(alloc);
    for field in fields {
        let number = put(alloc, types, field.val_type.get())?;
        let label = field.label.as_str();
        parts.push(LabelledPart { label, number })?;
    }
    add_once(alloc, types, &ValTypeLayer::Record(&parts))
}

/// Puts a variant into a table.
#[cycle(putting)]
fn put_variant<'a>(
    alloc: Global,
    types: &mut ValueTypes<'a>,
    cases: &'a [Case],
) -> Result<usize, Fail> {
    let mut parts = Vec::new(alloc);
    for case in cases {
        let payload = put_payload(alloc, types, &case.payload)?;
        let label = case.label.as_str();
        parts.push(LabelledCase { label, payload })?;
    }
    add_once(alloc, types, &ValTypeLayer::Variant(&parts))
}

/// Puts a tuple into a table.
#[cycle(putting)]
fn put_tuple<'a>(
    alloc: Global,
    types: &mut ValueTypes<'a>,
    places: &'a [Shared<ValType>],
) -> Result<usize, Fail> {
    let mut parts = Vec::new(alloc);
    for part in places {
        parts.push(put(alloc, types, part.get())?)?;
    }
    add_once(alloc, types, &ValTypeLayer::Tuple(&parts))
}

/// Puts the type of a payload into a table, where there is one.
#[cycle(putting)]
fn put_payload<'a>(
    alloc: Global,
    types: &mut ValueTypes<'a>,
    payload: &'a Option<Shared<ValType>>,
) -> Result<Option<usize>, Fail> {
    match payload {
        Some(part) => Ok(Some(put(alloc, types, part.get())?)),
        None => Ok(None),
    }
}

/// Puts a type into a table, its parts first, and answers its number.
#[cycle(putting)]
pub(crate) fn put<'a>(
    alloc: Global,
    types: &mut ValueTypes<'a>,
    val_type: &'a ValType,
) -> Result<usize, Fail> {
    match val_type {
        ValType::Record(fields) => put_record(alloc, types, fields.as_slice()),
        ValType::Variant(cases) => put_variant(alloc, types, cases.as_slice()),
        ValType::Tuple(places) => put_tuple(alloc, types, places.as_slice()),
        ValType::Flags(labels) => put_flags(alloc, types, labels.as_slice()),
        ValType::Enum(labels) => put_enum(alloc, types, labels.as_slice()),
        ValType::List(part) => {
            let part = put(alloc, types, part.get())?;
            add_once(alloc, types, &ValTypeLayer::List(part))
        }
        ValType::Option(part) => {
            let part = put(alloc, types, part.get())?;
            add_once(alloc, types, &ValTypeLayer::Option(part))
        }
        ValType::Result { ok, err } => {
            let ok = put_payload(alloc, types, ok)?;
            let err = put_payload(alloc, types, err)?;
            add_once(alloc, types, &ValTypeLayer::Result { ok, err })
        }
        ValType::Stream(part) => {
            let part = put_payload(alloc, types, part)?;
            add_once(alloc, types, &ValTypeLayer::Stream(part))
        }
        ValType::Future(part) => {
            let part = put_payload(alloc, types, part)?;
            add_once(alloc, types, &ValTypeLayer::Future(part))
        }
        plain => add_once(alloc, types, &plain_layer(plain)),
    }
}
