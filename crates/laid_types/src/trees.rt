//! Types of layers.

ghost use Rattle.std.specs.Prelude.{◌≡◌, map, Some, IfOk};
ghost use Rattle.std.specs.Option.{option_map};
ghost use Rattle.laid_types.specs.Layers.{AreThere, IsThere, tree_at, field_of, case_of, type_of, part_numbers};

use crate::layer::{LabelledCase, LabelledPart, ValTypeLayer};
use crate::types::LaidTypes;
use std::alloc::{AllocError, Global};
use syntax_trees::{Case, Field, Name, Seq, Shared, ValType};

/// Names of labels.
fn names(alloc: Global, labels: &[&str]) -> Result<Seq<Name>, AllocError>
    ensures { IfOk result (λ names. names ≡ map (λ l. l.now) labels.now) }
{
    let mut names = Seq::new(alloc);
    for label in labels {
        names.push(Name::new(alloc, label)?)?;
    }
    Ok(names)
}

/// The type of a payload, where there is one.
fn payload(types: &LaidTypes, number: Option<usize>) -> Result<Option<Shared<ValType>>, AllocError>
    requires { IsThere types.now number }
    ensures { IfOk result (λ t. t ≡ option_map (tree_at types.now) number) }
{
    match number {
        Some(number) => Ok(Some(types.share(number)?)),
        None => Ok(None),
    }
}

/// Fields of a record.
fn fields(
    alloc: Global,
    types: &LaidTypes,
    labelled: &[LabelledPart<'_>],
) -> Result<Seq<Field>, AllocError>
    requires { AreThere types.now (map (λ f. Some f.number) labelled.now) }
    ensures { IfOk result (λ fields. fields ≡ map (field_of types.now) labelled.now) }
{
    let mut fields = Seq::new(alloc);
    for field in labelled {
        fields.push(Field {
            label: Name::new(alloc, field.label)?,
            val_type: types.share(field.number)?,
        })?;
    }
    Ok(fields)
}

/// Cases of a variant.
fn cases(
    alloc: Global,
    types: &LaidTypes,
    labelled: &[LabelledCase<'_>],
) -> Result<Seq<Case>, AllocError>
    requires { AreThere types.now (map (λ c. c.payload) labelled.now) }
    ensures { IfOk result (λ cases. cases ≡ map (case_of types.now) labelled.now) }
{
    let mut cases = Seq::new(alloc);
    for case in labelled {
        cases.push(Case {
            label: Name::new(alloc, case.label)?,
            payload: payload(types, case.payload)?,
        })?;
    }
    Ok(cases)
}

/// Places of a tuple.
fn places(
    alloc: Global,
    types: &LaidTypes,
    numbers: &[usize],
) -> Result<Seq<Shared<ValType>>, AllocError>
    requires { AreThere types.now (map Some numbers.now) }
    ensures { IfOk result (λ places. places ≡ map (tree_at types.now) numbers.now) }
{
    let mut places = Seq::new(alloc);
    for number in numbers {
        places.push(types.share(*number)?)?;
    }
    Ok(places)
}

/// The type of a layer.
pub(crate) fn type_of(
    alloc: Global,
    types: &LaidTypes,
    layer: &ValTypeLayer<'_, '_>,
) -> Result<ValType, AllocError>
    requires { AreThere types.now (part_numbers layer.now) }
    ensures { IfOk result (λ t. t ≡ type_of types.now layer.now) }
{
    match layer {
        ValTypeLayer::Bool => Ok(ValType::Bool),
        ValTypeLayer::S8 => Ok(ValType::S8),
        ValTypeLayer::U8 => Ok(ValType::U8),
        ValTypeLayer::S16 => Ok(ValType::S16),
        ValTypeLayer::U16 => Ok(ValType::U16),
        ValTypeLayer::S32 => Ok(ValType::S32),
        ValTypeLayer::U32 => Ok(ValType::U32),
        ValTypeLayer::S64 => Ok(ValType::S64),
        ValTypeLayer::U64 => Ok(ValType::U64),
        ValTypeLayer::Char => Ok(ValType::Char),
        ValTypeLayer::String => Ok(ValType::String),
        ValTypeLayer::Record(of) => Ok(ValType::Record(fields(alloc, types, of)?)),
        ValTypeLayer::Variant(of) => Ok(ValType::Variant(cases(alloc, types, of)?)),
        ValTypeLayer::List(element) => Ok(ValType::List(types.share(*element)?)),
        ValTypeLayer::Tuple(of) => Ok(ValType::Tuple(places(alloc, types, of)?)),
        ValTypeLayer::Flags(labels) => Ok(ValType::Flags(names(alloc, labels)?)),
        ValTypeLayer::Enum(labels) => Ok(ValType::Enum(names(alloc, labels)?)),
        ValTypeLayer::Option(of) => Ok(ValType::Option(types.share(*of)?)),
        ValTypeLayer::Result { ok, err } => Ok(ValType::Result {
            ok: payload(types, *ok)?,
            err: payload(types, *err)?,
        }),
        ValTypeLayer::Own(resource) => Ok(ValType::Own(*resource)),
        ValTypeLayer::Borrow(resource) => Ok(ValType::Borrow(*resource)),
        ValTypeLayer::Stream(element) => Ok(ValType::Stream(payload(types, *element)?)),
        ValTypeLayer::Future(element) => Ok(ValType::Future(payload(types, *element)?)),
    }
}
