//! What a type needs as it is written: labels or places, and indices that are there (Component Model, Explainer.md, "Type
//! Definitions").

ghost use Rattle.std.specs.Prelude.{◌≡◌, nat_lt, map, is_none, IfOk};
ghost use Rattle.std.specs.List.{list_all};
ghost use Rattle.syntax_trees.specs.Names.{first_twice};
ghost use Rattle.comp_tree.specs.declared.types.Field.{Field};
ghost use Rattle.comp_tree.specs.declared.types.Case.{Case};
ghost use Rattle.link_spec.specs.Types as types_read;
ghost use Rattle.link_spec.specs.ValueTypes as value_types;

use ca_base::first_twice;
use comp_tree::{Case, DefValType, Field, FuncType, Param, ValTypeRef};
use std::alloc::{AllocError, Global};
use syntax_trees::{Name, Named};

/// How many labels flags may have.
const FLAGS_LIMIT: usize = 32;

/// A label.
#[derive(Clone, Copy)]
struct Label<'a> {
    text: &'a str,
}

impl Named for Label<'_> {
    ghost name = { λ l. l.text.now };

    fn name(&self) -> &str {
        self.text
    }
}

/// Whether there is a label, and none stands twice.
fn are_labels<T: Named>(alloc: Global, items: &[T]) -> Result<bool, AllocError>
    ensures { IfOk result (λ are. are ≡ value_types.are_labels (map T.name items.now)) }
{
    if items.is_empty() {
        return Ok(false);
    }
    Ok(first_twice(alloc, items)?.is_none())
}

/// Whether there is a label, and none stands twice, of labels that stand alone.
fn are_bare_labels(alloc: Global, labels: &[Name]) -> Result<bool, AllocError>
    ensures { IfOk result (λ are. are ≡ value_types.are_labels labels.now) }
{
    let mut bare = Vec::new(alloc);
    for label in labels {
        bare.push(Label {
            text: label.as_str(),
        })?;
    }
    Ok(are_labels(alloc, &bare)?)
}

/// Whether a type of values has the labels or places that it needs, as it is written. It fails for want of memory alone.
pub fn is_well_made(alloc: Global, val_type: &DefValType) -> Result<bool, AllocError>
    ensures { IfOk result (λ is. is ≡ value_types.is_well_made val_type.now) }
{
    match val_type {
        DefValType::Record(fields) => Ok(are_labels(alloc, fields.as_slice())?),
        DefValType::Variant(cases) => Ok(are_labels(alloc, cases.as_slice())?),
        DefValType::Tuple(places) => Ok(!places.is_empty()),
        DefValType::Flags(labels) => {
            Ok(are_bare_labels(alloc, labels.as_slice())? && labels.len() <= FLAGS_LIMIT)
        }
        DefValType::Enum(labels) => Ok(are_bare_labels(alloc, labels.as_slice())?),
        _ => Ok(true),
    }
}

/// Whether the index of a part is below a count.
fn is_within(count: usize, val_type: ValTypeRef) -> bool
    ensures { result ≡ value_types.is_within count val_type }
{
    match val_type {
        ValTypeRef::Primitive(_) => true,
        ValTypeRef::Index(index) => (index as usize) < count,
    }
}

/// Whether the index of a part is below a count, if there is one.
pub fn held_within(count: usize, part: Option<ValTypeRef>) -> bool
    ensures { result ≡ value_types.held_within count part }
{
    match part {
        Some(val_type) => is_within(count, val_type),
        None => true,
    }
}

/// Whether the indices of fields are below a count.
fn fields_within(count: usize, fields: &[Field]) -> bool
    ensures { result ≡ list_all (λ (f : Field). value_types.is_within count f.val_type) fields.now }
{
    fields.iter().all(|field| is_within(count, field.val_type))
}

/// Whether the indices of payloads are below a count.
fn payloads_within(count: usize, cases: &[Case]) -> bool
    ensures { result ≡ list_all (λ (c : Case). value_types.held_within count c.payload) cases.now }
{
    cases.iter().all(|case| held_within(count, case.payload))
}

/// Whether the indices of places are below a count.
fn places_within(count: usize, places: &[ValTypeRef]) -> bool
    ensures { result ≡ list_all (value_types.is_within count) places.now }
{
    places.iter().all(|place| is_within(count, *place))
}

/// Whether the index of a type of resources is below a count.
fn resource_within(count: usize, resource: u32) -> bool
    ensures { result ≡ nat_lt resource count }
{
    (resource as usize) < count
}

/// Whether the indices of all parts of a type of values are below a count.
pub fn parts_within(count: usize, val_type: &DefValType) -> bool
    ensures { result ≡ value_types.parts_within count val_type.now }
{
    match val_type {
        DefValType::Record(fields) => fields_within(count, fields.as_slice()),
        DefValType::Variant(cases) => payloads_within(count, cases.as_slice()),
        DefValType::List(element) => is_within(count, *element),
        DefValType::Tuple(places) => places_within(count, places.as_slice()),
        DefValType::Option(payload) => is_within(count, *payload),
        DefValType::Result { ok, err } => held_within(count, *ok) && held_within(count, *err),
        DefValType::Own(resource) => resource_within(count, *resource),
        DefValType::Borrow(resource) => resource_within(count, *resource),
        DefValType::Stream(element) => held_within(count, *element),
        DefValType::Future(element) => held_within(count, *element),
        _ => true,
    }
}

/// Whether no label of parameters stands twice. It fails for want of memory alone.
pub fn labels_are_distinct(alloc: Global, params: &[Param]) -> Result<bool, AllocError>
    ensures { IfOk result (λ distinct. distinct ≡ is_none (first_twice (map (λ p. p.label) params.now))) }
{
    Ok(first_twice(alloc, params)?.is_none())
}

/// Whether the indices of parameters are below a count.
fn params_within(count: usize, params: &[Param]) -> bool
    ensures { result ≡ list_all (λ p. value_types.is_within count p.val_type) params.now }
{
    params.iter().all(|param| is_within(count, param.val_type))
}

/// Whether all indices in a function type are below a count.
pub fn all_within(count: usize, func_type: &FuncType) -> bool
    ensures { result ≡ types_read.all_within count func_type.now }
{
    params_within(count, func_type.params.as_slice()) && held_within(count, func_type.result)
}
