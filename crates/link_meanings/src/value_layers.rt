//! The types of values that are written, over the numbers of their parts.

ghost use Rattle.std.specs.Prelude.{List, Option, IfOk};
ghost use Rattle.std.specs.Option.{option_map, option_and_then};
ghost use Rattle.syntax_trees.specs.declared.types.ValType.TheVariants as leaves;
ghost use Rattle.syntax_trees.specs.declared.types.ValType.TheViews as val_type;
ghost use Rattle.comp_graph.specs.Closed.{Closed};
ghost use Rattle.link_spec.specs.ValueTypes.{close_all, close_val, close_held, close_passed, close_resource, close_field, close_case, close_parts};
ghost use Rattle.link_types.specs.Table.{IsValue, Grows};
ghost use Rattle.link_meanings.specs.Meant.{IsFoundAs};
ghost use Rattle.link_meanings.specs.Levels.{AreTypes, enclosed_types};

use crate::levels::Enclosing;
use crate::numbered::{numbered_cases, numbered_fields, numbered_places};
use crate::values::{held_of, passed_of, primitive, resource_of, value_of};
use comp_tree::{Case, DefValType, Field, ValTypeRef};
use laid_types::ValTypeLayer;
use link_types::Types;
use std::alloc::{AllocError, Global};

/// The number of the record type of fields, where each has a type.
fn record_type<'a>(
    alloc: Global,
    types: &mut Types<'a>,
    scope: &Enclosing<'_>,
    fields: &'a [Field],
) -> Result<Option<usize>, AllocError>
    ensures ok { IfOk result (λ o. (closed : List (Option Closed)) → AreTypes types.old (enclosed_types scope.now) closed → IsFoundAs (IsValue types.new) o (option_map val_type.Record (close_all (close_field closed) fields.now))) }
    ensures grows { Grows types.old types.new }
{
    let Some(fields) = numbered_fields(alloc, types, scope, fields)? else {
        return Ok(None);
    };
    let number = types.value_type(alloc, &ValTypeLayer::Record(&fields))?;
    Ok(Some(number))
}

/// The number of the variant type of cases, where each payload has a type.
fn variant_type<'a>(
    alloc: Global,
    types: &mut Types<'a>,
    scope: &Enclosing<'_>,
    cases: &'a [Case],
) -> Result<Option<usize>, AllocError>
    ensures ok { IfOk result (λ o. (closed : List (Option Closed)) → AreTypes types.old (enclosed_types scope.now) closed → IsFoundAs (IsValue types.new) o (option_map val_type.Variant (close_all (close_case closed) cases.now))) }
    ensures grows { Grows types.old types.new }
{
    let Some(cases) = numbered_cases(alloc, types, scope, cases)? else {
        return Ok(None);
    };
    let number = types.value_type(alloc, &ValTypeLayer::Variant(&cases))?;
    Ok(Some(number))
}

/// The number of the tuple type of places, where each has a type.
fn tuple_type(
    alloc: Global,
    types: &mut Types<'_>,
    scope: &Enclosing<'_>,
    places: &[ValTypeRef],
) -> Result<Option<usize>, AllocError>
    ensures ok { IfOk result (λ o. (closed : List (Option Closed)) → AreTypes types.old (enclosed_types scope.now) closed → IsFoundAs (IsValue types.new) o (option_map val_type.Tuple (close_all (close_val closed) places.now))) }
    ensures grows { Grows types.old types.new }
{
    let Some(places) = numbered_places(alloc, types, scope, places)? else {
        return Ok(None);
    };
    let number = types.value_type(alloc, &ValTypeLayer::Tuple(&places))?;
    Ok(Some(number))
}

/// The number of the list type of an element, where that has a type.
fn list_type(
    alloc: Global,
    types: &mut Types<'_>,
    scope: &Enclosing<'_>,
    element: ValTypeRef,
) -> Result<Option<usize>, AllocError>
    ensures ok { IfOk result (λ o. (closed : List (Option Closed)) → AreTypes types.old (enclosed_types scope.now) closed → IsFoundAs (IsValue types.new) o (option_map val_type.List (close_val closed element))) }
    ensures grows { Grows types.old types.new }
{
    let Some(element) = value_of(alloc, types, scope, element)? else {
        return Ok(None);
    };
    Ok(Some(types.value_type(alloc, &ValTypeLayer::List(element))?))
}

/// The number of the option type of a payload, where that has a type.
fn option_type(
    alloc: Global,
    types: &mut Types<'_>,
    scope: &Enclosing<'_>,
    payload: ValTypeRef,
) -> Result<Option<usize>, AllocError>
    ensures ok { IfOk result (λ o. (closed : List (Option Closed)) → AreTypes types.old (enclosed_types scope.now) closed → IsFoundAs (IsValue types.new) o (option_map val_type.Option (close_val closed payload))) }
    ensures grows { Grows types.old types.new }
{
    let Some(payload) = value_of(alloc, types, scope, payload)? else {
        return Ok(None);
    };
    Ok(Some(types.value_type(alloc, &ValTypeLayer::Option(payload))?))
}

/// The number of the result type of what a success and a failure hold, where what they hold has a type.
fn result_type(
    alloc: Global,
    types: &mut Types<'_>,
    scope: &Enclosing<'_>,
    ok: Option<ValTypeRef>,
    err: Option<ValTypeRef>,
) -> Result<Option<usize>, AllocError>
    ensures ok { IfOk result (λ o. (closed : List (Option Closed)) → AreTypes types.old (enclosed_types scope.now) closed → IsFoundAs (IsValue types.new) o (option_and_then (λ held. option_map (λ other. val_type.Result held other) (close_held closed err)) (close_held closed ok))) }
    ensures grows { Grows types.old types.new }
{
    let Some(ok) = held_of(alloc, types, scope, ok)? else {
        return Ok(None);
    };
    let Some(err) = held_of(alloc, types, scope, err)? else {
        return Ok(None);
    };
    let number = types.value_type(alloc, &ValTypeLayer::Result { ok, err })?;
    Ok(Some(number))
}

/// The number of the stream type of an element, if there is one, where that has a type that holds no borrowed handle.
fn stream_type(
    alloc: Global,
    types: &mut Types<'_>,
    scope: &Enclosing<'_>,
    element: Option<ValTypeRef>,
) -> Result<Option<usize>, AllocError>
    ensures ok { IfOk result (λ o. (closed : List (Option Closed)) → AreTypes types.old (enclosed_types scope.now) closed → IsFoundAs (IsValue types.new) o (option_map val_type.Stream (close_passed closed element))) }
    ensures grows { Grows types.old types.new }
{
    let Some(element) = passed_of(alloc, types, scope, element)? else {
        return Ok(None);
    };
    let number = types.value_type(alloc, &ValTypeLayer::Stream(element))?;
    Ok(Some(number))
}

/// The number of the future type of a value, if there is one, where that has a type that holds no borrowed handle.
fn future_type(
    alloc: Global,
    types: &mut Types<'_>,
    scope: &Enclosing<'_>,
    element: Option<ValTypeRef>,
) -> Result<Option<usize>, AllocError>
    ensures ok { IfOk result (λ o. (closed : List (Option Closed)) → AreTypes types.old (enclosed_types scope.now) closed → IsFoundAs (IsValue types.new) o (option_map val_type.Future (close_passed closed element))) }
    ensures grows { Grows types.old types.new }
{
    let Some(element) = passed_of(alloc, types, scope, element)? else {
        return Ok(None);
    };
    let number = types.value_type(alloc, &ValTypeLayer::Future(element))?;
    Ok(Some(number))
}

/// The number of the type of owning handles of the resource of an index, where that is one of a type of resources.
fn own_type(
    alloc: Global,
    types: &mut Types<'_>,
    scope: &Enclosing<'_>,
    index: u32,
) -> Result<Option<usize>, AllocError>
    ensures ok { IfOk result (λ o. (closed : List (Option Closed)) → AreTypes types.old (enclosed_types scope.now) closed → IsFoundAs (IsValue types.new) o (option_map leaves.Own (close_resource closed index))) }
    ensures grows { Grows types.old types.new }
{
    let Some(resource) = resource_of(scope, index)? else {
        return Ok(None);
    };
    let number = types.value_type(alloc, &ValTypeLayer::Own(resource))?;
    Ok(Some(number))
}

/// The same of borrowed handles.
fn borrow_type(
    alloc: Global,
    types: &mut Types<'_>,
    scope: &Enclosing<'_>,
    index: u32,
) -> Result<Option<usize>, AllocError>
    ensures ok { IfOk result (λ o. (closed : List (Option Closed)) → AreTypes types.old (enclosed_types scope.now) closed → IsFoundAs (IsValue types.new) o (option_map leaves.Borrow (close_resource closed index))) }
    ensures grows { Grows types.old types.new }
{
    let Some(resource) = resource_of(scope, index)? else {
        return Ok(None);
    };
    let number = types.value_type(alloc, &ValTypeLayer::Borrow(resource))?;
    Ok(Some(number))
}

/// The number of a written type, where each part has a type.
pub(crate) fn over_parts<'a>(
    alloc: Global,
    types: &mut Types<'a>,
    scope: &Enclosing<'_>,
    val_type: &'a DefValType,
) -> Result<Option<usize>, AllocError>
    ensures ok { IfOk result (λ o. (closed : List (Option Closed)) → AreTypes types.old (enclosed_types scope.now) closed → IsFoundAs (IsValue types.new) o (close_parts closed val_type.now)) }
    ensures grows { Grows types.old types.new }
{
    match val_type {
        DefValType::Primitive(leaf) => Ok(Some(primitive(alloc, types, *leaf)?)),
        DefValType::Record(fields) => Ok(record_type(alloc, types, scope, fields.as_slice())?),
        DefValType::Variant(cases) => Ok(variant_type(alloc, types, scope, cases.as_slice())?),
        DefValType::List(element) => Ok(list_type(alloc, types, scope, *element)?),
        DefValType::Tuple(places) => Ok(tuple_type(alloc, types, scope, places.as_slice())?),
        DefValType::Flags(labels) => Ok(Some(types.flags_type(alloc, labels.as_slice())?)),
        DefValType::Enum(labels) => Ok(Some(types.enum_type(alloc, labels.as_slice())?)),
        DefValType::Option(payload) => Ok(option_type(alloc, types, scope, *payload)?),
        DefValType::Result { ok, err } => Ok(result_type(alloc, types, scope, *ok, *err)?),
        DefValType::Own(resource) => Ok(own_type(alloc, types, scope, *resource)?),
        DefValType::Borrow(resource) => Ok(borrow_type(alloc, types, scope, *resource)?),
        DefValType::Stream(element) => Ok(stream_type(alloc, types, scope, *element)?),
        DefValType::Future(element) => Ok(future_type(alloc, types, scope, *element)?),
    }
}
