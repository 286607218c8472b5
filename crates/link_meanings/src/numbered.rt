//! The numbers of fields, cases and places.

ghost use Rattle.std.specs.Prelude.{◌≡◌, ◌<◌, List, length, map, Option, Some, IfOk, IfSome};
ghost use Rattle.std.specs.List.{AllZip};
ghost use Rattle.comp_graph.specs.Closed.{Closed};
ghost use Rattle.link_spec.specs.ValueTypes.{close_all, close_val, close_field, close_case};
ghost use Rattle.laid_types.specs.declared.layer.LabelledPart.{LabelledPart};
ghost use Rattle.laid_types.specs.declared.layer.LabelledCase.{LabelledCase};
ghost use Rattle.laid_types.specs.Layers.{IsThere, AreThere};
ghost use Rattle.link_types.specs.Table.{Grows};
ghost use Rattle.link_meanings.specs.Meant.{IsFoundAs};
ghost use Rattle.link_meanings.specs.Levels.{AreTypes, enclosed_types};
ghost use Rattle.link_meanings.specs.Numbered.{IsField, IsCase, IsPlace};

use crate::levels::Enclosing;
use crate::values::{held_of, value_of};
use comp_tree::{Case, Field, ValTypeRef};
use laid_types::{LabelledCase, LabelledPart};
use link_types::Types;
use std::alloc::{AllocError, Global};

/// A field with the number of its type, where it has one.
fn numbered_field<'a>(
    alloc: Global,
    types: &mut Types<'_>,
    scope: &Enclosing<'_>,
    field: &'a Field,
) -> Result<Option<LabelledPart<'a>>, AllocError>
    ensures ok { IfOk result (λ o. (closed : List (Option Closed)) → AreTypes types.old (enclosed_types scope.now) closed → IsFoundAs (IsField types.new.values) o (close_field closed field.now)) }
    ensures there { IfOk result (λ o. IfSome o (λ f. f.number < length types.new.values)) }
    ensures grows { Grows types.old types.new }
{
    let Some(number) = value_of(alloc, types, scope, field.val_type)? else {
        return Ok(None);
    };
    Ok(Some(LabelledPart {
        label: field.label.as_str(),
        number,
    }))
}

/// Fields with the numbers of their types, where each has one.
pub(crate) fn numbered_fields<'a>(
    alloc: Global,
    types: &mut Types<'_>,
    scope: &Enclosing<'_>,
    fields: &'a [Field],
) -> Result<Option<Vec<LabelledPart<'a>>>, AllocError>
    ensures ok { IfOk result (λ o. (closed : List (Option Closed)) → AreTypes types.old (enclosed_types scope.now) closed → IsFoundAs (λ v all. AllZip (IsField types.new.values) v.items all) o (close_all (close_field closed) fields.now)) }
    ensures there { IfOk result (λ o. IfSome o (λ v. AreThere types.new.values (map (λ (f : LabelledPart). Some f.number) v.items))) }
    ensures grows { Grows types.old types.new }
{
    let mut all = Vec::new(alloc);
    for field in fields {
        match numbered_field(alloc, types, scope, field)? {
            Some(field) => all.push(field)?,
            None => return Ok(None),
        }
    }
    Ok(Some(all))
}

/// A case with the number of its payload's type, where that has one.
fn numbered_case<'a>(
    alloc: Global,
    types: &mut Types<'_>,
    scope: &Enclosing<'_>,
    case: &'a Case,
) -> Result<Option<LabelledCase<'a>>, AllocError>
    ensures ok { IfOk result (λ o. (closed : List (Option Closed)) → AreTypes types.old (enclosed_types scope.now) closed → IsFoundAs (IsCase types.new.values) o (close_case closed case.now)) }
    ensures there { IfOk result (λ o. IfSome o (λ c. IsThere types.new.values c.payload)) }
    ensures grows { Grows types.old types.new }
{
    let Some(payload) = held_of(alloc, types, scope, case.payload)? else {
        return Ok(None);
    };
    Ok(Some(LabelledCase {
        label: case.label.as_str(),
        payload,
    }))
}

/// Cases with the numbers of the types of their payloads, where each has one.
pub(crate) fn numbered_cases<'a>(
    alloc: Global,
    types: &mut Types<'_>,
    scope: &Enclosing<'_>,
    cases: &'a [Case],
) -> Result<Option<Vec<LabelledCase<'a>>>, AllocError>
    ensures ok { IfOk result (λ o. (closed : List (Option Closed)) → AreTypes types.old (enclosed_types scope.now) closed → IsFoundAs (λ v all. AllZip (IsCase types.new.values) v.items all) o (close_all (close_case closed) cases.now)) }
    ensures there { IfOk result (λ o. IfSome o (λ v. AreThere types.new.values (map (λ (c : LabelledCase). c.payload) v.items))) }
    ensures grows { Grows types.old types.new }
{
    let mut all = Vec::new(alloc);
    for case in cases {
        match numbered_case(alloc, types, scope, case)? {
            Some(case) => all.push(case)?,
            None => return Ok(None),
        }
    }
    Ok(Some(all))
}

/// The numbers of places, where each has one.
pub(crate) fn numbered_places(
    alloc: Global,
    types: &mut Types<'_>,
    scope: &Enclosing<'_>,
    places: &[ValTypeRef],
) -> Result<Option<Vec<usize>>, AllocError>
    ensures ok { IfOk result (λ o. (closed : List (Option Closed)) → AreTypes types.old (enclosed_types scope.now) closed → IsFoundAs (λ v all. AllZip (IsPlace types.new.values) v.items all) o (close_all (close_val closed) places.now)) }
    ensures there { IfOk result (λ o. IfSome o (λ v. AreThere types.new.values (map Some v.items))) }
    ensures grows { Grows types.old types.new }
{
    let mut all = Vec::new(alloc);
    for place in places {
        match value_of(alloc, types, scope, *place)? {
            Some(number) => all.push(number)?,
            None => return Ok(None),
        }
    }
    Ok(Some(all))
}
