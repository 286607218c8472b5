//! The numbers of parts of types.

ghost use Rattle.std.specs.Prelude.{◌≡◌, List, map, Option, Some, IfOk, IfSome};
ghost use Rattle.std.specs.List.{slice_get, AllZip};
ghost use Rattle.std.specs.Option.{option_and_then};
ghost use Rattle.syntax_trees.specs.declared.types.ValType.{ValType};
ghost use Rattle.comp_graph.specs.Closed as closings;
ghost use Rattle.comp_graph.specs.Closed.{Closed};
ghost use Rattle.link_spec.specs.Types as types_read;
ghost use Rattle.link_spec.specs.Types.{close_val, close_held, close_passed};
ghost use Rattle.link_spec.specs.ValueTypes.{close_resource};
ghost use Rattle.laid_types.specs.Layers.{IsThere};
ghost use Rattle.laid_types.specs.Handles.{has_borrow, held_borrow};
ghost use Rattle.link_types.specs.Layered.{MayBeValue};
ghost use Rattle.link_types.specs.Table.{Table, IsValue, IsType, Grows};
ghost use Rattle.link_meanings.specs.Meant.{IsFoundAs};
ghost use Rattle.link_meanings.specs.Levels.{AreTypes, enclosed_types};
ghost use Rattle.link_meanings.specs.References.{value_ref, resource_ref};

use crate::levels::{Enclosing, Level};
use comp_graph::graph_number;
use comp_tree::{PrimValType, ValTypeRef};
use link_spec::layer_of;
use link_types::{TypeRef, Types};
use std::alloc::{AllocError, Global};

/// The number of a primitive type.
pub(crate) fn primitive(
    alloc: Global,
    types: &mut Types<'_>,
    val_type: PrimValType,
) -> Result<usize, AllocError>
    ensures ok { IfOk result (λ number. IsValue types.new number (types_read.primitive val_type)) }
    ensures grows { Grows types.old types.new }
{
    Ok(types.value_type(alloc, &layer_of(val_type))?)
}

/// The number that an index has, where it is that of a value type.
fn number_at(scope: &Enclosing<'_>, index: u32) -> Option<usize>
    ensures { result ≡ option_and_then (option_and_then value_ref) (slice_get (enclosed_types scope.now) index) }
{
    match scope.type_at(index)?? {
        TypeRef::Value(number) => Some(number),
        TypeRef::Func(_) | TypeRef::Resource(_) | TypeRef::Instance(_) => None,
    }
}

/// The number of the value type of an index, where it is one.
fn value_at(types: &Types<'_>, scope: &Enclosing<'_>, index: u32) -> Option<usize>
    ensures is { (closed : List (Option Closed)) → AreTypes types.now (enclosed_types scope.now) closed → IsFoundAs (IsValue types.now) result (option_and_then (option_and_then closings.value_of) (slice_get closed index)) }
    ensures there { IsThere types.now.values result }
{
    let number = number_at(scope, index)?;
    if number >= types.value_count() {
        return None;
    }
    Some(number)
}

/// The number of a part, where its index is that of a value type.
pub(crate) fn value_of(
    alloc: Global,
    types: &mut Types<'_>,
    scope: &Enclosing<'_>,
    val_type: ValTypeRef,
) -> Result<Option<usize>, AllocError>
    ensures ok { IfOk result (λ o. (closed : List (Option Closed)) → AreTypes types.old (enclosed_types scope.now) closed → IsFoundAs (IsValue types.new) o (close_val closed val_type)) }
    ensures there { IfOk result (λ o. IsThere types.new.values o) }
    ensures grows { Grows types.old types.new }
{
    match val_type {
        ValTypeRef::Primitive(val_type) => Ok(Some(primitive(alloc, types, val_type)?)),
        ValTypeRef::Index(index) => Ok(value_at(&*types, scope, index)),
    }
}

/// The same where there may be no part.
pub(crate) fn held_of(
    alloc: Global,
    types: &mut Types<'_>,
    scope: &Enclosing<'_>,
    val_type: Option<ValTypeRef>,
) -> Result<Option<Option<usize>>, AllocError>
    ensures ok { IfOk result (λ o. (closed : List (Option Closed)) → AreTypes types.old (enclosed_types scope.now) closed → IsFoundAs (MayBeValue types.new.values) o (close_held closed val_type)) }
    ensures there { IfOk result (λ o. IfSome o (λ part. IsThere types.new.values part)) }
    ensures grows { Grows types.old types.new }
{
    let Some(val_type) = val_type else {
        return Ok(Some(None));
    };
    let Some(number) = value_of(alloc, types, scope, val_type)? else {
        return Ok(None);
    };
    Ok(Some(Some(number)))
}

/// Whether the type of a number holds a borrowed handle.
fn value_borrows(types: &Types<'_>, number: usize) -> bool
    ensures { (type : ValType) → IsValue types.now number type → result ≡ has_borrow type }
{
    match types.value(number) {
        Some(val_type) => val_type.has_borrow(),
        None => false,
    }
}

/// The same where there may be none.
fn holds_borrow(types: &Types<'_>, part: Option<usize>) -> bool
    ensures { (held : Option ValType) → MayBeValue types.now.values part held → result ≡ held_borrow held }
{
    match part {
        Some(number) => value_borrows(types, number),
        None => false,
    }
}

/// The number of what passes in a stream or a future, or is a result, if anything is: its type holds no borrowed handle.
pub(crate) fn passed_of(
    alloc: Global,
    types: &mut Types<'_>,
    scope: &Enclosing<'_>,
    val_type: Option<ValTypeRef>,
) -> Result<Option<Option<usize>>, AllocError>
    ensures ok { IfOk result (λ o. (closed : List (Option Closed)) → AreTypes types.old (enclosed_types scope.now) closed → IsFoundAs (MayBeValue types.new.values) o (close_passed closed val_type)) }
    ensures there { IfOk result (λ o. IfSome o (λ part. IsThere types.new.values part)) }
    ensures grows { Grows types.old types.new }
{
    let Some(part) = held_of(alloc, types, scope, val_type)? else {
        return Ok(None);
    };
    if holds_borrow(&*types, part) {
        return Ok(None);
    }
    Ok(Some(part))
}

/// The number of the resource of an index, where that is one of a type of resources.
fn resource_number(scope: &Enclosing<'_>, index: u32) -> Option<usize>
    ensures { result ≡ option_and_then (option_and_then resource_ref) (slice_get (enclosed_types scope.now) index) }
{
    match scope.type_at(index)?? {
        TypeRef::Resource(number) => Some(number),
        TypeRef::Value(_) | TypeRef::Func(_) | TypeRef::Instance(_) => None,
    }
}

/// The same as types of handles have it. A number beyond 32 bits is want of memory.
pub(crate) fn resource_of(scope: &Enclosing<'_>, index: u32) -> Result<Option<u32>, AllocError>
    ensures { IfOk result (λ o. (t : Table) (closed : List (Option Closed)) → AreTypes t (enclosed_types scope.now) closed → o ≡ close_resource closed index) }
{
    match resource_number(scope, index) {
        Some(number) => Ok(Some(graph_number(number)?)),
        None => Ok(None),
    }
}

/// The number of what a built-in of a component instance with these types passes, if it passes something.
pub fn held_value(
    alloc: Global,
    types: &mut Types<'_>,
    own: &[TypeRef],
    val_type: Option<ValTypeRef>,
) -> Result<Option<Option<usize>>, AllocError>
    ensures ok { IfOk result (λ o. (closed : List Closed) → AllZip (IsType types.old) own.now closed → IsFoundAs (MayBeValue types.new.values) o (close_passed (map Some closed) val_type)) }
    ensures grows { Grows types.old types.new }
{
    let scope = Enclosing::Component(Level {
        types: own,
        components: &[],
    });
    passed_of(alloc, types, &scope, val_type)
}
