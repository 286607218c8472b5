//! What exports of instance types are to be, and the resources that they bring.

ghost use Rattle.std.specs.Prelude.{◌≡◌, ◌≤◌, ◌+◌, Option, Some, IfOk};
ghost use Rattle.std.specs.Option.{option_and_then};
ghost use Rattle.comp_graph.specs.Closed.{Closed, Resource, OfType, externs_of};
ghost use Rattle.link_values.specs.Resources.{resource_room, first_brought};
ghost use Rattle.link_spec.specs.Types as types_read;
ghost use Rattle.link_spec.specs.Types.{found, as_exported, brought_by, described, brings};
ghost use Rattle.link_types.specs.Table.{Table, IsType, IsExtern, Grows};
ghost use Rattle.link_meanings.specs.Meant.{IsFoundAs, IsMeaning};
ghost use Rattle.link_meanings.specs.Levels.{AreTypes, enclosed_types};

use crate::bringing::brought;
use comp_tree::ExternDesc;
use link_meanings::{Enclosing, described, moved_extern};
use link_types::{Change, ExternRef, Meant, RESOURCE_ROOM, TypeRef, Types, first_brought};
use std::alloc::{AllocError, Global};

/// A sum of counts. It fails where it has no room, and the other functions here for want of memory alone.
fn sum(count: usize, more: usize) -> Result<usize, AllocError>
    ensures { IfOk result (λ all. all ≡ count + more) }
{
    match count.checked_add(more) {
        Some(all) => Ok(all),
        None => Err(AllocError),
    }
}

/// How many resources are brought with so many more. It fails where a type of instances may not bring as many: behind so many stand the
/// numbers of what the type of instances around it brings.
pub(crate) fn brought_with(count: usize, more: usize) -> Result<usize, AllocError>
    ensures { IfOk result (λ all. (all ≡ count + more) × (all ≤ resource_room)) }
{
    let all = sum(count, more)?;
    if all > RESOURCE_ROOM {
        return Err(AllocError);
    }
    Ok(all)
}

/// What an export is to be that may be any type of resources: the next one that is brought, behind so many.
fn next_resource<'a>(resources: usize) -> Result<Meant<'a, ExternRef>, AllocError>
    ensures { IfOk result (λ m. (t : Table) → IsMeaning (IsExtern t) m (types_read.meant (Some (OfType (Resource (first_brought 0 + resources)))))) }
{
    let number = sum(first_brought(0)?, resources)?;
    Ok(Meant::there(Some(ExternRef::Type(TypeRef::Resource(number)))))
}

/// What an export is to be that is an instance of a type: what that brings stands behind so many.
fn instance_behind(
    alloc: Global,
    types: &mut Types<'_>,
    resources: usize,
    closed: TypeRef,
) -> Result<Option<ExternRef>, AllocError>
    ensures ok { IfOk result (λ o. (type : Closed) → IsType types.old closed type → IsFoundAs (IsExtern types.new) o (as_exported resources type)) }
    ensures grows { Grows types.old types.new }
{
    match closed {
        TypeRef::Instance(instance_type) => {
            let item = ExternRef::Instance(instance_type);
            let moved = moved_extern(alloc, types, item, Change::BroughtBehind(resources))?;
            Ok(Some(moved))
        }
        TypeRef::Value(_) | TypeRef::Func(_) | TypeRef::Resource(_) => Ok(None),
    }
}

/// The same, where the type of an index may not be there, or may have no meaning.
fn instance_described<'a>(
    alloc: Global,
    types: &mut Types<'_>,
    resources: usize,
    known: Option<Option<TypeRef>>,
) -> Result<Meant<'a, ExternRef>, AllocError>
    ensures ok { IfOk result (λ m. (o : Option (Option Closed)) → IsFoundAs (IsFoundAs (IsType types.old)) known o → IsMeaning (IsExtern types.new) m (found (as_exported resources) o)) }
    ensures grows { Grows types.old types.new }
{
    match known {
        None => Ok(Meant::absent()),
        Some(None) => Ok(Meant::there(None)),
        Some(Some(closed)) => {
            let item = instance_behind(alloc, types, resources, closed)?;
            Ok(Meant::there(item))
        }
    }
}

/// What an export of an instance type is to be, which brings so many resources so far.
pub(crate) fn export_described<'a>(
    alloc: Global,
    types: &mut Types<'_>,
    scope: &Enclosing<'_>,
    resources: usize,
    desc: ExternDesc,
) -> Result<Meant<'a, ExternRef>, AllocError>
    ensures ok { IfOk result (λ m. (d : types_read.Declared) → AreTypes types.old (enclosed_types scope.now) d.types → resources ≡ d.resources → IsMeaning (IsExtern types.new) m (described d desc)) }
    ensures grows { Grows types.old types.new }
{
    match desc {
        ExternDesc::Resource => Ok(next_resource(resources)?),
        ExternDesc::Instance(index) => {
            let known = scope.type_at(index);
            Ok(instance_described(alloc, types, resources, known)?)
        }
        ExternDesc::Func(_) => Ok(described(scope, desc)),
        ExternDesc::TypeEq(_) => Ok(described(scope, desc)),
    }
}

/// How many resources the type of an instance brings.
fn brought_of(types: &mut Types<'_>, known: Option<Option<TypeRef>>) -> Result<usize, AllocError>
    ensures ok { IfOk result (λ count. (o : Option (Option Closed)) → IsFoundAs (IsFoundAs (IsType types.old)) known o → brought_by (option_and_then externs_of (option_and_then (λ type. type) o)) ≡ count) }
    ensures same { types.new ≡ types.old }
{
    match known {
        Some(Some(TypeRef::Instance(instance_type))) => brought(types, instance_type),
        _ => Ok(0),
    }
}

/// How many resources an export of an instance type brings.
pub(crate) fn export_brings(
    types: &mut Types<'_>,
    scope: &Enclosing<'_>,
    desc: ExternDesc,
) -> Result<usize, AllocError>
    ensures ok { IfOk result (λ count. (d : types_read.Declared) → AreTypes types.old (enclosed_types scope.now) d.types → brings d desc ≡ count) }
    ensures same { types.new ≡ types.old }
{
    match desc {
        ExternDesc::Resource => Ok(1),
        ExternDesc::Instance(index) => Ok(brought_of(types, scope.type_at(index))?),
        ExternDesc::Func(_) | ExternDesc::TypeEq(_) => Ok(0),
    }
}
