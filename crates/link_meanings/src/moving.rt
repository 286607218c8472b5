//! Closed types in which the numbers of resources are changed.
//!
//! Types of instances may stand in one another a million deep, and the same ones in many places. So no more of those that name a
//! resource are gone through than may stand in one another here, and each export in them takes one of the steps that the table allows.

ghost use Rattle.std.specs.Prelude.{◌≡◌, ◌≤◌, suc, IfOk};
ghost use Rattle.syntax_trees.specs.declared.types.FuncType.{FuncType};
ghost use Rattle.comp_graph.specs.Closed.{Closed, Extern, Externs};
ghost use Rattle.link_values.specs.Resources.{renumbered_func};
ghost use Rattle.link_spec.specs.Brought.{moved, moved_extern, moved_externs};
ghost use Rattle.link_types.specs.Changes.{change_of};
ghost use Rattle.link_types.specs.Table.{IsFunc, IsType, IsExtern, IsInstanceType, Grows};

use link_types::{
    Change, ExternRef, FuncTypeRef, InstanceTypeMaker, InstanceTypeRef, NESTING_LIMIT, TypeRef,
    Types, asked_at, asked_count, changed_func, changed_value, names_resource,
};
use std::alloc::{AllocError, Global};

/// In one type of instances more. It fails where there is no such number.
fn further_in(depth: usize) -> Result<usize, AllocError>
    ensures { IfOk result (λ inside. inside ≡ suc depth) }
{
    match depth.checked_add(1) {
        Some(inside) => Ok(inside),
        None => Err(AllocError),
    }
}

/// A closed type, which names a resource.
#[cycle(moving)]
fn moved_names(
    alloc: Global,
    types: &mut Types<'_>,
    closed: TypeRef,
    change: Change<'_>,
    depth: usize,
    left: usize,
) -> Result<TypeRef, AllocError>
    ensures ok { IfOk result (λ new. (type : Closed) → IsType types.old closed type → IsType types.new new (moved (change_of change.entry) depth type)) }
    ensures grows { Grows types.old types.new }
{
    match closed {
        TypeRef::Value(number) => {
            let number = changed_value(alloc, types, number, change, depth)?;
            Ok(TypeRef::Value(number))
        }
        TypeRef::Func(func_type) => {
            let func_type = changed_func(alloc, types, func_type, change, depth)?;
            Ok(TypeRef::Func(func_type))
        }
        TypeRef::Resource(number) => Ok(TypeRef::Resource(change.of(depth, number)?)),
        TypeRef::Instance(instance_type) => {
            let inside = further_in(depth)?;
            let moved = moved_instance(alloc, types, instance_type, change, inside, left)?;
            Ok(TypeRef::Instance(moved))
        }
    }
}

/// A closed type.
#[cycle(moving)]
fn moved_type_in(
    alloc: Global,
    types: &mut Types<'_>,
    closed: TypeRef,
    change: Change<'_>,
    depth: usize,
    left: usize,
) -> Result<TypeRef, AllocError>
    ensures ok { IfOk result (λ new. (type : Closed) → IsType types.old closed type → IsType types.new new (moved (change_of change.entry) depth type)) }
    ensures grows { Grows types.old types.new }
{
    if !names_resource(types, closed) {
        return Ok(closed);
    }
    moved_names(alloc, types, closed, change, depth, left)
}

/// How many steps an export takes that stands in so many fewer types of instances than may be gone into: one, but for the outermost, of
/// which nothing is gone through where it names no resource.
fn steps_of(left: usize) -> usize
    ensures { result ≤ 1 }
{
    if left < NESTING_LIMIT { 1 } else { 0 }
}

/// What an export is.
#[cycle(moving)]
fn moved_item(
    alloc: Global,
    types: &mut Types<'_>,
    item: ExternRef,
    change: Change<'_>,
    depth: usize,
    left: usize,
) -> Result<ExternRef, AllocError>
    ensures ok { IfOk result (λ new. (extern : Extern) → IsExtern types.old item extern → IsExtern types.new new (moved_extern (change_of change.entry) depth extern)) }
    ensures grows { Grows types.old types.new }
{
    types.take_steps(steps_of(left))?;
    match item {
        ExternRef::Func(func_type) => {
            let moved = moved_func(alloc, types, func_type, change, depth)?;
            Ok(ExternRef::Func(moved))
        }
        ExternRef::Type(closed) => {
            let moved = moved_type_in(alloc, types, closed, change, depth, left)?;
            Ok(ExternRef::Type(moved))
        }
        ExternRef::Instance(instance_type) => {
            let moved = moved_instance(alloc, types, instance_type, change, depth, left)?;
            Ok(ExternRef::Instance(moved))
        }
    }
}

/// A function type.
fn moved_func(
    alloc: Global,
    types: &mut Types<'_>,
    func_type: FuncTypeRef,
    change: Change<'_>,
    depth: usize,
) -> Result<FuncTypeRef, AllocError>
    ensures ok { IfOk result (λ new. (type : FuncType) → IsFunc types.old func_type type → IsFunc types.new new (renumbered_func (change_of change.entry depth) type)) }
    ensures grows { Grows types.old types.new }
{
    if !names_resource(types, TypeRef::Func(func_type)) {
        return Ok(func_type);
    }
    changed_func(alloc, types, func_type, change, depth)
}

/// A type of instances.
#[cycle(moving)]
fn moved_instance(
    alloc: Global,
    types: &mut Types<'_>,
    instance_type: InstanceTypeRef,
    change: Change<'_>,
    depth: usize,
    left: usize,
) -> Result<InstanceTypeRef, AllocError>
    ensures ok { IfOk result (λ new. (externs : Externs) → IsInstanceType types.old instance_type externs → IsInstanceType types.new new (moved_externs (change_of change.entry) depth externs)) }
    ensures grows { Grows types.old types.new }
{
    if !names_resource(types, TypeRef::Instance(instance_type)) {
        return Ok(instance_type);
    }
    let Some(left) = left.checked_sub(1) else {
        return Err(AllocError);
    };
    let mut maker = InstanceTypeMaker::begin(alloc, types)?;
    for at in 0..asked_count(types, instance_type) {
        let Some((name, item)) = asked_at(types, instance_type, at) else {
            return Err(AllocError);
        };
        let moved = moved_item(alloc, types, item, change, depth, left)?;
        maker.extend(types, name, moved)?;
    }
    Ok(maker.finish(types)?)
}

/// A closed type in which the numbers of resources are changed. It fails for want of memory alone, as does the other function here, and
/// that is also what it tells where too much would have to be gone through.
pub fn moved_type(
    alloc: Global,
    types: &mut Types<'_>,
    closed: TypeRef,
    change: Change<'_>,
) -> Result<TypeRef, AllocError>
    ensures ok { IfOk result (λ new. (type : Closed) → IsType types.old closed type → IsType types.new new (moved (change_of change.entry) 0 type)) }
    ensures grows { Grows types.old types.new }
{
    Ok(moved_type_in(alloc, types, closed, change, 0, NESTING_LIMIT)?)
}

/// The same of what an import or an export is.
pub fn moved_extern(
    alloc: Global,
    types: &mut Types<'_>,
    item: ExternRef,
    change: Change<'_>,
) -> Result<ExternRef, AllocError>
    ensures ok { IfOk result (λ new. (extern : Extern) → IsExtern types.old item extern → IsExtern types.new new (moved_extern (change_of change.entry) 0 extern)) }
    ensures grows { Grows types.old types.new }
{
    Ok(moved_item(alloc, types, item, change, 0, NESTING_LIMIT)?)
}
