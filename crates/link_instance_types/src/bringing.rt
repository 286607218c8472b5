//! How many resources types of instances bring.

ghost use Rattle.std.specs.Prelude.{◌≡◌, ◌+◌, ◌==◌, cond, suc, List, ℕ, length, Option, IfOk};
ghost use Rattle.comp_graph.specs.Closed.{Closed, Extern, Externs};
ghost use Rattle.link_values.specs.Resources.{first_brought};
ghost use Rattle.link_spec.specs.Definitions.{Definition, Exports};
ghost use Rattle.link_spec.specs.Brought.{found_type, found_for, all_found_for, brought};
ghost use Rattle.link_types.specs.Table.{Table, IsType, IsExtern, IsInstanceType};

use link_types::{
    ExternRef, InstanceTypeRef, NESTING_LIMIT, TypeRef, Types, asked_at, asked_count,
    first_brought, names_resource, take_looks,
};
use std::alloc::AllocError;

/// How many resources are brought behind so many, with a type of this number. It fails where there is no such number, as do the other
/// functions here, and where too much would have to be gone through.
fn with_resource(number: usize, count: usize) -> Result<usize, AllocError>
    ensures { IfOk result (λ all. all ≡ cond (number == first_brought 0 + count) (suc count) count) }
{
    let Some(next) = first_brought(0)?.checked_add(count) else {
        return Err(AllocError);
    };
    if number != next {
        return Ok(count);
    }
    match count.checked_add(1) {
        Some(all) => Ok(all),
        None => Err(AllocError),
    }
}

/// The same with a closed type.
fn with_type(closed: TypeRef, count: usize) -> Result<usize, AllocError>
    ensures { IfOk result (λ all. (t : Table) (given : Option Definition) (found : List ℕ) (type : Closed) → IsType t closed type → length found ≡ count → length (found_type given found type) ≡ all) }
{
    match closed {
        TypeRef::Resource(number) => with_resource(number, count),
        TypeRef::Value(_) | TypeRef::Func(_) | TypeRef::Instance(_) => Ok(count),
    }
}

/// The same with an export.
#[cycle(bringing)]
fn with_item(
    types: &mut Types<'_>,
    item: ExternRef,
    count: usize,
    left: usize,
) -> Result<usize, AllocError>
    ensures ok { IfOk result (λ all. (given : Option Definition) (found : List ℕ) (extern : Extern) → IsExtern types.old item extern → length found ≡ count → length (found_for given found extern) ≡ all) }
    ensures same { types.new ≡ types.old }
{
    take_looks(types, item)?;
    match item {
        ExternRef::Func(_) => Ok(count),
        ExternRef::Type(closed) => Ok(with_type(closed, count)?),
        ExternRef::Instance(instance_type) => {
            Ok(with_instance(types, instance_type, count, left)?)
        }
    }
}

/// The same with the exports of a type of instances.
#[cycle(bringing)]
fn with_instance(
    types: &mut Types<'_>,
    instance_type: InstanceTypeRef,
    count: usize,
    left: usize,
) -> Result<usize, AllocError>
    ensures ok { IfOk result (λ all. (given : Exports) (found : List ℕ) (externs : Externs) → IsInstanceType types.old instance_type externs → length found ≡ count → length (all_found_for given found externs) ≡ all) }
    ensures same { types.new ≡ types.old }
{
    if !names_resource(types, TypeRef::Instance(instance_type)) {
        return Ok(count);
    }
    let Some(left) = left.checked_sub(1) else {
        return Err(AllocError);
    };
    let mut all = count;
    for at in 0..asked_count(types, instance_type) {
        let Some((_, item)) = asked_at(types, instance_type, at) else {
            return Err(AllocError);
        };
        all = with_item(types, item, all, left)?;
    }
    Ok(all)
}

/// How many resources a type of instances brings.
pub(crate) fn brought(
    types: &mut Types<'_>,
    instance_type: InstanceTypeRef,
) -> Result<usize, AllocError>
    ensures ok { IfOk result (λ count. (externs : Externs) → IsInstanceType types.old instance_type externs → brought externs ≡ count) }
    ensures same { types.new ≡ types.old }
{
    with_instance(types, instance_type, 0, NESTING_LIMIT)
}
