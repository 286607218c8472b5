//! What a type of instances asks for.

ghost use Rattle.std.specs.Prelude.{◌≡◌, ◌<◌, ◌+◌, ◌^◌, ℕ, List, length, IfSome};
ghost use Rattle.std.specs.List.{slice_get};
ghost use Rattle.comp_graph.specs.Closed.{Externs, extern_named};
ghost use Rattle.link_types.specs.Table.{IsName, IsInstanceType, MayBeExtern, MayBeEntry, in_order};

use crate::types::Types;
use link_values::{ExternRef, InstanceTypeRef};
use std::alloc::AllocError;

/// How many exports are looked at in one step.
const LOOK_COUNT: usize = 8;

/// What is asked for under a name: of equal names the first.
pub fn asked_named(
    types: &Types<'_>,
    instance_type: InstanceTypeRef,
    name: usize,
) -> Option<ExternRef>
    ensures { (externs : Externs) (text : List ℕ) → IsInstanceType types.now instance_type externs → IsName types.now name text → MayBeExtern types.now result (extern_named text externs) }
{
    if instance_type.number < types.instance_count() {
        types.extern_named(instance_type, name)
    } else {
        None
    }
}

/// What is asked for at a place, behind the number of its name.
pub fn asked_at(
    types: &Types<'_>,
    instance_type: InstanceTypeRef,
    at: usize,
) -> Option<(usize, ExternRef)>
    ensures is { (externs : Externs) → IsInstanceType types.now instance_type externs → MayBeEntry types.now result (slice_get (in_order externs) at) }
    ensures room { IfSome result (λ _. at + 1 < 2 ^ 64) }
{
    if instance_type.number >= types.instance_count() {
        return None;
    }
    if at >= types.extern_count(instance_type) {
        return None;
    }
    types.extern_at(instance_type, at)
}

/// How much is asked for.
pub fn asked_count(types: &Types<'_>, instance_type: InstanceTypeRef) -> usize
    ensures { (externs : Externs) → IsInstanceType types.now instance_type externs → result ≡ length (in_order externs) }
{
    if instance_type.number < types.instance_count() {
        types.extern_count(instance_type)
    } else {
        0
    }
}

/// Takes the steps of what is asked for of an instance, where its type names a resource: of each export it is looked at what it brings.
/// It fails where fewer are left.
pub fn take_looks(types: &mut Types<'_>, item: ExternRef) -> Result<(), AllocError>
    ensures { types.new ≡ types.old }
{
    let ExternRef::Instance(instance_type) = item else {
        return Ok(());
    };
    if !instance_type.names_resource {
        return Ok(());
    }
    let count = asked_count(&*types, instance_type);
    types.take_steps(count / LOOK_COUNT + 1)?;
    Ok(())
}
