//! Handles, waitables and sets in the tables of component instances.

ghost use Rattle.world_parts.specs.Held.{Does, Tells};
ghost use Rattle.world_parts.specs.Entries.{handle_dropped, waitable_found, sets_made, set_made, set_joined, set_dropped};

use instances::{DropSetError, SetError};
use res_handles::Handle;
use std::alloc::Global;
use world_parts::{Part, Parts, Stop, refusal_name, set_name};

/// Drops the handle of a resource at an index, and answers it. The traps are `Absent`, `OtherKind`, `OtherType` and `Lent`.
pub(crate) fn drop_handle(parts: &mut Parts, at: usize, index: u32, resource: u32) -> Part<Handle>
    ensures { Does (handle_dropped at index resource) parts.old result parts.new }
{
    if at >= parts.instances.len() {
        return Err(Stop::Stuck);
    }
    match parts.instances[at].drop_handle(index, resource) {
        Ok(handle) => Ok(handle),
        Err(why) => Err(Stop::Trap(refusal_name(why))),
    }
}

/// Tests that a subtask or an end stands at an index. The traps are `Absent` and `OtherKind`.
pub(crate) fn waitable_at(parts: &Parts, at: usize, index: u32) -> Part<()>
    ensures { Tells (waitable_found at index) parts.now result }
{
    let Some(instance) = parts.instances.get(at) else {
        return Err(Stop::Stuck);
    };
    match instance.waitable_at(index) {
        Ok(()) => Ok(()),
        Err(why) => Err(Stop::Trap(refusal_name(why))),
    }
}

/// How many sets were made in an instance.
pub(crate) fn sets_made(parts: &Parts, at: usize) -> Part<u64>
    ensures { Tells (sets_made at) parts.now result }
{
    match parts.instances.get(at) {
        Some(instance) => Ok(instance.sets_made()),
        None => Err(Stop::Stuck),
    }
}

/// Makes a set, and answers its number.
pub(crate) fn make_set(parts: &mut Parts, alloc: Global, at: usize) -> Part<u64>
    ensures { Does (set_made at) parts.old result parts.new }
{
    if at >= parts.instances.len() {
        return Err(Stop::Stuck);
    }
    match parts.instances[at].make_set(alloc) {
        Ok(set) => Ok(set),
        Err(_) => Err(Stop::Memory),
    }
}

/// Lets a waitable join a set.
pub(crate) fn join(parts: &mut Parts, at: usize, waitable: u32, set: u64) -> Part<()>
    ensures { Does (set_joined at waitable set) parts.old result parts.new }
{
    if at >= parts.instances.len() {
        return Err(Stop::Stuck);
    }
    match parts.instances[at].join(waitable, set) {
        Ok(()) => Ok(()),
        Err(SetError::NoSet) => Err(Stop::Stuck),
        Err(SetError::Memory) => Err(Stop::Memory),
    }
}

/// Drops a set. The traps are `Members` and `Waiters`.
pub(crate) fn drop_set(parts: &mut Parts, at: usize, set: u64) -> Part<()>
    ensures { Does (set_dropped at set) parts.old result parts.new }
{
    if at >= parts.instances.len() {
        return Err(Stop::Stuck);
    }
    match parts.instances[at].drop_set(set) {
        Ok(()) => Ok(()),
        Err(DropSetError::NoSet) => Err(Stop::Stuck),
        Err(DropSetError::Refused(why)) => Err(Stop::Trap(set_name(why))),
    }
}
