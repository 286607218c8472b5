//! What is set up in a world before a case asks for something. Each answers `Stuck` where an instance, a task or an entry is not there.

use instances::WorldEntry;
use res_handles::{Handle, Ownership};
use std::alloc::Global;
use task_table::Words;
use tasks::TaskEvent;
use world_parts::{Part, Parts, Stop};

/// Adds a handle of a resource.
fn add_handle(
    parts: &mut Parts,
    at: usize,
    resource: u32,
    rep: u32,
    ownership: Ownership,
) -> Part<u32> {
    let handle = Handle {
        resource,
        rep,
        lends: 0,
        ownership,
    };
    parts.add_entry(at, WorldEntry::Handle(handle))
}

/// Adds an own handle of a resource.
pub fn add_own(parts: &mut Parts, at: usize, resource: u32, rep: u32) -> Part<u32> {
    add_handle(parts, at, resource, rep, Ownership::Own)
}

/// Adds a borrow handle of a resource that is made for a task.
pub fn add_borrow(parts: &mut Parts, at: usize, resource: u32, rep: u32, task: u32) -> Part<u32> {
    parts.advance(task, TaskEvent::Borrow)?;
    add_handle(parts, at, resource, rep, Ownership::Borrow(task))
}

/// Lends a handle of a resource for the call of a task.
pub fn lend(parts: &mut Parts, at: usize, handle: u32, resource: u32, task: u32) -> Part<()> {
    let callee = task as usize;
    if at >= parts.instances.len() || callee >= parts.tasks.slots.len() {
        return Err(Stop::Stuck);
    }
    if parts.instances[at].lift_borrow(handle, resource).is_err() {
        return Err(Stop::Stuck);
    }
    match parts.tasks.slots[callee].add_lend(handle) {
        Ok(()) => Ok(()),
        Err(_) => Err(Stop::Stuck),
    }
}

/// Moves what stands at an index of an instance into the table of another one, and answers its index there.
pub fn pass(parts: &mut Parts, from: usize, index: u32, to: usize) -> Part<u32> {
    let Some(entry) = parts.entry(from, index)? else {
        return Err(Stop::Stuck);
    };
    parts.remove_entry(from, index)?;
    parts.add_entry(to, entry)
}

/// Adds so many own handles of resource 1, and answers the last index.
pub fn fill(parts: &mut Parts, at: usize, count: u32) -> Part<u32> {
    let mut last = 0;
    for rep in 0..count {
        last = add_own(parts, at, 1, rep)?;
    }
    Ok(last)
}

/// Raises the backpressure so often.
pub fn press(parts: &mut Parts, at: usize, count: u32) -> Part<()> {
    for _ in 0..count {
        if at >= parts.instances.len() {
            return Err(Stop::Stuck);
        }
        let _raised = parts.instances[at].raise_pressure();
    }
    Ok(())
}

/// Keeps the core values of the result of a task for its caller.
pub fn keep(alloc: Global, parts: &mut Parts, task: u32, word: u32) -> Part<()> {
    let Ok(words) = Words::of(alloc, u64::from(word)) else {
        return Err(Stop::Memory);
    };
    parts.keep_result(task, words)
}

/// Lowers the backpressure.
pub fn lift(parts: &mut Parts, at: usize) -> Part<()> {
    if at >= parts.instances.len() {
        return Err(Stop::Stuck);
    }
    let _lowered = parts.instances[at].lower_pressure();
    Ok(())
}
