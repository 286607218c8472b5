//! Built-ins of resources.

ghost use Rattle.world_parts.specs.Held.{Does};
ghost use Rattle.world_parts.specs.Handles.{resource_new, resource_rep, undestroyed, destroyed_by, destroyed, resource_drop};
ghost use Rattle.replies.specs.Seen.{seen};

use crate::calls::begin_call;
use crate::tables::drop_handle;
use comp_graph::{FuncRef, Graph};
use entry_gate::Kind;
use graph_views::resource_at;
use instances::WorldEntry;
use res_handles::{Handle, Ownership};
use std::alloc::Global;
use task_table::{Callee, Words};
use tasks::TaskEvent;
use trace_labels::TrapName;
use world_parts::{Flow, Part, Parts, Rest, Stop, word_in};

/// `resource.new`: a new own handle of a resource. The trap is `TableFull`.
#[tactic(auto, unfolding(world_parts::specs::Handles::resource_new), using(world_parts::proofs::Thens::thens))]
pub(crate) fn resource_new(
    alloc: Global,
    parts: &mut Parts,
    task: u32,
    at: usize,
    resource: u32,
    words: &[u64],
) -> Part<Flow>
    ensures { Does (resource_new task at resource words.now) parts.old result parts.new }
{
    let Some(rep) = word_in(words, 0) else {
        return Err(Stop::Stuck);
    };
    let handle = Handle {
        resource,
        rep,
        lends: 0,
        ownership: Ownership::Own,
    };
    let index = parts.add_entry(at, WorldEntry::Handle(handle))?;
    parts.answer_one(alloc, task, u64::from(index))
}

/// `resource.rep`: what a handle stands for. The traps are `Absent`, `OtherKind` and `OtherType`.
#[tactic(auto, unfolding(world_parts::specs::Handles::resource_rep), using(world_parts::proofs::Thens::thens))]
pub(crate) fn resource_rep(
    alloc: Global,
    parts: &mut Parts,
    task: u32,
    at: usize,
    resource: u32,
    words: &[u64],
) -> Part<Flow>
    ensures { Does (resource_rep task at resource words.now) parts.old result parts.new }
{
    let Some(index) = word_in(words, 0) else {
        return Err(Stop::Stuck);
    };
    let rep = parts.rep_at(at, index, resource)?;
    parts.answer_one(alloc, task, u64::from(rep))
}

/// `resource.drop`: a handle of a resource is dropped. The traps are `Absent`, `OtherKind`, `OtherType`, `Lent` and `Reentrant`.
#[tactic(auto, unfolding(world_parts::specs::Handles::resource_drop), using(world_parts::proofs::Thens::thens))]
pub(crate) fn resource_drop(
    alloc: Global,
    graph: &Graph<'_>,
    parts: &mut Parts,
    task: u32,
    at: usize,
    canon: u32,
    resource: u32,
    words: &[u64],
) -> Part<Flow>
    ensures { Does (resource_drop (seen graph.now) task at canon resource words.now) parts.old result parts.new }
{
    let Some(index) = word_in(words, 0) else {
        return Err(Stop::Stuck);
    };
    let handle = drop_handle(parts, at, index, resource)?;
    match handle.ownership {
        Ownership::Own => destroy(alloc, graph, parts, task, at, canon, handle),
        Ownership::Borrow(by) => {
            parts.advance(by, TaskEvent::Unborrow)?;
            parts.answer_none(alloc, task)
        }
    }
}

/// What an own handle names is destroyed.
#[tactic(auto, unfolding(world_parts::specs::Handles::destroyed), using(world_parts::proofs::Thens::thens))]
fn destroy(
    alloc: Global,
    graph: &Graph<'_>,
    parts: &mut Parts,
    task: u32,
    at: usize,
    canon: u32,
    handle: Handle,
) -> Part<Flow>
    ensures { Does (destroyed (seen graph.now) task at canon handle) parts.old result parts.new }
{
    let Some(resource) = resource_at(graph, handle.resource) else {
        return Err(Stop::Stuck);
    };
    match resource.destructor {
        Some(func) => destroy_by(
            alloc,
            parts,
            task,
            at,
            canon,
            handle,
            resource.instance,
            func,
        ),
        None => not_destroyed(alloc, parts, task, at, resource.instance),
    }
}

/// What an own handle names is destroyed by a core function of the resource's instance.
#[tactic(auto, unfolding(world_parts::specs::Handles::destroyed_by), using(world_parts::proofs::Thens::thens))]
fn destroy_by(
    alloc: Global,
    parts: &mut Parts,
    task: u32,
    at: usize,
    canon: u32,
    handle: Handle,
    instance: u32,
    func: FuncRef,
) -> Part<Flow>
    ensures { Does (destroyed_by task at canon handle instance func) parts.old result parts.new }
{
    let Ok(words) = Words::of(alloc, u64::from(handle.rep)) else {
        return Err(Stop::Memory);
    };
    if instance as usize == at {
        parts.rest = Rest::Runs;
        return Ok(Flow::Starts(func, words));
    }
    let callee = Callee::Destroys(handle.resource);
    begin_call(
        alloc,
        parts,
        task,
        canon,
        callee,
        instance,
        Kind::Sync,
        words,
    )
}

/// Nothing is destroyed, but the resource's instance may not wait for this one.
#[tactic(auto, unfolding(world_parts::specs::Handles::undestroyed), using(world_parts::proofs::Thens::thens))]
fn not_destroyed(
    alloc: Global,
    parts: &mut Parts,
    task: u32,
    at: usize,
    instance: u32,
) -> Part<Flow>
    ensures { Does (undestroyed task at instance) parts.old result parts.new }
{
    if instance as usize != at && parts.reenters(instance as usize, task) {
        return Err(Stop::Trap(TrapName::Reentrant));
    }
    parts.answer_none(alloc, task)
}
