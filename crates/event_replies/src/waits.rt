//! Built-ins that ask for an event of a set.

ghost use Rattle.std.specs.Prelude.{◌≡◌};
ghost use Rattle.tasks.specs.Tasks.{is_sync};
ghost use Rattle.world_parts.specs.Held.{Does};
ghost use Rattle.world_parts.specs.Waits.{blocked_at_set, none_ready, by_ready, waited, set_wait};
ghost use Rattle.event_replies.specs.Seen.{seen};

use crate::events::{deliver_among, receive_cancel, receive_none};
use crate::news::ready;
use builtin_kinds::WaitOp;
use comp_graph::Graph;
use entry_gate::Kind;
use graph_views::{flag_at, options_at};
use std::alloc::Global;
use tasks::BlockedAt;
use trace_labels::{BlockReason, TrapName};
use world_parts::{Flow, Part, Parts, Receiver, Stop, block_in, word_in};

/// A task blocks at a set.
#[tactic(auto, unfolding(world_parts::specs::Waits::blocked_at_set), using(world_parts::proofs::Thens::thens))]
fn block_at_set(
    graph: &Graph<'_>,
    parts: &mut Parts,
    task: u32,
    at: usize,
    canon: u32,
    index: u32,
    set: u64,
) -> Part<Flow>
    ensures { Does (blocked_at_set (seen graph.now) task at canon index set) parts.old result parts.new }
{
    parts.wait_on(at, set)?;
    block_in(
        parts,
        task,
        canon,
        flag_at(graph, canon),
        BlockedAt::Set(index),
        BlockReason::Wait(index),
    )
}

/// No member is ready: a wait blocks, and a poll gets no event.
fn none_ready(
    alloc: Global,
    graph: &Graph<'_>,
    parts: &mut Parts,
    task: u32,
    at: usize,
    canon: u32,
    op: WaitOp,
    index: u32,
    place: u32,
    set: u64,
) -> Part<Flow>
    ensures { Does (none_ready (seen graph.now) task at canon op index place set) parts.old result parts.new }
{
    match op {
        WaitOp::Wait => block_at_set(graph, parts, task, at, canon, index, set),
        WaitOp::Poll => {
            let receiver = Receiver::InWait { canon, place };
            receive_none(alloc, graph, parts, task, receiver)
        }
    }
}

/// By the members that are ready.
#[tactic(auto, unfolding(world_parts::specs::Waits::by_ready), using(world_parts::proofs::Thens::thens))]
fn by_ready(
    alloc: Global,
    graph: &Graph<'_>,
    parts: &mut Parts,
    task: u32,
    at: usize,
    canon: u32,
    op: WaitOp,
    index: u32,
    place: u32,
    set: u64,
    members: &[u32],
) -> Part<Flow>
    ensures { Does (by_ready (seen graph.now) task at canon op index place set members.now) parts.old result parts.new }
{
    if members.len() == 0 {
        none_ready(alloc, graph, parts, task, at, canon, op, index, place, set)
    } else {
        let receiver = Receiver::InWait { canon, place };
        deliver_among(alloc, graph, parts, task, at, receiver, members)
    }
}

/// Whether a task is lifted without `async`.
fn is_sync(kind: Kind) -> bool
    ensures { result ≡ is_sync kind }
{
    match kind {
        Kind::Sync => true,
        Kind::Callback => false,
        Kind::Stackful => false,
    }
}

/// A wait whose place is well.
#[tactic(auto, unfolding(world_parts::specs::Waits::waited), using(world_parts::proofs::Thens::thens))]
fn wait(
    alloc: Global,
    graph: &Graph<'_>,
    parts: &mut Parts,
    task: u32,
    at: usize,
    canon: u32,
    op: WaitOp,
    index: u32,
    place: u32,
    set: u64,
) -> Part<Flow>
    ensures { Does (waited (seen graph.now) task at canon op index place set) parts.old result parts.new }
{
    let kind = parts.kind_of(task)?;
    let asked = parts.is_asked(task)?;
    if flag_at(graph, canon) && !is_sync(kind) && asked {
        let receiver = Receiver::InWait { canon, place };
        return receive_cancel(alloc, graph, parts, task, receiver);
    }
    let Ok(members) = ready(alloc, graph, parts, at, set) else {
        return Err(Stop::Memory);
    };
    by_ready(
        alloc,
        graph,
        parts,
        task,
        at,
        canon,
        op,
        index,
        place,
        set,
        members.as_slice(),
    )
}

/// `waitable-set.wait` and `waitable-set.poll`: the traps are `Absent`, `OtherKind`, `Misaligned` and `Bounds`.
#[tactic(auto, unfolding(world_parts::specs::Waits::set_wait), using(world_parts::proofs::Thens::thens))]
pub fn set_wait(
    alloc: Global,
    graph: &Graph<'_>,
    parts: &mut Parts,
    task: u32,
    at: usize,
    canon: u32,
    op: WaitOp,
    words: &[u64],
) -> Part<Flow>
    ensures { Does (set_wait (seen graph.now) task at canon op words.now) parts.old result parts.new }
{
    let Some(index) = word_in(words, 0) else {
        return Err(Stop::Stuck);
    };
    let Some(place) = word_in(words, 1) else {
        return Err(Stop::Stuck);
    };
    let set = parts.set_at(at, index)?;
    if place % 4 != 0 {
        return Err(Stop::Trap(TrapName::Misaligned));
    }
    let memory = parts.memory_of(&options_at(graph, canon));
    if parts.memory_size(memory) < u64::from(place) + 8 {
        return Err(Stop::Trap(TrapName::Bounds));
    }
    wait(alloc, graph, parts, task, at, canon, op, index, place, set)
}
