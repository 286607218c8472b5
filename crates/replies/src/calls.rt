//! Calls of functions by tasks, and control that is back at their callers.

ghost use Rattle.world_parts.specs.Held.{Does};
ghost use Rattle.world_parts.specs.Calls.{call_begun, call_resolved, call_open, back_from_call, cancel_resolved, cancel_open, back_from_cancel, back_by, back};
ghost use Rattle.replies.specs.Seen.{seen};

use comp_graph::Graph;
use entry_gate::Kind;
use graph_views::{flag_at, is_async};
use instances::WorldEntry;
use std::alloc::Global;
use task_table::{Called, Callee, Caller, Errand, TaskSlot, Words};
use tasks::BlockedAt;
use trace_labels::{BlockReason, Label, TrapName};
use world_parts::{Flow, Part, Parts, Rest, Stop, block_in, number_behind, tell_subtask};

/// What a call that does not wait answers where it would block.
const BLOCKED: u64 = 4_294_967_295;

/// A task calls a function of an instance, by the canonical function of a number, and passes words. The trap is `Reentrant`.
#[tactic(auto, unfolding(world_parts::specs::Calls::call_begun), using(world_parts::proofs::Thens::thens))]
pub(crate) fn begin_call(
    alloc: Global,
    parts: &mut Parts,
    task: u32,
    canon: u32,
    callee: Callee,
    instance: u32,
    kind: Kind,
    words: Words,
) -> Part<Flow>
    ensures { Does (call_begun task canon callee instance kind words) parts.old result parts.new }
{
    if parts.reenters(instance as usize, task) {
        return Err(Stop::Trap(TrapName::Reentrant));
    }
    let made = parts.next_task()?;
    parts.set_errand(
        task,
        Errand::AfterCall {
            callee: made,
            canon,
        },
    )?;
    let called = Called::new(alloc, task, canon, words, made);
    let slot = TaskSlot::new(
        alloc,
        instance as usize,
        kind,
        callee,
        Caller::Guest(called),
    );
    parts.make_task(slot)?;
    let Some(number) = number_behind(instance as usize) else {
        return Err(Stop::Memory);
    };
    parts.tell(Label::Call {
        caller: task,
        callee: made,
        instance: number,
    })?;
    parts.chain_up(made)?;
    parts.rest = Rest::Arrives;
    Ok(Flow::Rests)
}

/// Answers the call of a task that has resolved.
#[tactic(auto, unfolding(world_parts::specs::Calls::call_resolved), using(world_parts::proofs::Thens::thens))]
fn call_resolved(
    alloc: Global,
    graph: &Graph<'_>,
    parts: &mut Parts,
    task: u32,
    at: usize,
    callee: u32,
    canon: u32,
) -> Part<Flow>
    ensures { Does (call_resolved (seen graph.now) task at callee canon) parts.old result parts.new }
{
    let words = parts.result_of(alloc, callee)?;
    tell_subtask(alloc, parts, at, callee)?;
    if is_async(graph, canon) {
        parts.answer_one(alloc, task, 2)
    } else {
        parts.answer(alloc, task, words)
    }
}

/// Answers the call of a task that has not resolved, or lets it wait. The trap is `TableFull`.
#[tactic(auto, unfolding(world_parts::specs::Calls::call_open), using(world_parts::proofs::Thens::thens))]
fn call_open(
    alloc: Global,
    graph: &Graph<'_>,
    parts: &mut Parts,
    task: u32,
    at: usize,
    callee: u32,
    canon: u32,
) -> Part<Flow>
    ensures { Does (call_open (seen graph.now) task at callee canon) parts.old result parts.new }
{
    if is_async(graph, canon) {
        let index = parts.add_entry(at, WorldEntry::Subtask(callee))?;
        let state = parts.tell_state(callee)?;
        parts.answer_one(alloc, task, u64::from(state) + 16 * u64::from(index))
    } else {
        block_in(
            parts,
            task,
            canon,
            flag_at(graph, canon),
            BlockedAt::Call(callee),
            BlockReason::Call(callee),
        )
    }
}

/// Control is back at a task that called another one.
#[tactic(auto, unfolding(world_parts::specs::Calls::back_from_call), using(world_parts::proofs::Thens::thens))]
fn back_from_call(
    alloc: Global,
    graph: &Graph<'_>,
    parts: &mut Parts,
    task: u32,
    at: usize,
    callee: u32,
    canon: u32,
) -> Part<Flow>
    ensures { Does (back_from_call (seen graph.now) task at callee canon) parts.old result parts.new }
{
    parts.set_errand(task, Errand::None)?;
    let is_over = parts.is_resolved(callee)?;
    if is_over {
        call_resolved(alloc, graph, parts, task, at, callee, canon)
    } else {
        call_open(alloc, graph, parts, task, at, callee, canon)
    }
}

/// Answers the state of a task that has resolved to the one that cancelled it.
#[tactic(auto, unfolding(world_parts::specs::Calls::cancel_resolved), using(world_parts::proofs::Thens::thens))]
fn cancel_resolved(
    alloc: Global,
    parts: &mut Parts,
    task: u32,
    at: usize,
    callee: u32,
) -> Part<Flow>
    ensures { Does (cancel_resolved task at callee) parts.old result parts.new }
{
    let payload = tell_subtask(alloc, parts, at, callee)?;
    parts.answer_one(alloc, task, u64::from(payload))
}

/// Answers the one that cancelled a task that has not resolved, or lets it wait for the subtask at an index.
#[tactic(auto, unfolding(world_parts::specs::Calls::cancel_open), using(world_parts::proofs::Thens::thens))]
fn cancel_open(
    alloc: Global,
    graph: &Graph<'_>,
    parts: &mut Parts,
    task: u32,
    callee: u32,
    canon: u32,
    index: u32,
) -> Part<Flow>
    ensures { Does (cancel_open (seen graph.now) task callee canon index) parts.old result parts.new }
{
    if flag_at(graph, canon) {
        parts.answer_one(alloc, task, BLOCKED)
    } else {
        parts.set_awaited(callee, true)?;
        block_in(
            parts,
            task,
            canon,
            flag_at(graph, canon),
            BlockedAt::Cancel(index),
            BlockReason::Cancel(index),
        )
    }
}

/// Control is back at a task that cancelled another one, the subtask at an index.
#[tactic(auto, unfolding(world_parts::specs::Calls::back_from_cancel), using(world_parts::proofs::Thens::thens))]
fn back_from_cancel(
    alloc: Global,
    graph: &Graph<'_>,
    parts: &mut Parts,
    task: u32,
    at: usize,
    callee: u32,
    canon: u32,
    index: u32,
) -> Part<Flow>
    ensures { Does (back_from_cancel (seen graph.now) task at callee canon index) parts.old result parts.new }
{
    parts.set_errand(task, Errand::None)?;
    let is_over = parts.is_resolved(callee)?;
    if is_over {
        cancel_resolved(alloc, parts, task, at, callee)
    } else {
        cancel_open(alloc, graph, parts, task, callee, canon, index)
    }
}

/// Control is back at a task that is at this.
fn back_by(
    alloc: Global,
    graph: &Graph<'_>,
    parts: &mut Parts,
    task: u32,
    at: usize,
    errand: Errand,
) -> Part<Flow>
    ensures { Does (back_by (seen graph.now) task at errand) parts.old result parts.new }
{
    match errand {
        Errand::AfterCall { callee, canon } => {
            back_from_call(alloc, graph, parts, task, at, callee, canon)
        }
        Errand::AfterCancel {
            callee,
            canon,
            index,
        } => back_from_cancel(alloc, graph, parts, task, at, callee, canon, index),
        Errand::None => Err(Stop::Stuck),
        Errand::Begins(_) => Err(Stop::Stuck),
        Errand::InBuiltin { canon: _ } => Err(Stop::Stuck),
    }
}

/// Control is back at the acting task, which called or cancelled another one.
#[tactic(auto, unfolding(world_parts::specs::Calls::back), using(world_parts::proofs::Thens::thens))]
pub fn back(alloc: Global, graph: &Graph<'_>, parts: &mut Parts) -> Part<Flow>
    ensures { Does (back (seen graph.now)) parts.old result parts.new }
{
    let task = parts.acting()?;
    let at = parts.instance_of(task)?;
    let errand = parts.errand_of(task)?;
    back_by(alloc, graph, parts, task, at, errand)
}
