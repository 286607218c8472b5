//! Tasks block; callers of tasks and ends are told what came of them.

ghost use Rattle.world_parts.specs.Held.{Does};
ghost use Rattle.world_parts.specs.Calls.{blocked, blocked_in, unlent, all_unlent, given_back, given_back_if, subtask_told};
ghost use Rattle.world_parts.specs.Events.{end_told};
ghost use Rattle.world_parts.specs.Plain.{yield_cancelled};

use crate::ends::number_behind;
use crate::parts::{Flow, Part, Parts, Stop};
use instances::EndEntry;
use std::alloc::Global;
use task_table::Errand;
use tasks::{BlockedAt, TaskEvent};
use trace_labels::{BlockReason, Label};

/// Lets a task block, with or without the flag of its canonical function. Control goes to the task before it.
#[tactic(auto, unfolding(crate::specs::Calls::blocked), using(crate::proofs::Thens::thens))]
pub fn block(
    parts: &mut Parts,
    task: u32,
    why: BlockedAt,
    flag: bool,
    reason: BlockReason,
) -> Part<Flow>
    ensures { Does (blocked task why flag reason) parts.old result parts.new }
{
    parts.advance(task, TaskEvent::Block(why, flag))?;
    parts.tell(Label::Block { task, reason })?;
    parts.leave_chain()
}

/// Lets a task block in the canonical function of a number.
#[tactic(auto, unfolding(crate::specs::Calls::blocked_in), using(crate::proofs::Thens::thens))]
pub fn block_in(
    parts: &mut Parts,
    task: u32,
    canon: u32,
    flag: bool,
    why: BlockedAt,
    reason: BlockReason,
) -> Part<Flow>
    ensures { Does (blocked_in task canon flag why reason) parts.old result parts.new }
{
    parts.set_errand(task, Errand::InBuiltin { canon })?;
    block(parts, task, why, flag, reason)
}

/// A handle of an instance that was lent for the call of a task is given back, with a line.
fn unlend(parts: &mut Parts, at: usize, callee: u32, handle: u32) -> Part<()>
    ensures { Does (unlent at callee handle) parts.old result parts.new }
{
    parts.end_lend(at, handle)?;
    let Some(number) = number_behind(at) else {
        return Err(Stop::Memory);
    };
    parts.tell(Label::Unlend {
        instance: number,
        handle,
        task: callee,
    })
}

/// Handles of an instance that were lent for the call of a task are given back, in their order.
fn unlend_all(parts: &mut Parts, at: usize, callee: u32, handles: &[u32]) -> Part<()>
    ensures { Does (all_unlent at callee handles.now) parts.old result parts.new }
{
    for handle in handles {
        unlend(parts, at, callee, *handle)?;
    }
    Ok(())
}

/// What was lent for the call of a task is given back.
#[tactic(auto, unfolding(crate::specs::Calls::given_back), using(crate::proofs::Thens::thens))]
fn give_back(alloc: Global, parts: &mut Parts, at: usize, callee: u32) -> Part<()>
    ensures { Does (given_back at callee) parts.old result parts.new }
{
    let handles = parts.lends(alloc, callee)?;
    unlend_all(parts, at, callee, handles.as_slice())
}

/// The same where the task has resolved.
fn give_back_if(alloc: Global, parts: &mut Parts, is_over: bool, at: usize, callee: u32) -> Part<()>
    ensures { Does (given_back_if is_over at callee) parts.old result parts.new }
{
    if is_over {
        give_back(alloc, parts, at, callee)
    } else {
        Ok(())
    }
}

/// The caller of a task, in this instance, is told the task's state, whose payload is answered. Once it has resolved, what was lent for
/// the call is given back.
#[tactic(auto, unfolding(crate::specs::Calls::subtask_told), using(crate::proofs::Thens::thens))]
pub fn tell_subtask(alloc: Global, parts: &mut Parts, at: usize, callee: u32) -> Part<u32>
    ensures { Does (subtask_told at callee) parts.old result parts.new }
{
    let is_over = parts.is_resolved(callee)?;
    give_back_if(alloc, parts, is_over, at, callee)?;
    parts.tell_state(callee)
}

/// The end at an index is told what came of its copy, and the payload is answered.
#[tactic(auto, unfolding(crate::specs::Events::end_told), using(crate::proofs::Thens::thens))]
pub fn tell_end(parts: &mut Parts, at: usize, index: u32, end: EndEntry) -> Part<u32>
    ensures { Does (end_told at index end) parts.old result parts.new }
{
    let kind = parts.kind_of_end(end);
    let payload = parts.conclude(kind, end.side, end.number)?;
    let is_idle = parts.is_idle(kind, end.side, end.number)?;
    parts.set_idle(at, index, is_idle)?;
    Ok(payload)
}

/// A task is told in `yield` that its cancellation is asked.
#[tactic(auto, unfolding(crate::specs::Plain::yield_cancelled), using(crate::proofs::Thens::thens))]
pub fn yield_cancelled(alloc: Global, parts: &mut Parts, task: u32) -> Part<Flow>
    ensures { Does (yield_cancelled task) parts.old result parts.new }
{
    parts.advance(task, TaskEvent::ToldCancel)?;
    parts.tell(Label::Event {
        task,
        code: 6,
        index: 0,
        payload: 0,
    })?;
    parts.answer_one(alloc, task, 1)
}
