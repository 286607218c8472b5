//! Cancellation of tasks, and subtasks that leave the table.

ghost use Rattle.world_parts.specs.Held.{Does};
ghost use Rattle.world_parts.specs.Subtasks.{removed, cancelled_by, cancelled, subtask_asked, subtask_cancel, subtask_drop};

use crate::standing::{is_delivered, request_cancel, was_never_asked};
use std::alloc::Global;
use task_table::Errand;
use tasks::{Asked, SubtaskState};
use trace_labels::{Label, TrapName};
use world_parts::{Flow, Part, Parts, Rest, Stop, word_in};

/// A task that waits to enter resolves and exits, since it is cancelled. The run is then at `behind`.
#[tactic(auto, unfolding(world_parts::specs::Subtasks::removed), using(world_parts::proofs::Thens::thens))]
fn remove(parts: &mut Parts, task: u32, behind: Rest) -> Part<Flow>
    ensures { Does (removed task behind) parts.old result parts.new }
{
    let at = parts.instance_of(task)?;
    parts.unwait_at_gate(at)?;
    parts.raise(task, SubtaskState::CancelledBeforeStarted)?;
    parts.close(task)?;
    parts.tell(Label::Cancelled { task })?;
    parts.tell(Label::Exit { task })?;
    parts.rest = behind;
    Ok(Flow::Rests)
}

/// What comes of a cancellation that is asked.
fn cancel_by(parts: &mut Parts, case: Asked, task: u32, behind: Rest) -> Part<Flow>
    ensures { Does (cancelled_by case task behind) parts.old result parts.new }
{
    match case {
        Asked::Removed => remove(parts, task, behind),
        Asked::ResumeNow => {
            parts.chain_up(task)?;
            parts.rest = Rest::Goes;
            Ok(Flow::Rests)
        }
        Asked::Pending => {
            parts.rest = behind;
            Ok(Flow::Rests)
        }
    }
}

/// A task is cancelled, which is unresolved and was not asked to be before. Where it does not go on at once the run is then at `behind`.
#[tactic(auto, unfolding(world_parts::specs::Subtasks::cancelled), using(world_parts::proofs::Thens::thens))]
pub(crate) fn cancel(parts: &mut Parts, task: u32, behind: Rest) -> Part<Flow>
    ensures { Does (cancelled task behind) parts.old result parts.new }
{
    let case = request_cancel(parts, task)?;
    cancel_by(parts, case, task, behind)
}

/// A task cancels the subtask at an index, unless it has resolved.
#[tactic(auto, unfolding(world_parts::specs::Subtasks::subtask_asked), using(world_parts::proofs::Thens::thens))]
fn ask_subtask(parts: &mut Parts, task: u32, callee: u32, canon: u32, index: u32) -> Part<Flow>
    ensures { Does (subtask_asked task callee canon index) parts.old result parts.new }
{
    parts.set_errand(
        task,
        Errand::AfterCancel {
            callee,
            canon,
            index,
        },
    )?;
    let is_over = parts.is_resolved(callee)?;
    if is_over {
        parts.rest = Rest::Back;
        Ok(Flow::Rests)
    } else {
        cancel(parts, callee, Rest::Back)
    }
}

/// `subtask.cancel`: the traps are `Absent`, `OtherKind`, `Delivered` and `Asked`.
#[tactic(auto, unfolding(world_parts::specs::Subtasks::subtask_cancel), using(world_parts::proofs::Thens::thens))]
pub(crate) fn subtask_cancel(
    parts: &mut Parts,
    task: u32,
    at: usize,
    canon: u32,
    words: &[u64],
) -> Part<Flow>
    ensures { Does (subtask_cancel task at canon words.now) parts.old result parts.new }
{
    let Some(index) = word_in(words, 0) else {
        return Err(Stop::Stuck);
    };
    let callee = parts.subtask_at(at, index)?;
    let is_delivered = is_delivered(parts, callee)?;
    if is_delivered {
        return Err(Stop::Trap(TrapName::Delivered));
    }
    let is_unasked = was_never_asked(parts, callee)?;
    if !is_unasked {
        return Err(Stop::Trap(TrapName::Asked));
    }
    ask_subtask(parts, task, callee, canon, index)
}

/// `subtask.drop`: the traps are `Absent`, `OtherKind` and `NotDelivered`.
#[tactic(auto, unfolding(world_parts::specs::Subtasks::subtask_drop), using(world_parts::proofs::Thens::thens))]
pub(crate) fn subtask_drop(
    alloc: Global,
    parts: &mut Parts,
    task: u32,
    at: usize,
    words: &[u64],
) -> Part<Flow>
    ensures { Does (subtask_drop task at words.now) parts.old result parts.new }
{
    let Some(index) = word_in(words, 0) else {
        return Err(Stop::Stuck);
    };
    let callee = parts.subtask_at(at, index)?;
    let is_delivered = is_delivered(parts, callee)?;
    if !is_delivered {
        return Err(Stop::Trap(TrapName::NotDelivered));
    }
    parts.leave_set(at, index)?;
    parts.remove_entry(at, index)?;
    parts.answer_none(alloc, task)
}
