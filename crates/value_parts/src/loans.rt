//! What lifting moved in the table of an instance.

ghost use Rattle.world_parts.specs.Held.{Does};
ghost use Rattle.value_parts.specs.Loans.{LentGives, lend_kept, lent, one_moved, all_moved};

use task_table::{LendError, TaskSlot};
use trace_labels::Label;
use value_lift::Moved;
use world_parts::{Part, Parts, Stop, number_behind};

/// Counts a handle as lent for the call of a task, where a task called it and it has not resolved.
#[tactic(auto, using(crate::proofs::Lends::lent_gives))]
fn lend_in(slot: &mut TaskSlot, handle: u32) -> Result<(), LendError>
    ensures { LentGives handle slot.old result slot.new }
{
    slot.add_lend(handle)
}

/// Keeps that a handle is lent for the call of a task.
fn keep_lend(parts: &mut Parts, task: u32, handle: u32) -> Part<()>
    ensures { Does (lend_kept task handle) parts.old result parts.new }
{
    let at = task as usize;
    if at >= parts.tasks.slots.len() {
        return Err(Stop::Stuck);
    }
    match lend_in(&mut parts.tasks.slots[at], handle) {
        Ok(()) => Ok(()),
        Err(LendError::NoCall) => Err(Stop::Stuck),
        Err(LendError::Memory) => Err(Stop::Memory),
    }
}

/// A handle of an instance is lent for the call of a task, with a line.
fn lend(parts: &mut Parts, at: usize, callee: u32, handle: u32) -> Part<()>
    ensures { Does (lent at callee handle) parts.old result parts.new }
{
    keep_lend(parts, callee, handle)?;
    let Some(number) = number_behind(at) else {
        return Err(Stop::Memory);
    };
    parts.tell(Label::Lend {
        instance: number,
        handle,
        task: callee,
    })
}

/// An entry moved in the table of an instance.
fn move_one(parts: &mut Parts, at: usize, callee: u32, moved: Moved) -> Part<()>
    ensures { Does (one_moved at callee moved) parts.old result parts.new }
{
    match moved {
        Moved::Lent(index) => lend(parts, at, callee, index),
        Moved::Taken(index) => parts.leave_set(at, index),
    }
}

/// Entries moved in the table of an instance, in this order, where values are lifted for the call of a task: a handle is lent for the call, and
/// an end that left the table leaves its set.
pub(crate) fn move_all(parts: &mut Parts, at: usize, callee: u32, moved: &[Moved]) -> Part<()>
    ensures { Does (all_moved at callee moved.now) parts.old result parts.new }
{
    for one in moved {
        move_one(parts, at, callee, *one)?;
    }
    Ok(())
}
