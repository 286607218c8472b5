//! Backpressure, and what is told and changed of tasks that are cancelled.

ghost use Rattle.std.specs.Prelude.{◌≡◌};
ghost use Rattle.tasks.specs.Tasks.{is_unasked};
ghost use Rattle.world_parts.specs.Held.{Does, Tells, held};
ghost use Rattle.world_parts.specs.Gates.{pressure_raised, pressure_lowered, pressure_set};
ghost use Rattle.world_parts.specs.Slots.{delivered, unasked, cancellable, cancel_asked, call_made};
ghost use Rattle.world_parts.specs.Channels.{numbered};

use tasks::{Asked, Cancellation};
use trace_labels::TrapName;
use world_parts::{Part, Parts, Stop, place_of};

/// Raises the backpressure by one. The trap is `PressureLimit`.
pub(crate) fn raise_pressure(parts: &mut Parts, at: usize) -> Part<()>
    ensures { Does (pressure_raised at) parts.old result parts.new }
{
    if at >= parts.instances.len() {
        return Err(Stop::Stuck);
    }
    match parts.instances[at].raise_pressure() {
        Ok(()) => Ok(()),
        Err(_) => Err(Stop::Trap(TrapName::PressureLimit)),
    }
}

/// Lowers the backpressure by one. The trap is `PressureZero`.
pub(crate) fn lower_pressure(parts: &mut Parts, at: usize) -> Part<()>
    ensures { Does (pressure_lowered at) parts.old result parts.new }
{
    if at >= parts.instances.len() {
        return Err(Stop::Stuck);
    }
    match parts.instances[at].lower_pressure() {
        Ok(()) => Ok(()),
        Err(_) => Err(Stop::Trap(TrapName::PressureZero)),
    }
}

/// Sets the backpressure to 0 for 0, and else to 1.
pub(crate) fn set_pressure(parts: &mut Parts, at: usize, enabled: u32) -> Part<()>
    ensures { Does (pressure_set at enabled) parts.old result parts.new }
{
    if at >= parts.instances.len() {
        return Err(Stop::Stuck);
    }
    parts.instances[at].set_pressure(enabled);
    Ok(())
}

/// Whether the caller of a task was told that it has resolved.
pub(crate) fn is_delivered(parts: &Parts, callee: u32) -> Part<bool>
    ensures { Tells (delivered callee) parts.now result }
{
    let Some(slot) = parts.tasks.slots.get(callee as usize) else {
        return Err(Stop::Stuck);
    };
    match slot.called() {
        Some(called) => Ok(called.subtask.told().is_over()),
        None => Err(Stop::Stuck),
    }
}

/// Whether the cancellation of a task was never asked.
pub(crate) fn was_never_asked(parts: &Parts, task: u32) -> Part<bool>
    ensures { Tells (unasked task) parts.now result }
{
    match parts.tasks.slots.get(task as usize) {
        Some(slot) => Ok(is_unasked(slot.task.cancellation())),
        None => Err(Stop::Stuck),
    }
}

/// Whether it was never asked.
fn is_unasked(cancellation: Cancellation) -> bool
    ensures { result ≡ is_unasked cancellation }
{
    match cancellation {
        Cancellation::NotAsked => true,
        Cancellation::Asked => false,
        Cancellation::Delivered => false,
    }
}

/// Whether a task is unresolved, and its cancellation was never asked.
pub(crate) fn may_cancel(parts: &Parts, task: u32) -> Part<bool>
    ensures { Tells (cancellable task) parts.now result }
{
    match parts.tasks.slots.get(task as usize) {
        Some(slot) => Ok(slot.task.may_cancel()),
        None => Err(Stop::Stuck),
    }
}

/// Asks that a task be cancelled, which is unresolved and was not asked before, and answers what comes of it.
pub(crate) fn request_cancel(parts: &mut Parts, task: u32) -> Part<Asked>
    ensures { Does (cancel_asked task) parts.old result parts.new }
{
    let instance = parts.instance_of(task)?;
    let free = parts.is_entry_free(instance)?;
    let at = task as usize;
    if at >= parts.tasks.slots.len() {
        return Err(Stop::Stuck);
    }
    match parts.tasks.slots[at].request_cancel(free) {
        Some(case) => Ok(case),
        None => Err(Stop::Stuck),
    }
}

/// Says that a task is that of the script's next call.
pub(crate) fn count_call(parts: &mut Parts, task: u32) -> Part<()>
    ensures { Does (call_made task) parts.old result parts.new }
{
    match parts.tasks.calls.push(task) {
        Ok(()) => Ok(()),
        Err(_) => Err(Stop::Memory),
    }
}

/// The task that the script's call of a number made.
pub(crate) fn task_of_call(parts: &Parts, call: u32) -> Option<u32>
    ensures { result ≡ numbered (held parts.now).calls call }
{
    match place_of(call) {
        Some(place) => parts.tasks.calls.get(place).copied(),
        None => None,
    }
}
