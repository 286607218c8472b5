//! Who enters a component instance.

ghost use Rattle.world_parts.specs.Held.{Does, Tells};
ghost use Rattle.world_parts.specs.Gates.{may_enter, gate_waited, gate_entered, gate_taken_back};
ghost use Rattle.world_parts.specs.Slots.{resolution_of};

use entry_gate::Kind;
use tasks::Resolution;
use world_parts::{Part, Parts, Stop};

/// Whether a task of this kind may enter an instance: one that waits, or a newcomer.
pub(crate) fn may_enter(parts: &Parts, at: usize, kind: Kind, newcomer: bool) -> Part<bool>
    ensures { Tells (may_enter at kind newcomer) parts.now result }
{
    match parts.instances.get(at) {
        Some(instance) => Ok(instance.may_enter(kind, newcomer)),
        None => Err(Stop::Stuck),
    }
}

/// A task begins to wait to enter.
pub(crate) fn wait_at_gate(parts: &mut Parts, at: usize) -> Part<()>
    ensures { Does (gate_waited at) parts.old result parts.new }
{
    if at >= parts.instances.len() {
        return Err(Stop::Stuck);
    }
    match parts.instances[at].wait() {
        Ok(()) => Ok(()),
        Err(_) => Err(Stop::Memory),
    }
}

/// A task of this kind is in from now on.
pub(crate) fn enter_gate(parts: &mut Parts, at: usize, task: u32, kind: Kind) -> Part<()>
    ensures { Does (gate_entered at task kind) parts.old result parts.new }
{
    if at >= parts.instances.len() {
        return Err(Stop::Stuck);
    }
    parts.instances[at].enter(task, kind);
    Ok(())
}

/// A task goes on in its loop, and holds exclusive entry again.
pub(crate) fn take_gate_back(parts: &mut Parts, at: usize, task: u32) -> Part<()>
    ensures { Does (gate_taken_back at task) parts.old result parts.new }
{
    if at >= parts.instances.len() {
        return Err(Stop::Stuck);
    }
    parts.instances[at].take_back(task);
    Ok(())
}

/// How a task has resolved, if it has.
pub(crate) fn resolution_of(parts: &Parts, task: u32) -> Part<Option<Resolution>>
    ensures { Tells (resolution_of task) parts.now result }
{
    match parts.tasks.slots.get(task as usize) {
        Some(slot) => Ok(slot.task.resolution()),
        None => Err(Stop::Stuck),
    }
}
