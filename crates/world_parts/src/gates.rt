//! Exclusive entry to component instances.

ghost use Rattle.world_parts.specs.Held.{Does, Tells};
ghost use Rattle.world_parts.specs.Gates.{entry_is_free, gate_unwaited, gate_given_up};

use crate::parts::{Part, Parts, Stop};

impl Parts {
    /// Whether no task holds exclusive entry to an instance.
    pub fn is_entry_free(&self, at: usize) -> Part<bool>
        ensures { Tells (entry_is_free at) self.now result }
    {
        match self.instances.get(at) {
            Some(instance) => Ok(instance.is_entry_free()),
            None => Err(Stop::Stuck),
        }
    }

    /// A task that waited to enter waits no longer.
    pub fn unwait_at_gate(&mut self, at: usize) -> Part<()>
        ensures { Does (gate_unwaited at) self.old result self.new }
    {
        if at >= self.instances.len() {
            return Err(Stop::Stuck);
        }
        if self.instances[at].unwait() {
            Ok(())
        } else {
            Err(Stop::Stuck)
        }
    }

    /// A task exits, or blocks in its loop, and gives up exclusive entry where it holds it.
    pub fn give_up_gate(&mut self, at: usize, task: u32) -> Part<()>
        ensures { Does (gate_given_up at task) self.old result self.new }
    {
        if at >= self.instances.len() {
            return Err(Stop::Stuck);
        }
        self.instances[at].leave(task);
        Ok(())
    }
}
