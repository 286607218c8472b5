//! The sets of component instances.

ghost use Rattle.world_parts.specs.Held.{Does};
ghost use Rattle.world_parts.specs.Entries.{set_left, set_waited_on, set_waited_off};

use crate::parts::{Part, Parts, Stop};
use instances::SetError;

impl Parts {
    /// Lets a waitable leave the set that it is in, if it is in one.
    pub fn leave_set(&mut self, at: usize, waitable: u32) -> Part<()>
        ensures { Does (set_left at waitable) self.old result self.new }
    {
        if at >= self.instances.len() {
            return Err(Stop::Stuck);
        }
        self.instances[at].leave_set(waitable);
        Ok(())
    }

    /// A task begins to wait on a set.
    pub fn wait_on(&mut self, at: usize, set: u64) -> Part<()>
        ensures { Does (set_waited_on at set) self.old result self.new }
    {
        if at >= self.instances.len() {
            return Err(Stop::Stuck);
        }
        match self.instances[at].wait_on(set) {
            Ok(()) => Ok(()),
            Err(SetError::NoSet) => Err(Stop::Stuck),
            Err(SetError::Memory) => Err(Stop::Memory),
        }
    }

    /// A task ceases to wait on a set.
    pub fn wait_off(&mut self, at: usize, set: u64) -> Part<()>
        ensures { Does (set_waited_off at set) self.old result self.new }
    {
        if at >= self.instances.len() {
            return Err(Stop::Stuck);
        }
        if self.instances[at].wait_off(set) {
            Ok(())
        } else {
            Err(Stop::Stuck)
        }
    }
}
