//! What stands in the tables of component instances.

ghost use Rattle.std.specs.Prelude.{◌≡◌};
ghost use Rattle.world_parts.specs.Held.{Does, Tells};
ghost use Rattle.world_parts.specs.Entries.{entry_found, subtask_number, subtask_known, subtask_found, set_number, set_known, set_found, end_found, rep_found, entry_added, entry_removed, lend_ended, end_idled};

use crate::names::refusal_name;
use crate::parts::{Part, Parts, Stop};
use instances::{EndEntry, WorldEntry};
use res_handles::LowerError;
use stream_ends::Side;
use trace_labels::TrapName;

/// The task that an entry is a subtask of.
fn subtask_number(entry: Option<WorldEntry>) -> Option<u32>
    ensures { result ≡ subtask_number entry }
{
    match entry {
        Some(WorldEntry::Subtask(callee)) => Some(callee),
        Some(WorldEntry::Handle(_)) => None,
        Some(WorldEntry::Set(_)) => None,
        Some(WorldEntry::End(_)) => None,
        None => None,
    }
}

/// The number of the set that an entry is.
pub fn set_number(entry: Option<WorldEntry>) -> Option<u64>
    ensures { result ≡ set_number entry }
{
    match entry {
        Some(WorldEntry::Set(set)) => Some(set),
        Some(WorldEntry::Handle(_)) => None,
        Some(WorldEntry::Subtask(_)) => None,
        Some(WorldEntry::End(_)) => None,
        None => None,
    }
}

impl Parts {
    /// What stands at an index of the table of an instance.
    pub fn entry(&self, at: usize, index: u32) -> Part<Option<WorldEntry>>
        ensures { Tells (entry_found at index) self.now result }
    {
        match self.instances.get(at) {
            Some(instance) => Ok(instance.entry(index)),
            None => Err(Stop::Stuck),
        }
    }

    /// The task that the subtask is of which it is known that it stands at an index.
    pub fn known_subtask(&self, at: usize, index: u32) -> Part<u32>
        ensures { Tells (subtask_known at index) self.now result }
    {
        let Some(instance) = self.instances.get(at) else {
            return Err(Stop::Stuck);
        };
        match subtask_number(instance.entry(index)) {
            Some(callee) => Ok(callee),
            None => Err(Stop::Stuck),
        }
    }

    /// The number of the set of which it is known that it stands at an index.
    pub fn known_set(&self, at: usize, index: u32) -> Part<u64>
        ensures { Tells (set_known at index) self.now result }
    {
        let Some(instance) = self.instances.get(at) else {
            return Err(Stop::Stuck);
        };
        match set_number(instance.entry(index)) {
            Some(set) => Ok(set),
            None => Err(Stop::Stuck),
        }
    }

    /// The task that the subtask at an index is. The traps are `Absent` and `OtherKind`.
    pub fn subtask_at(&self, at: usize, index: u32) -> Part<u32>
        ensures { Tells (subtask_found at index) self.now result }
    {
        let Some(instance) = self.instances.get(at) else {
            return Err(Stop::Stuck);
        };
        match instance.subtask_at(index) {
            Ok(callee) => Ok(callee),
            Err(why) => Err(Stop::Trap(refusal_name(why))),
        }
    }

    /// The number of the set at an index. The traps are `Absent` and `OtherKind`.
    pub fn set_at(&self, at: usize, index: u32) -> Part<u64>
        ensures { Tells (set_found at index) self.now result }
    {
        let Some(instance) = self.instances.get(at) else {
            return Err(Stop::Stuck);
        };
        match instance.set_at(index) {
            Ok(set) => Ok(set),
            Err(why) => Err(Stop::Trap(refusal_name(why))),
        }
    }

    /// The end of this side and the type of this number at an index. The traps are `Absent`, `OtherKind` and `OtherType`.
    pub fn end_at(&self, at: usize, side: Side, wanted: usize, index: u32) -> Part<EndEntry>
        ensures { Tells (end_found at side wanted index) self.now result }
    {
        let Some(instance) = self.instances.get(at) else {
            return Err(Stop::Stuck);
        };
        match instance.end_at(side, wanted, index) {
            Ok(end) => Ok(end),
            Err(why) => Err(Stop::Trap(refusal_name(why))),
        }
    }

    /// The representation of the handle of a resource at an index. The traps are `Absent`, `OtherKind` and `OtherType`.
    pub fn rep_at(&self, at: usize, index: u32, resource: u32) -> Part<u32>
        ensures { Tells (rep_found at index resource) self.now result }
    {
        let Some(instance) = self.instances.get(at) else {
            return Err(Stop::Stuck);
        };
        match instance.rep(index, resource) {
            Ok(rep) => Ok(rep),
            Err(why) => Err(Stop::Trap(refusal_name(why))),
        }
    }

    /// Adds an entry, and answers its index. The trap is `TableFull`.
    pub fn add_entry(&mut self, at: usize, entry: WorldEntry) -> Part<u32>
        ensures { Does (entry_added at entry) self.old result self.new }
    {
        if at >= self.instances.len() {
            return Err(Stop::Stuck);
        }
        match self.instances[at].add(entry) {
            Ok(index) => Ok(index),
            Err(LowerError::TableFull) => Err(Stop::Trap(TrapName::TableFull)),
            Err(LowerError::Memory) => Err(Stop::Memory),
        }
    }

    /// Removes what stands at an index.
    pub fn remove_entry(&mut self, at: usize, index: u32) -> Part<()>
        ensures { Does (entry_removed at index) self.old result self.new }
    {
        if at >= self.instances.len() {
            return Err(Stop::Stuck);
        }
        match self.instances[at].remove(index) {
            Some(_) => Ok(()),
            None => Err(Stop::Stuck),
        }
    }

    /// Ends a loan of the handle at an index.
    pub fn end_lend(&mut self, at: usize, index: u32) -> Part<()>
        ensures { Does (lend_ended at index) self.old result self.new }
    {
        if at >= self.instances.len() {
            return Err(Stop::Stuck);
        }
        if self.instances[at].end_lend(index) {
            Ok(())
        } else {
            Err(Stop::Stuck)
        }
    }

    /// Says of the end at an index whether it is idle.
    pub fn set_idle(&mut self, at: usize, index: u32, is_idle: bool) -> Part<()>
        ensures { Does (end_idled at index is_idle) self.old result self.new }
    {
        if at >= self.instances.len() {
            return Err(Stop::Stuck);
        }
        if self.instances[at].set_idle(index, is_idle) {
            Ok(())
        } else {
            Err(Stop::Stuck)
        }
    }
}
