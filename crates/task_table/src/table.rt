//! All tasks of a run.

ghost use Rattle.std.specs.Prelude.{◌≡◌, [], ◌∷◌, ◌++◌, length, Some, IfOk, OnOk, OnErr};
ghost use Rattle.std.specs.List.{slice_get};
ghost use Rattle.std.specs.Option.{option_copied};
ghost use Rattle.task_table.specs.Tasks.{with_number, without, by_of, is_among_callers};

use crate::caller::Caller;
use crate::slot::TaskSlot;
use faults::Memory;
use std::alloc::Global;
use std::collections::BTreeSet;

/// The tasks of a run. What is added to or taken from a set of numbers costs about the logarithm of their count.
#[derive(Drop)]
pub struct Tasks {
    /// All of them, by their numbers.
    pub slots: Vec<TaskSlot>,
    /// The numbers of those that have not exited.
    pub live: BTreeSet<u32>,
    /// Those of them that do not wait for exclusive entry: where no gate lets one that does in, no other can go on.
    pub watched: BTreeSet<u32>,
    /// Those of them that do not wait to enter at all: where there is backpressure, no other can go on.
    pub awake: BTreeSet<u32>,
    /// The tasks that the script's calls made, in the order of the calls.
    pub calls: Vec<u32>,
}

impl Tasks {
    /// No task. It takes no memory.
    pub fn new(alloc: Global) -> Tasks
        ensures slots { result.slots.items ≡ [] }
        ensures live { result.live.keys ≡ [] }
        ensures watched { result.watched.keys ≡ [] }
        ensures awake { result.awake.keys ≡ [] }
        ensures calls { result.calls.items ≡ [] }
    {
        Tasks {
            slots: Vec::new(alloc),
            live: BTreeSet::new(alloc),
            watched: BTreeSet::new(alloc),
            awake: BTreeSet::new(alloc),
            calls: Vec::new(alloc),
        }
    }

    /// The task of a number.
    pub fn slot(&self, task: u32) -> Option<&TaskSlot>
        ensures { option_copied result ≡ slice_get self.now.slots.items task }
    {
        self.slots.get(task as usize)
    }

    /// The number of the next task. There are at most 2^32.
    pub fn next(&self) -> Result<u32, Memory>
        ensures { IfOk result (λ number. number ≡ length self.now.slots.items) }
    {
        match u32::try_from(self.slots.len()) {
            Ok(number) => Ok(number),
            Err(_) => Err(Memory),
        }
    }

    /// Adds a task, and answers its number. After `Memory` a part of it may be there.
    pub fn add(&mut self, slot: TaskSlot) -> Result<u32, Memory>
        ensures number { IfOk result (λ number. number ≡ length self.old.slots.items) }
        ensures slots { OnOk result (self.new.slots.items ≡ self.old.slots.items ++ slot ∷ []) }
        ensures live { OnOk result (self.new.live.keys ≡ with_number (length self.old.slots.items) self.old.live.keys) }
        ensures watched { OnOk result (self.new.watched.keys ≡ with_number (length self.old.slots.items) self.old.watched.keys) }
        ensures awake { OnOk result (self.new.awake.keys ≡ with_number (length self.old.slots.items) self.old.awake.keys) }
        ensures calls { self.new.calls.items ≡ self.old.calls.items }
    {
        let number = self.next()?;
        put(&mut self.live, number)?;
        put(&mut self.watched, number)?;
        put(&mut self.awake, number)?;
        match self.slots.push(slot) {
            Ok(()) => Ok(number),
            Err(_) => Err(Memory),
        }
    }

    /// Says that a task has exited. Where it is none of those that have not nothing changes.
    pub fn close(&mut self, task: u32)
        ensures slots { self.new.slots.items ≡ self.old.slots.items }
        ensures live { self.new.live.keys ≡ without task self.old.live.keys }
        ensures watched { self.new.watched.keys ≡ without task self.old.watched.keys }
        ensures awake { self.new.awake.keys ≡ without task self.old.awake.keys }
        ensures calls { self.new.calls.items ≡ self.old.calls.items }
    {
        self.live.remove(&task);
        self.watched.remove(&task);
        self.awake.remove(&task);
    }

    /// Says that a task waits for exclusive entry.
    pub fn park(&mut self, task: u32)
        ensures slots { self.new.slots.items ≡ self.old.slots.items }
        ensures live { self.new.live.keys ≡ self.old.live.keys }
        ensures watched { self.new.watched.keys ≡ without task self.old.watched.keys }
        ensures awake { self.new.awake.keys ≡ without task self.old.awake.keys }
        ensures calls { self.new.calls.items ≡ self.old.calls.items }
    {
        self.watched.remove(&task);
        self.awake.remove(&task);
    }

    /// Says that a task waits to enter, and not for exclusive entry.
    pub fn queue(&mut self, task: u32)
        ensures slots { self.new.slots.items ≡ self.old.slots.items }
        ensures live { self.new.live.keys ≡ self.old.live.keys }
        ensures watched { self.new.watched.keys ≡ self.old.watched.keys }
        ensures awake { self.new.awake.keys ≡ without task self.old.awake.keys }
        ensures calls { self.new.calls.items ≡ self.old.calls.items }
    {
        self.awake.remove(&task);
    }

    /// Says that a task does not wait to enter any more. After `Memory` it may be among those alone that do not wait to enter.
    pub fn unpark(&mut self, task: u32) -> Result<(), Memory>
        ensures slots { self.new.slots.items ≡ self.old.slots.items }
        ensures live { self.new.live.keys ≡ self.old.live.keys }
        ensures watched { OnOk result (self.new.watched.keys ≡ with_number task self.old.watched.keys) }
        ensures err { OnErr result (self.new.watched.keys ≡ self.old.watched.keys) }
        ensures awake { OnOk result (self.new.awake.keys ≡ with_number task self.old.awake.keys) }
        ensures calls { self.new.calls.items ≡ self.old.calls.items }
    {
        put(&mut self.awake, task)?;
        put(&mut self.watched, task)?;
        Ok(())
    }

    /// Whether the instance is that of the task, or of one that called it, or called its caller, and so on.
    pub fn is_among_callers(&self, task: u32, instance: usize) -> bool
        ensures { result ≡ is_among_callers (length self.now.slots.items) instance (Some task) self.now.slots.items }
    {
        let mut by = Some(task);
        for _step in 0..self.slots.len() {
            let Some(number) = by else {
                return false;
            };
            let Some(slot) = self.slot(number) else {
                return false;
            };
            if slot.instance == instance {
                return true;
            }
            by = slot.by();
        }
        false
    }
}

/// Adds a number, where it is not there. After `Memory` all is as it was.
fn put(numbers: &mut BTreeSet<u32>, task: u32) -> Result<(), Memory>
    ensures ok { OnOk result (numbers.new.keys ≡ with_number task numbers.old.keys) }
    ensures err { OnErr result (numbers.new.keys ≡ numbers.old.keys) }
{
    numbers.insert(task)?;
    Ok(())
}

impl TaskSlot {
    /// The task that called it, where one did.
    pub fn by(&self) -> Option<u32>
        ensures { result ≡ by_of self.now.caller }
    {
        match &self.caller {
            Caller::Nobody => None,
            Caller::Host(_) => None,
            Caller::Guest(called) => Some(called.by),
        }
    }
}
