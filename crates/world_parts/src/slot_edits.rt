//! What happens to tasks, and to calls of tasks by others.

ghost use Rattle.world_parts.specs.Held.{Does};
ghost use Rattle.world_parts.specs.Slots.{happens, errand_set, words_set, context_set, raised, result_kept, awaited, state_told, task_made, closed, parked, unparked};

use crate::names::task_name;
use crate::parts::{Part, Parts, Stop};
use entry_gate::Kind;
use task_table::{Errand, EventError, TaskSlot, Words};
use tasks::{SubtaskState, TaskEvent};

impl Parts {
    /// Lets something happen to a task. The traps are those of the task.
    pub fn advance(&mut self, task: u32, event: TaskEvent) -> Part<()>
        ensures { Does (happens task event) self.old result self.new }
    {
        let at = task as usize;
        if at >= self.tasks.slots.len() {
            return Err(Stop::Stuck);
        }
        match self.tasks.slots[at].advance(event) {
            Ok(()) => Ok(()),
            Err(EventError::NotNow) => Err(Stop::Stuck),
            Err(EventError::Trap(why)) => Err(Stop::Trap(task_name(why))),
        }
    }

    /// Says what a task is at.
    pub fn set_errand(&mut self, task: u32, errand: Errand) -> Part<()>
        ensures { Does (errand_set task errand) self.old result self.new }
    {
        let at = task as usize;
        if at >= self.tasks.slots.len() {
            return Err(Stop::Stuck);
        }
        self.tasks.slots[at].set_errand(errand);
        Ok(())
    }

    /// Keeps the words of the call at which a task is.
    pub fn set_words(&mut self, task: u32, words: Words) -> Part<()>
        ensures { Does (words_set task words) self.old result self.new }
    {
        let at = task as usize;
        if at >= self.tasks.slots.len() {
            return Err(Stop::Stuck);
        }
        self.tasks.slots[at].set_words(words);
        Ok(())
    }

    /// Sets one of the two words of context of a task: the first one for 0, else the second one.
    pub fn set_context_word(&mut self, task: u32, number: u32, word: u32) -> Part<()>
        ensures { Does (context_set task number word) self.old result self.new }
    {
        let at = task as usize;
        if at >= self.tasks.slots.len() {
            return Err(Stop::Stuck);
        }
        self.tasks.slots[at].set_context_word(number, word);
        Ok(())
    }

    /// Lets the state of a task rise that its caller sees, where a task called it.
    pub fn raise(&mut self, task: u32, state: SubtaskState) -> Part<()>
        ensures { Does (raised task state) self.old result self.new }
    {
        let at = task as usize;
        if at >= self.tasks.slots.len() {
            return Err(Stop::Stuck);
        }
        if self.tasks.slots[at].raise(state) {
            Ok(())
        } else {
            Err(Stop::Stuck)
        }
    }

    /// Keeps the core values of the result of a task for its caller, which is a task.
    pub fn keep_result(&mut self, task: u32, words: Words) -> Part<()>
        ensures { Does (result_kept task words) self.old result self.new }
    {
        let at = task as usize;
        if at >= self.tasks.slots.len() {
            return Err(Stop::Stuck);
        }
        if self.tasks.slots[at].keep_result(words) {
            Ok(())
        } else {
            Err(Stop::Stuck)
        }
    }

    /// Says whether a task waits directly for the call of a task.
    pub fn set_awaited(&mut self, callee: u32, is_awaited: bool) -> Part<()>
        ensures { Does (awaited callee is_awaited) self.old result self.new }
    {
        let at = callee as usize;
        if at >= self.tasks.slots.len() {
            return Err(Stop::Stuck);
        }
        if self.tasks.slots[at].set_awaited(is_awaited) {
            Ok(())
        } else {
            Err(Stop::Stuck)
        }
    }

    /// Tells the caller of a task its state, and answers the payload.
    pub fn tell_state(&mut self, callee: u32) -> Part<u32>
        ensures { Does (state_told callee) self.old result self.new }
    {
        let at = callee as usize;
        if at >= self.tasks.slots.len() {
            return Err(Stop::Stuck);
        }
        match self.tasks.slots[at].tell() {
            Some(payload) => Ok(payload),
            None => Err(Stop::Stuck),
        }
    }

    /// Makes a task, and answers its number.
    pub fn make_task(&mut self, slot: TaskSlot) -> Part<u32>
        ensures { Does (task_made slot) self.old result self.new }
    {
        match self.tasks.add(slot) {
            Ok(task) => Ok(task),
            Err(_) => Err(Stop::Memory),
        }
    }

    /// Says that a task has exited.
    pub fn close(&mut self, task: u32) -> Part<()>
        ensures { Does (closed task) self.old result self.new }
    {
        self.tasks.close(task);
        Ok(())
    }

    /// Says that a task of this kind waits to enter.
    pub fn park(&mut self, task: u32, kind: Kind) -> Part<()>
        ensures { Does (parked task kind) self.old result self.new }
    {
        if kind.needs_entry() {
            self.tasks.park(task);
            Ok(())
        } else {
            self.tasks.queue(task);
            Ok(())
        }
    }

    /// Says that a task does not wait to enter any more.
    pub fn unpark(&mut self, task: u32) -> Part<()>
        ensures { Does (unparked task) self.old result self.new }
    {
        match self.tasks.unpark(task) {
            Ok(()) => Ok(()),
            Err(_) => Err(Stop::Memory),
        }
    }
}
