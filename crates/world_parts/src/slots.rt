//! What is told of tasks, and of calls of tasks by others.

ghost use Rattle.std.specs.Prelude.{◌≡◌};
ghost use Rattle.world_parts.specs.Held.{Does, Tells, held};
ghost use Rattle.world_parts.specs.Slots.{instance_of, kind_of, callee_of, phase_of, errand_of, context_of, asked, resolved, to_be_told, word_in, word_of, words_of, payload_found, lends_found, result_found, next_task, reenters};

use crate::feed::same_words;
use crate::parts::{Part, Parts, Stop};
use entry_gate::Kind;
use std::alloc::Global;
use task_table::{Callee, Errand, Words};
use tasks::{Nums, Phase};

/// A word of a call, where it is there and a 32-bit one.
pub fn word_in(words: &[u64], number: usize) -> Option<u32>
    ensures { result ≡ word_in words.now number }
{
    let word = *words.get(number)?;
    if word < 4_294_967_296 {
        Some(word as u32)
    } else {
        None
    }
}

impl Parts {
    /// The number of the instance in which a task runs.
    pub fn instance_of(&self, task: u32) -> Part<usize>
        ensures { Tells (instance_of task) self.now result }
    {
        match self.tasks.slots.get(task as usize) {
            Some(slot) => Ok(slot.instance),
            None => Err(Stop::Stuck),
        }
    }

    /// The kind of a task.
    pub fn kind_of(&self, task: u32) -> Part<Kind>
        ensures { Tells (kind_of task) self.now result }
    {
        match self.tasks.slots.get(task as usize) {
            Some(slot) => Ok(slot.task.kind()),
            None => Err(Stop::Stuck),
        }
    }

    /// What a task runs.
    pub fn callee_of(&self, task: u32) -> Part<Callee>
        ensures { Tells (callee_of task) self.now result }
    {
        match self.tasks.slots.get(task as usize) {
            Some(slot) => Ok(slot.callee),
            None => Err(Stop::Stuck),
        }
    }

    /// How far a task is.
    pub fn phase_of(&self, task: u32) -> Part<Phase>
        ensures { Tells (phase_of task) self.now result }
    {
        match self.tasks.slots.get(task as usize) {
            Some(slot) => Ok(slot.task.phase()),
            None => Err(Stop::Stuck),
        }
    }

    /// What a task is at.
    pub fn errand_of(&self, task: u32) -> Part<Errand>
        ensures { Tells (errand_of task) self.now result }
    {
        match self.tasks.slots.get(task as usize) {
            Some(slot) => Ok(slot.errand),
            None => Err(Stop::Stuck),
        }
    }

    /// One of the two words of context of a task: the first one for 0, else the second one.
    pub fn context_word(&self, task: u32, number: u32) -> Part<u32>
        ensures { Tells (context_of task number) self.now result }
    {
        match self.tasks.slots.get(task as usize) {
            Some(slot) => Ok(slot.context_word(number)),
            None => Err(Stop::Stuck),
        }
    }

    /// Whether the cancellation of a task is asked, and it was not told so.
    pub fn is_asked(&self, task: u32) -> Part<bool>
        ensures { Tells (asked task) self.now result }
    {
        match self.tasks.slots.get(task as usize) {
            Some(slot) => Ok(slot.is_asked()),
            None => Err(Stop::Stuck),
        }
    }

    /// Whether a task has resolved.
    pub fn is_resolved(&self, task: u32) -> Part<bool>
        ensures { Tells (resolved task) self.now result }
    {
        match self.tasks.slots.get(task as usize) {
            Some(slot) => Ok(slot.is_resolved()),
            None => Err(Stop::Stuck),
        }
    }

    /// Whether the cancellation of a task is asked and ends the wait in which it is.
    pub fn is_to_be_told(&self, task: u32) -> Part<bool>
        ensures { Tells (to_be_told task) self.now result }
    {
        let at = self.instance_of(task)?;
        let free = self.is_entry_free(at)?;
        match self.tasks.slots.get(task as usize) {
            Some(slot) => Ok(slot.is_to_be_told(free)),
            None => Err(Stop::Stuck),
        }
    }

    /// A word of the call at which a task is.
    pub fn word(&self, task: u32, number: usize) -> Part<u32>
        ensures { Tells (word_of task number) self.now result }
    {
        let Some(slot) = self.tasks.slots.get(task as usize) else {
            return Err(Stop::Stuck);
        };
        match word_in(slot.at_words.as_slice(), number) {
            Some(word) => Ok(word),
            None => Err(Stop::Stuck),
        }
    }

    /// The words of the call at which a task is.
    pub fn words(&self, alloc: Global, task: u32) -> Part<Words>
        ensures { Does (words_of task) self.now result self.now }
    {
        let Some(slot) = self.tasks.slots.get(task as usize) else {
            return Err(Stop::Stuck);
        };
        match same_words(alloc, slot.at_words.as_slice()) {
            Ok(words) => Ok(words),
            Err(_) => Err(Stop::Memory),
        }
    }

    /// The state of a subtask, as it is told: that of the call of a task by another one.
    pub fn payload(&self, callee: u32) -> Part<u32>
        ensures { Tells (payload_found callee) self.now result }
    {
        let Some(slot) = self.tasks.slots.get(callee as usize) else {
            return Err(Stop::Stuck);
        };
        match slot.called() {
            Some(called) => Ok(called.subtask.payload()),
            None => Err(Stop::Stuck),
        }
    }

    /// The handles that are lent for the call of a task, in the order of lending.
    pub fn lends(&self, alloc: Global, callee: u32) -> Part<Nums>
        ensures { Does (lends_found callee) self.now result self.now }
    {
        let Some(slot) = self.tasks.slots.get(callee as usize) else {
            return Err(Stop::Stuck);
        };
        let Some(called) = slot.called() else {
            return Err(Stop::Stuck);
        };
        match Vec::from_slice(alloc, called.subtask.lends().as_slice()) {
            Ok(lends) => Ok(Nums::from_vec(lends)),
            Err(_) => Err(Stop::Memory),
        }
    }

    /// The core values of the result of a task, once they are there.
    pub fn result_of(&self, alloc: Global, callee: u32) -> Part<Words>
        ensures { Does (result_found callee) self.now result self.now }
    {
        let Some(slot) = self.tasks.slots.get(callee as usize) else {
            return Err(Stop::Stuck);
        };
        let Some(called) = slot.called() else {
            return Err(Stop::Stuck);
        };
        match same_words(alloc, called.result.as_slice()) {
            Ok(words) => Ok(words),
            Err(_) => Err(Stop::Memory),
        }
    }

    /// The number of the next task.
    pub fn next_task(&self) -> Part<u32>
        ensures { Does next_task self.now result self.now }
    {
        match self.tasks.next() {
            Ok(task) => Ok(task),
            Err(_) => Err(Stop::Memory),
        }
    }

    /// Whether the instance is that of the task, or of one that called it, or called its caller, and so on.
    pub fn reenters(&self, instance: usize, task: u32) -> bool
        ensures { result ≡ reenters instance task (held self.now) }
    {
        self.tasks.is_among_callers(task, instance)
    }
}
