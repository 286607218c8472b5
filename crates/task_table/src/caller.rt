//! Who called a task.

ghost use Rattle.std.specs.Prelude.{◌≡◌};
ghost use Rattle.tasks.specs.Subtasks.{code_of, follows};
ghost use Rattle.task_table.specs.Callers.{caller_view, new_called, raised, told, called_has_news, CalledLends};

use crate::Words;
use crate::refusal::LendError;
use std::alloc::Global;
use tasks::{Subtask, SubtaskState};

/// The caller's side of a call of a task by another one.
#[derive(Drop)]
pub struct Called {
    /// The task that calls.
    pub by: u32,
    /// The number of the canonical function by which it calls.
    pub canon: u32,
    /// The words that it passes.
    pub words: Words,
    /// The call as the caller sees it.
    pub subtask: Subtask,
    /// The core values of the result, once they are there.
    pub result: Words,
    /// Whether a task waits for it directly, which keeps its event from the sets.
    pub is_awaited: bool,
}

/// Who called a task.
#[derive(Drop)]
pub enum Caller {
    /// Nobody: the task is that of instantiation.
    Nobody,
    /// The script, by its call of this number, counted from 1.
    Host(u32),
    /// Another task.
    Guest(Called),
}

impl Called {
    /// A new call of the task `callee`. It takes no memory.
    pub fn new(alloc: Global, by: u32, canon: u32, words: Words, callee: u32) -> Called
        ensures { result ≡ new_called by canon words callee }
    {
        Called {
            by,
            canon,
            words,
            subtask: Subtask::new(alloc, callee),
            result: Words::new(alloc),
            is_awaited: false,
        }
    }

    /// Lets the state rise. Where that state does not come next nothing changes, and the answer is false.
    pub(crate) fn raise(&mut self, state: SubtaskState) -> bool
        ensures answer { result ≡ follows self.old.subtask.state state }
        ensures exact { self.new ≡ raised state self.old }
    {
        if !self.subtask.state().is_followed_by(state) {
            return false;
        }
        self.subtask.advance(state);
        true
    }

    /// Tells the state, and answers the payload. Where it was told before nothing changes.
    pub(crate) fn tell(&mut self) -> u32
        ensures answer { result ≡ code_of self.old.subtask.state }
        ensures exact { self.new ≡ told self.old }
    {
        if self.subtask.has_event() {
            self.subtask.deliver()
        } else {
            self.subtask.payload()
        }
    }

    /// Whether a set may tell its state: it was not told, and no task waits for it directly.
    pub(crate) fn has_news(&self) -> bool
        ensures { result ≡ called_has_news self.now }
    {
        self.subtask.has_event() && !self.is_awaited
    }

    /// Counts a handle as lent, where the call isn't resolved.
    pub(crate) fn add_lend(&mut self, handle: u32) -> Result<(), LendError>
        ensures { CalledLends handle self.old result self.new }
    {
        if self.subtask.state().is_over() {
            return Err(LendError::NoCall);
        }
        match self.subtask.add_lend(handle) {
            Ok(()) => Ok(()),
            Err(_) => Err(LendError::Memory),
        }
    }
}

impl Caller {
    /// Who it is, by a number.
    pub fn view(&self) -> tasks::Caller
        ensures { result ≡ caller_view self.now }
    {
        match self {
            Caller::Nobody => tasks::Caller::Nobody,
            Caller::Host(call) => tasks::Caller::Host(*call),
            Caller::Guest(called) => tasks::Caller::Guest(called.by),
        }
    }
}
