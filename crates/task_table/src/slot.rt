//! A task with what a run keeps of it.

ghost use Rattle.std.specs.Prelude.{◌≡◌};
ghost use Rattle.std.specs.Option.{option_copied};
ghost use Rattle.tasks.specs.Tasks.{is_asked, state_of};
ghost use Rattle.tasks.specs.Subtasks.{is_over};
ghost use Rattle.task_table.specs.Callers.{called_of, has_news, payload_of, may_raise, may_keep, lends_of};
ghost use Rattle.task_table.specs.Slots.{new_slot, event_answer, advanced_slot, cancel_answer, cancelled_slot, is_to_be_told, has_exited, waits_directly_at, waits_on, word_waits_on, word_at, with_word, raised_slot, told_slot, kept_slot, awaited_slot, LendGives, at_errand, at_call};

use crate::Words;
use crate::caller::{Called, Caller};
use crate::errand::{Callee, Errand};
use crate::refusal::{EventError, LendError};
use entry_gate::{Kind, Next, read_callback};
use std::alloc::Global;
use tasks::{Asked, BlockedAt, Cancellation, Nums, Phase, SubtaskState, Task, TaskEvent};

/// A task with what a run keeps of it.
#[derive(Drop)]
pub struct TaskSlot {
    /// The number of the component instance in which it runs, counted from 0.
    pub instance: usize,
    /// What it runs.
    pub callee: Callee,
    /// Who called it.
    pub caller: Caller,
    /// How far it is.
    pub task: Task,
    /// Its two words of context.
    pub context: (u32, u32),
    /// What it is at, beside its phase.
    pub errand: Errand,
    /// The words of the canonical function at which it is.
    pub at_words: Words,
}

impl TaskSlot {
    /// A new task of this kind in an instance. It takes no memory.
    pub fn new(
        alloc: Global,
        instance: usize,
        kind: Kind,
        callee: Callee,
        caller: Caller,
    ) -> TaskSlot
        ensures { result ≡ new_slot instance kind callee caller }
    {
        let task = Task::new(kind, caller.view());
        TaskSlot {
            instance,
            callee,
            caller,
            task,
            context: (0, 0),
            errand: Errand::None,
            at_words: Words::new(alloc),
        }
    }

    /// Lets something happen to the task.
    ///
    /// # Errors
    ///
    /// `NotNow` where the task is in no state for it, and else the traps of `Task::advance`. The task is as it was.
    pub fn advance(&mut self, event: TaskEvent) -> Result<(), EventError>
        ensures answer { result ≡ event_answer event self.old.task }
        ensures exact { self.new ≡ advanced_slot event self.old }
    {
        if !self.task.may_happen(event) {
            return Err(EventError::NotNow);
        }
        match self.task.advance(event) {
            Ok(()) => Ok(()),
            Err(trap) => Err(EventError::Trap(trap)),
        }
    }

    /// Asks that the task be cancelled, where it is unresolved and that wasn't asked before, and answers what comes of it.
    /// `entry_free` says whether no task holds exclusive entry to its instance.
    pub fn request_cancel(&mut self, entry_free: bool) -> Option<Asked>
        ensures answer { result ≡ cancel_answer entry_free self.old.task }
        ensures exact { self.new ≡ cancelled_slot entry_free self.old }
    {
        if self.task.may_cancel() {
            Some(self.task.request_cancel(entry_free))
        } else {
            None
        }
    }

    /// Whether its cancellation is asked, and it was not told so.
    pub fn is_asked(&self) -> bool
        ensures { result ≡ is_asked self.now.task.cancellation }
    {
        match self.task.cancellation() {
            Cancellation::NotAsked => false,
            Cancellation::Asked => true,
            Cancellation::Delivered => false,
        }
    }

    /// Whether its cancellation is asked and ends the wait in which it is.
    pub fn is_to_be_told(&self, entry_free: bool) -> bool
        ensures { result ≡ is_to_be_told entry_free self.now.task }
    {
        match self.task.phase() {
            Phase::Blocked(why, flag) => {
                self.is_asked() && why.is_cancellable(entry_free, self.task.kind(), flag)
            }
            Phase::New | Phase::Acting | Phase::Exited => false,
        }
    }

    /// Whether it is resolved.
    pub fn is_resolved(&self) -> bool
        ensures { result ≡ is_over (state_of self.now.task) }
    {
        self.task.state().is_over()
    }

    /// Whether it is over.
    pub fn has_exited(&self) -> bool
        ensures { result ≡ has_exited self.now.task.phase }
    {
        match self.task.phase() {
            Phase::Exited => true,
            Phase::New | Phase::Acting | Phase::Blocked(_, _) => false,
        }
    }

    /// Whether it waits for the copy of the end at an index, or for the cancelled subtask there.
    pub fn waits_directly_at(&self, index: u32) -> bool
        ensures { result ≡ waits_directly_at index self.now.task.phase }
    {
        match self.task.phase() {
            Phase::Blocked(BlockedAt::Copy(end), _) => end == index,
            Phase::Blocked(BlockedAt::Cancel(subtask), _) => subtask == index,
            _ => false,
        }
    }

    /// Whether it waits on the set at an index, in a built-in or in its loop.
    pub fn waits_on(&self, index: u32) -> bool
        ensures { result ≡ waits_on index self.now.task.phase }
    {
        match self.task.phase() {
            Phase::Blocked(BlockedAt::Set(set), _) => set == index,
            Phase::Blocked(BlockedAt::Loop(word), _) => word_waits_on(word, index),
            _ => false,
        }
    }

    /// One of its words of context: the first one for 0, else the second one.
    pub fn context_word(&self, slot: u32) -> u32
        ensures { result ≡ word_at slot self.now.context }
    {
        if slot == 0 {
            self.context.0
        } else {
            self.context.1
        }
    }

    /// Sets one of its words of context: the first one for 0, else the second one.
    pub fn set_context_word(&mut self, slot: u32, word: u32)
        ensures { self.new ≡ with_word slot word self.old }
    {
        if slot == 0 {
            self.context.0 = word;
        } else {
            self.context.1 = word;
        }
    }

    /// Says what it is at.
    pub fn set_errand(&mut self, errand: Errand)
        ensures { self.new ≡ at_errand errand self.old }
    {
        self.errand = errand;
    }

    /// Keeps the words of the canonical function at which it is.
    pub fn set_words(&mut self, words: Words)
        ensures { self.new ≡ at_call words self.old }
    {
        self.at_words = words;
    }

    /// The caller's side of its call, where a task called it.
    pub fn called(&self) -> Option<&Called>
        ensures { option_copied result ≡ called_of self.now.caller }
    {
        match &self.caller {
            Caller::Nobody => None,
            Caller::Host(_) => None,
            Caller::Guest(called) => Some(called),
        }
    }

    /// Whether its caller, a task, is to be told its state by a set: no task waits for it directly.
    pub fn has_news(&self) -> bool
        ensures { result ≡ has_news self.now.caller }
    {
        match &self.caller {
            Caller::Nobody => false,
            Caller::Host(_) => false,
            Caller::Guest(called) => called.has_news(),
        }
    }

    /// The caller's handles that are lent for its call, in the order of lending, where a task called it.
    pub fn lends(&self) -> Option<&Nums>
        ensures { option_copied result ≡ lends_of self.now.caller }
    {
        match &self.caller {
            Caller::Nobody => None,
            Caller::Host(_) => None,
            Caller::Guest(called) => Some(called.subtask.lends()),
        }
    }

    /// Lets the state that its caller sees rise, where a task called it. Where that state does not come next nothing changes, and the
    /// answer is false.
    pub fn raise(&mut self, state: SubtaskState) -> bool
        ensures answer { result ≡ may_raise state self.old.caller }
        ensures exact { self.new ≡ raised_slot state self.old }
    {
        match &mut self.caller {
            Caller::Nobody => true,
            Caller::Host(_) => true,
            Caller::Guest(called) => called.raise(state),
        }
    }

    /// Tells its caller, a task, its state, and answers the payload. Once a resolved state is told nothing is lent any more. Where the
    /// state was told before nothing changes.
    pub fn tell(&mut self) -> Option<u32>
        ensures answer { result ≡ payload_of self.old.caller }
        ensures exact { self.new ≡ told_slot self.old }
    {
        match &mut self.caller {
            Caller::Nobody => None,
            Caller::Host(_) => None,
            Caller::Guest(called) => Some(called.tell()),
        }
    }

    /// Says whether a task waits for its call directly. Where no task called it nothing changes, and the answer is false.
    pub fn set_awaited(&mut self, is_awaited: bool) -> bool
        ensures answer { result ≡ may_keep self.old.caller }
        ensures exact { self.new ≡ awaited_slot is_awaited self.old }
    {
        match &mut self.caller {
            Caller::Nobody => false,
            Caller::Host(_) => false,
            Caller::Guest(called) => {
                called.is_awaited = is_awaited;
                true
            }
        }
    }

    /// Counts a handle of its caller as lent for its call.
    ///
    /// # Errors
    ///
    /// `NoCall` where no task called it or it is resolved, and `Memory`. The call is as it was.
    pub fn add_lend(&mut self, handle: u32) -> Result<(), LendError>
        ensures { LendGives handle self.old result self.new }
    {
        match &mut self.caller {
            Caller::Nobody => Err(LendError::NoCall),
            Caller::Host(_) => Err(LendError::NoCall),
            Caller::Guest(called) => called.add_lend(handle),
        }
    }

    /// Keeps the core values of its result for its caller. Where no task called it nothing changes, and the answer is false.
    pub fn keep_result(&mut self, words: Words) -> bool
        ensures answer { result ≡ may_keep self.old.caller }
        ensures exact { self.new ≡ kept_slot words self.old }
    {
        match &mut self.caller {
            Caller::Nobody => false,
            Caller::Host(_) => false,
            Caller::Guest(called) => {
                called.result = words;
                true
            }
        }
    }
}

/// Whether a task whose callback answered this word waits on the set at an index.
fn word_waits_on(word: u32, index: u32) -> bool
    ensures { result ≡ word_waits_on index word }
{
    match read_callback(word) {
        Ok(Next::Wait(set)) => set == index,
        Ok(Next::Poll(set)) => set == index,
        Ok(Next::Exit) => false,
        Ok(Next::Yield) => false,
        Err(_) => false,
    }
}
