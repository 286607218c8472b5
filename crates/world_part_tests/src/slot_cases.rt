//! Tasks with what a run keeps of them.
//!
//! A case begins with the kind of the task, as `is:sync`. The task runs in instance 3; in the table of guests task 5 called it, by the
//! canonical function 2 with the words 4 and 6, as task 8; in the other the script did, by its call 1.
//!
//! `e:enter` lets an event happen: `enter`, `go`, `ask`, `return`, `cancel`, `borrow`, `unborrow`, `told`, `exit`, and blocks, at its
//! entry `entry`, in its loop `loop` after the word 18 and `poll` after 35, at `yield` or with the flag `yieldc`, at the set 4 `set` or
//! `setc`, at a call of task 6 `call`, at the copy of the end 7 `copy`, and at the cancelled subtask 9 `sub`. `x:1` asks that it be
//! cancelled where entry is free, `x:0` where it isn't; `asked`, `tell?:1`, `over`, `out`, `at:7` and `on:4` ask whether its
//! cancellation is asked, ends its wait, whether it is resolved, over, waits directly at an index or on the set there. `c:1` tells a word
//! of context, `c:1,9` sets it; `go:11` says that it is at a call of task 11 with the words 1 and 2, `n` that it is at nothing, and `j`
//! tells what it is at. `by` tells the call, `news` whether the caller is to be told; `up:1` lets the state rise, `tell` tells it;
//! `l:7` lends a handle, `ls` lists those that are lent; `keep:70` keeps a result, and `r` tells it.

use crate::gate_cases::kind_of;
use crate::words::{number, pair, write_list, write_number, write_some, yes_or_no};
use cases::{Acts, Answers, acted};
use entry_gate::Kind;
use std::alloc::{AllocError, Global};
use std::fmt::Write;
use std::test::Fail;
use task_table::{Called, Callee, Caller, Errand, EventError, LendError, TaskSlot, Words};
use tasks::{Asked, BlockedAt, SubtaskState, TaskEvent, TaskTrap};

/// The event of a name.
fn event_of(name: &str) -> TaskEvent {
    match name {
        "enter" => TaskEvent::Enter,
        "go" => TaskEvent::Go,
        "ask" => TaskEvent::AskReturn,
        "return" => TaskEvent::Return,
        "cancel" => TaskEvent::Cancel,
        "borrow" => TaskEvent::Borrow,
        "unborrow" => TaskEvent::Unborrow,
        "told" => TaskEvent::ToldCancel,
        "exit" => TaskEvent::Exit,
        _ => block_of(name),
    }
}

/// The block of a name.
fn block_of(name: &str) -> TaskEvent {
    match name {
        "loop" => TaskEvent::Block(BlockedAt::Loop(18), false),
        "poll" => TaskEvent::Block(BlockedAt::Loop(35), false),
        "yield" => TaskEvent::Block(BlockedAt::Yield, false),
        "yieldc" => TaskEvent::Block(BlockedAt::Yield, true),
        "set" => TaskEvent::Block(BlockedAt::Set(4), false),
        "setc" => TaskEvent::Block(BlockedAt::Set(4), true),
        "call" => TaskEvent::Block(BlockedAt::Call(6), false),
        "copy" => TaskEvent::Block(BlockedAt::Copy(7), false),
        "sub" => TaskEvent::Block(BlockedAt::Cancel(9), false),
        _ => TaskEvent::Block(BlockedAt::Entry, false),
    }
}

/// The state of a number.
fn state_of(number: u32) -> SubtaskState {
    match number {
        0 => SubtaskState::Starting,
        1 => SubtaskState::Started,
        2 => SubtaskState::Returned,
        3 => SubtaskState::CancelledBeforeStarted,
        _ => SubtaskState::CancelledBeforeReturned,
    }
}

/// What came of an event.
fn happened(answer: Result<(), EventError>) -> &'static str {
    match answer {
        Ok(()) => "ok",
        Err(EventError::NotNow) => "not-now",
        Err(EventError::Trap(TaskTrap::SyncTask)) => "SyncTask",
        Err(EventError::Trap(TaskTrap::NotAsked)) => "NotAsked",
        Err(EventError::Trap(TaskTrap::Resolved)) => "Resolved",
        Err(EventError::Trap(TaskTrap::BorrowLives)) => "BorrowLives",
    }
}

/// What came of a request to cancel.
fn asked(answer: Option<Asked>) -> &'static str {
    match answer {
        None => "none",
        Some(Asked::Removed) => "removed",
        Some(Asked::ResumeNow) => "resume",
        Some(Asked::Pending) => "pending",
    }
}

/// What came of a loan.
fn lent(answer: Result<(), LendError>) -> &'static str {
    match answer {
        Ok(()) => "ok",
        Err(LendError::NoCall) => "no-call",
        Err(LendError::Memory) => "memory",
    }
}

/// Writes what a task is at.
fn write_errand(text: &mut String, slot: &TaskSlot) -> Result<(), AllocError> {
    let words = slot.at_words.len();
    match slot.errand {
        Errand::None => write!(text, "nothing/{words}"),
        Errand::AfterCall { callee, canon } => write!(text, "call-T{callee}/{canon}/{words}"),
        Errand::AfterCancel {
            callee,
            canon,
            index,
        } => write!(text, "cancel-T{callee}/{canon}/{index}/{words}"),
        Errand::Begins(action) => write!(text, "begins-{action}/{words}"),
        Errand::InBuiltin { canon } => write!(text, "in-{canon}/{words}"),
    }
}

/// A list of words.
fn words_of(alloc: Global, numbers: &[u64]) -> Result<Words, AllocError> {
    let mut words = Words::new(alloc);
    for number in numbers {
        words.push(*number)?;
    }
    Ok(words)
}

/// A task that words change.
#[derive(Drop)]
struct Changed {
    slot: TaskSlot,
}

impl Changed {
    /// What is asked of a task.
    fn test(&self, name: &str, rest: &str) -> &'static str {
        yes_or_no(match name {
            "asked" => self.slot.is_asked(),
            "tell?" => self.slot.is_to_be_told(number(rest) == 1),
            "over" => self.slot.is_resolved(),
            "out" => self.slot.has_exited(),
            "at" => self.slot.waits_directly_at(number(rest)),
            "on" => self.slot.waits_on(number(rest)),
            _ => self.slot.has_news(),
        })
    }

    /// What is answered to a word that changes the task.
    fn answer(&mut self, name: &str, rest: &str) -> &'static str {
        match name {
            "e" => happened(self.slot.advance(event_of(rest))),
            "x" => asked(self.slot.request_cancel(number(rest) == 1)),
            "up" => yes_or_no(self.slot.raise(state_of(number(rest)))),
            "l" => lent(self.slot.add_lend(number(rest))),
            "await" => yes_or_no(self.slot.set_awaited(number(rest) == 1)),
            _ => self.test(name, rest),
        }
    }

    /// Says what the task is at.
    fn set_errand(&mut self, alloc: Global, errand: Errand) -> Result<(), AllocError> {
        let words = match errand {
            Errand::None => Words::new(alloc),
            _ => words_of(alloc, &[1, 2])?,
        };
        self.slot.set_errand(errand);
        self.slot.set_words(words);
        Ok(())
    }

    /// Writes a word of context, or sets it.
    fn write_context(&mut self, text: &mut String, rest: &str) -> Result<(), AllocError> {
        if rest.split_once(',').is_some() {
            let (slot, word) = pair(rest);
            self.slot.set_context_word(slot, word);
            text.push_str("ok")
        } else {
            write_number(text, u64::from(self.slot.context_word(number(rest))))
        }
    }

    /// Writes the call.
    fn write_call(&self, text: &mut String) -> Result<(), AllocError> {
        match self.slot.called() {
            None => text.push_str("none"),
            Some(called) => {
                let (by, canon, words) = (called.by, called.canon, called.words.len());
                let callee = called.subtask.callee();
                write!(text, "T{by}/{canon}/{words}/T{callee}")
            }
        }
    }

    /// Writes the result.
    fn write_result(&self, text: &mut String) -> Result<(), AllocError> {
        match self.slot.called() {
            None => text.push_str("none"),
            Some(called) => match called.result.as_slice().first() {
                None => text.push('-'),
                Some(word) => write_number(text, *word),
            },
        }
    }

    /// Writes the answer to a word.
    fn write_answer(
        &mut self,
        alloc: Global,
        text: &mut String,
        name: &str,
        rest: &str,
    ) -> Result<(), AllocError> {
        match name {
            "c" => self.write_context(text, rest),
            "j" => write_errand(text, &self.slot),
            "by" => self.write_call(text),
            "r" => self.write_result(text),
            "tell" => write_some(text, self.slot.tell()),
            "ls" => match self.slot.lends() {
                None => text.push_str("none"),
                Some(lends) => write_list(text, lends.as_slice()),
            },
            "keep" => {
                let words = words_of(alloc, &[u64::from(number(rest))])?;
                text.push_str(yes_or_no(self.slot.keep_result(words)))
            }
            _ => text.push_str(self.answer(name, rest)),
        }
    }

    /// A new task of a kind in the place of the one that is there.
    fn begin(&mut self, alloc: Global, kind: Kind) -> Result<(), AllocError> {
        let caller = match &self.slot.caller {
            Caller::Nobody => Caller::Nobody,
            Caller::Host(call) => Caller::Host(*call),
            Caller::Guest(_) => guest(alloc)?,
        };
        self.slot = TaskSlot::new(alloc, 3, kind, Callee::Export(0), caller);
        Ok(())
    }
}

impl Acts for Changed {
    fn act(
        &mut self,
        alloc: Global,
        name: &str,
        rest: &str,
        text: &mut String,
    ) -> Result<(), Fail> {
        match name {
            "is" => {
                self.begin(alloc, kind_of(rest))?;
                write_number(text, self.slot.instance as u64)?;
            }
            "go" => {
                let callee = number(rest);
                self.set_errand(alloc, Errand::AfterCall { callee, canon: 2 })?;
                text.push_str("ok")?;
            }
            "n" => {
                self.set_errand(alloc, Errand::None)?;
                text.push_str("ok")?;
            }
            _ => self.write_answer(alloc, text, name, rest)?,
        }
        Ok(())
    }
}

/// The call of task 5.
fn guest(alloc: Global) -> Result<Caller, AllocError> {
    let words = words_of(alloc, &[4, 6])?;
    Ok(Caller::Guest(Called::new(alloc, 5, 2, words, 8)))
}

/// Tasks that task 5 called.
pub(crate) struct Guests;

impl Answers for Guests {
    fn answer(alloc: Global, given: &str) -> Result<String, Fail> {
        let caller = guest(alloc)?;
        let slot = TaskSlot::new(alloc, 3, Kind::Callback, Callee::Export(0), caller);
        acted(alloc, Changed { slot }, given)
    }
}

/// Tasks that the script called.
pub(crate) struct Hosts;

impl Answers for Hosts {
    fn answer(alloc: Global, given: &str) -> Result<String, Fail> {
        let caller = Caller::Host(1);
        let slot = TaskSlot::new(alloc, 3, Kind::Callback, Callee::Export(0), caller);
        acted(alloc, Changed { slot }, given)
    }
}
