//! Tasks.
//!
//! How the task is lifted and who called it (a guest where nobody is named), what is tried, and the answers. A word of `b`
//! blocks: `be` at the entry, `bl` in the loop, `by` in yield, `bs` at a set, `bc` at a call, `bp` at a copy, `bx` at a cancel,
//! with `!` for the flag. `x0` and `x1` ask that it be cancelled, where entry is held and where it is free. `s` is the state of
//! its subtask, and `kind`, `caller`, `phase`, `borrows`, `cancellation` and `resolution` are what it tells. An event that may
//! not be asked for answers `no`. Only the task that nobody called exits unresolved.

use crate::texts::write_value;
use cases::{Acts, Answers, acted};
use entry_gate::Kind;
use std::alloc::{AllocError, Global};
use std::test::Fail;
use tasks::{Asked, BlockedAt, Caller, Task, TaskEvent, TaskTrap};

/// Where a word of `b` blocks.
fn blocked_at(name: &str) -> Option<BlockedAt> {
    match name {
        "be" => Some(BlockedAt::Entry),
        "bl" => Some(BlockedAt::Loop(18)),
        "by" => Some(BlockedAt::Yield),
        "bs" => Some(BlockedAt::Set(1)),
        "bc" => Some(BlockedAt::Call(2)),
        "bp" => Some(BlockedAt::Copy(3)),
        "bx" => Some(BlockedAt::Cancel(4)),
        _ => None,
    }
}

/// The event of another word.
fn other_event(name: &str) -> Option<TaskEvent> {
    match name {
        "enter" => Some(TaskEvent::Enter),
        "go" => Some(TaskEvent::Go),
        "ask" => Some(TaskEvent::AskReturn),
        "ret" => Some(TaskEvent::Return),
        "can" => Some(TaskEvent::Cancel),
        "bor" => Some(TaskEvent::Borrow),
        "unb" => Some(TaskEvent::Unborrow),
        "told" => Some(TaskEvent::ToldCancel),
        "exit" => Some(TaskEvent::Exit),
        _ => None,
    }
}

/// The event of a word.
fn event_of(word: &str) -> Option<TaskEvent> {
    let (name, flag) = match word.strip_suffix("!") {
        Some(name) => (name, true),
        None => (word, false),
    };
    match blocked_at(name) {
        Some(why) => Some(TaskEvent::Block(why, flag)),
        None => other_event(name),
    }
}

fn trap_text(trap: TaskTrap) -> &'static str {
    match trap {
        TaskTrap::SyncTask => "SyncTask",
        TaskTrap::NotAsked => "NotAsked",
        TaskTrap::Resolved => "Resolved",
        TaskTrap::BorrowLives => "BorrowLives",
    }
}

fn asked_text(asked: Asked) -> &'static str {
    match asked {
        Asked::Removed => "Removed",
        Asked::ResumeNow => "ResumeNow",
        Asked::Pending => "Pending",
    }
}

fn code_text(code: u32) -> &'static str {
    match code {
        0 => "0",
        1 => "1",
        2 => "2",
        3 => "3",
        _ => "4",
    }
}

/// Lets an event happen where it may be asked for.
fn advance(task: &mut Task, event: TaskEvent) -> &'static str {
    if !task.may_happen(event) {
        return "no";
    }
    match task.advance(event) {
        Ok(()) => "ok",
        Err(trap) => trap_text(trap),
    }
}

/// Asks that the task be cancelled, where it may be asked.
fn request(task: &mut Task, entry_free: bool) -> &'static str {
    if !task.may_cancel() {
        return "no";
    }
    asked_text(task.request_cancel(entry_free))
}

/// The answer to a word.
fn answer(task: &mut Task, word: &str) -> &'static str {
    match word {
        "x0" => request(task, false),
        "x1" => request(task, true),
        "s" => code_text(task.state().code()),
        _ => match event_of(word) {
            Some(event) => advance(task, event),
            None => "?",
        },
    }
}

/// Writes what a task tells, or else the answer to a word.
fn write_answer(task: &mut Task, word: &str, text: &mut String) -> Result<(), AllocError> {
    match word {
        "kind" => write_value(text, task.kind()),
        "caller" => write_value(text, task.caller()),
        "phase" => write_value(text, task.phase()),
        "borrows" => write_value(text, task.borrows()),
        "cancellation" => write_value(text, task.cancellation()),
        "resolution" => write_value(text, task.resolution()),
        _ => text.push_str(answer(task, word)),
    }
}

/// A task that words change.
#[derive(Drop)]
struct Tried {
    task: Task,
}

impl Acts for Tried {
    fn act(
        &mut self,
        _alloc: Global,
        name: &str,
        _rest: &str,
        text: &mut String,
    ) -> Result<(), Fail> {
        write_answer(&mut self.task, name, text)?;
        Ok(())
    }
}

/// How a task is lifted.
fn kind_of(name: &str) -> Kind {
    match name {
        "sync" => Kind::Sync,
        "callback" => Kind::Callback,
        _ => Kind::Stackful,
    }
}

/// Who called a task.
fn caller_of(name: &str) -> Caller {
    match name {
        "host" => Caller::Host(3),
        "nobody" => Caller::Nobody,
        _ => Caller::Guest(1),
    }
}

/// A new task, by how it is lifted and who called it.
fn task_of(head: &str) -> Task {
    let (kind, caller) = head.split_once(' ').unwrap_or((head, ""));
    Task::new(kind_of(kind), caller_of(caller))
}

/// New tasks.
pub(crate) struct Tasks;

impl Answers for Tasks {
    fn answer(alloc: Global, given: &str) -> Result<String, Fail> {
        let (head, words) = given.split_once(": ").ok_or("no kind")?;
        let task = task_of(head);
        acted(alloc, Tried { task }, words)
    }
}
