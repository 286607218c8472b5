//! Subtasks.
//!
//! The callee (7 where none is named), what is tried of a new subtask of it, then the answers. `r:2` lets the state rise to that
//! of the code 2, `t` tells the state and answers the payload, `l:7` lends handle 7, `h` is the list of lent handles, and `e`
//! whether there is something to tell. `callee`, `payload`, `state` and `told` are what it tells without that. What may not be
//! asked for answers `no`.

use crate::texts::{number_of, write_numbers, write_value};
use cases::{Acts, Answers, acted};
use std::alloc::{AllocError, Global};
use std::test::Fail;
use tasks::{Subtask, SubtaskState};

/// The state of a code.
fn state_of(code: u32) -> SubtaskState {
    match code {
        0 => SubtaskState::Starting,
        1 => SubtaskState::Started,
        2 => SubtaskState::Returned,
        3 => SubtaskState::CancelledBeforeStarted,
        _ => SubtaskState::CancelledBeforeReturned,
    }
}

/// Lets the state rise, where it may.
fn rise(subtask: &mut Subtask, code: u32) -> &'static str {
    let state = state_of(code);
    if subtask.state().is_followed_by(state) {
        subtask.advance(state);
        "ok"
    } else {
        "no"
    }
}

/// Lends a handle, where it may be lent.
fn lend(subtask: &mut Subtask, handle: u32) -> &'static str {
    if subtask.state().is_over() {
        return "no";
    }
    match subtask.add_lend(handle) {
        Ok(()) => "ok",
        Err(_) => "memory",
    }
}

/// Tells the state, where there is something to tell.
fn tell(subtask: &mut Subtask) -> Option<u32> {
    if subtask.has_event() {
        Some(subtask.deliver())
    } else {
        None
    }
}

/// Whether there is something to tell.
fn has_event(subtask: &Subtask) -> &'static str {
    if subtask.has_event() { "yes" } else { "no" }
}

/// Writes a payload.
fn write_payload(text: &mut String, payload: Option<u32>) -> Result<(), AllocError> {
    match payload {
        Some(payload) => write_value(text, payload),
        None => text.push_str("no"),
    }
}

/// Writes what a subtask tells.
fn write_told(subtask: &Subtask, name: &str, text: &mut String) -> Result<(), AllocError> {
    match name {
        "e" => text.push_str(has_event(subtask)),
        "h" => write_numbers(text, subtask.lends().as_slice()),
        "callee" => write_value(text, subtask.callee()),
        "payload" => write_value(text, subtask.payload()),
        "state" => write_value(text, subtask.state()),
        _ => write_value(text, subtask.told()),
    }
}

/// A subtask that words change.
#[derive(Drop)]
struct Tried {
    subtask: Subtask,
}

impl Tried {
    /// Writes the answer to a word.
    fn write_answer(
        &mut self,
        name: &str,
        rest: &str,
        text: &mut String,
    ) -> Result<(), AllocError> {
        let subtask = &mut self.subtask;
        match name {
            "r" => text.push_str(rise(subtask, number_of(rest))),
            "l" => text.push_str(lend(subtask, number_of(rest))),
            "t" => write_payload(text, tell(subtask)),
            _ => write_told(subtask, name, text),
        }
    }
}

impl Acts for Tried {
    fn act(
        &mut self,
        _alloc: Global,
        name: &str,
        rest: &str,
        text: &mut String,
    ) -> Result<(), Fail> {
        self.write_answer(name, rest, text)?;
        Ok(())
    }
}

/// New subtasks.
pub(crate) struct Subtasks;

impl Answers for Subtasks {
    fn answer(alloc: Global, given: &str) -> Result<String, Fail> {
        let (callee, words) = given.split_once(": ").unwrap_or(("7", given));
        let subtask = Subtask::new(alloc, number_of(callee));
        acted(alloc, Tried { subtask }, words)
    }
}
