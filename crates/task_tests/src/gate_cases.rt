//! Gates, and the words of callbacks.
//!
//! What is done at a new gate, then what is answered. `new:K` and `old:K` ask whether a newcomer, or one that waits, of kind
//! sync, callback or stackful may enter; `enter:K` lets task 1 in, `two:K` task 2, and `let:5.K` task 5; `waiting` asks how many
//! wait. `fill` raises the backpressure 65,535 times. The table of callbacks has the word of a callback, then what it says.

use crate::texts::{number_of, write_behind, write_value};
use cases::{Acts, Answers, Steps, acted, write_acts};
use entry_gate::{BadCode, Gate, Kind, Next, read_callback};
use std::alloc::{AllocError, Global};
use std::test::Fail;

/// A kind by its name.
fn kind_of(name: &str) -> Kind {
    match name {
        "sync" => Kind::Sync,
        "callback" => Kind::Callback,
        _ => Kind::Stackful,
    }
}

/// An answer to a question.
fn yes_or_no(answer: bool) -> &'static str {
    if answer { "y" } else { "n" }
}

/// Raises the backpressure 65,535 times.
fn fill(gate: &mut Gate) -> &'static str {
    for _ in 0..65_535u32 {
        if gate.inc().is_err() {
            return "limit";
        }
    }
    "ok"
}

/// Does what a word without a name says.
fn act(gate: &mut Gate, word: &str) -> &'static str {
    match word {
        "fill" => fill(gate),
        "free" => yes_or_no(gate.is_free()),
        "inc" => match gate.inc() {
            Ok(()) => "ok",
            Err(_) => "limit",
        },
        "dec" => match gate.dec() {
            Ok(()) => "ok",
            Err(_) => "zero",
        },
        "wait" => {
            if gate.waiting() > 1000 {
                return "many";
            }
            gate.wait();
            "ok"
        }
        "unwait" => {
            if gate.waiting() == 0 {
                return "none";
            }
            gate.unwait();
            "ok"
        }
        _ => "no such word",
    }
}

/// Lets a task of a kind in.
fn let_in(gate: &mut Gate, words: &str) {
    let (task, kind) = words.split_once('.').unwrap_or(("", words));
    gate.enter(number_of(task), kind_of(kind));
}

/// Does what a word says of a kind, a task or a number.
fn act_on(gate: &mut Gate, word: &str, name: &str) -> &'static str {
    let number = number_of(name);
    match word {
        "new" => return yes_or_no(gate.may_enter(kind_of(name), true)),
        "old" => return yes_or_no(gate.may_enter(kind_of(name), false)),
        "enter" => gate.enter(1, kind_of(name)),
        "two" => gate.enter(2, kind_of(name)),
        "let" => let_in(gate, name),
        "leave" => gate.leave(number),
        "pause" => gate.pause(number),
        "take_back" => gate.take_back(number),
        "set" => gate.set(number),
        _ => return "no such word",
    }
    "ok"
}

/// A gate that words change.
#[derive(Drop)]
pub(crate) struct Door {
    gate: Gate,
}

impl Door {
    /// Writes the answer to a word.
    fn write_answer(
        &mut self,
        name: &str,
        rest: &str,
        text: &mut String,
    ) -> Result<(), AllocError> {
        if name == "waiting" {
            write_value(text, self.gate.waiting())
        } else if rest.is_empty() {
            text.push_str(act(&mut self.gate, name))
        } else {
            text.push_str(act_on(&mut self.gate, name, rest))
        }
    }
}

impl Acts for Door {
    fn act(
        &mut self,
        _alloc: Global,
        name: &str,
        rest: &str,
        text: &mut String,
    ) -> Result<(), Fail> {
        self.write_answer(name, rest, text)?;
        Ok(())
    }
}

impl Steps for Door {
    fn step(&mut self, alloc: Global, line: &str, text: &mut String) -> Result<(), Fail> {
        write_acts(alloc, self, line, text)
    }

    fn begin(_alloc: Global, _title: &str) -> Result<Door, Fail> {
        Ok(Door { gate: Gate::new() })
    }
}

/// New gates.
pub(crate) struct Doors;

impl Answers for Doors {
    fn answer(alloc: Global, given: &str) -> Result<String, Fail> {
        acted(alloc, Door { gate: Gate::new() }, given)
    }
}

/// Writes what a word says.
fn write_said(text: &mut String, word: u32) -> Result<(), AllocError> {
    match read_callback(word) {
        Ok(Next::Exit) => text.push_str("exit"),
        Ok(Next::Yield) => text.push_str("yield"),
        Ok(Next::Wait(set)) => write_behind(text, "wait ", set),
        Ok(Next::Poll(set)) => write_behind(text, "poll ", set),
        Err(BadCode) => text.push_str("bad code"),
    }
}

/// What words of callbacks say.
pub(crate) struct Callbacks;

impl Answers for Callbacks {
    fn answer(alloc: Global, given: &str) -> Result<String, Fail> {
        let mut text = String::new(alloc);
        write_said(&mut text, number_of(given))?;
        Ok(text)
    }
}
