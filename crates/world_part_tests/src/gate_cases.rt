//! Who enters an instance.
//!
//! `new:sync` and `old:sync` ask whether a newcomer and a task that waits may enter, `free` whether no task holds exclusive entry;
//! `wait` and `unwait` begin and end a wait; `sync:7`, `callback:7` and `stackful:7` let task 7 enter, `leave:7` lets it leave, `pause:7`
//! block in its loop, and `back:7` go on in it; `inc`, `dec` and `set:5` change the backpressure.

use crate::words::{number, yes_or_no};
use cases::{Acts, Answers, acted};
use entry_gate::Kind;
use instances::Instance;
use std::alloc::Global;
use std::test::Fail;

/// The kind of a name.
pub(crate) fn kind_of(name: &str) -> Kind {
    match name {
        "sync" => Kind::Sync,
        "stackful" => Kind::Stackful,
        _ => Kind::Callback,
    }
}

/// An instance that words let tasks enter.
#[derive(Drop)]
struct Door {
    instance: Instance,
}

impl Door {
    /// Changes the backpressure.
    fn press(&mut self, name: &str, rest: &str) -> &'static str {
        match name {
            "inc" => match self.instance.raise_pressure() {
                Ok(()) => "ok",
                Err(_) => "limit",
            },
            "dec" => match self.instance.lower_pressure() {
                Ok(()) => "ok",
                Err(_) => "zero",
            },
            "set" => {
                self.instance.set_pressure(number(rest));
                "ok"
            }
            _ => "no such word",
        }
    }

    /// Lets a task come, go, or block.
    fn pass(&mut self, name: &str, rest: &str) -> &'static str {
        let task = number(rest);
        match name {
            "sync" | "callback" | "stackful" => self.instance.enter(task, kind_of(name)),
            "leave" => self.instance.leave(task),
            "pause" => self.instance.pause(task),
            "back" => self.instance.take_back(task),
            _ => return self.press(name, rest),
        }
        "ok"
    }

    /// What is answered to a word.
    fn answer(&mut self, name: &str, rest: &str) -> &'static str {
        match name {
            "new" => yes_or_no(self.instance.may_enter(kind_of(rest), true)),
            "old" => yes_or_no(self.instance.may_enter(kind_of(rest), false)),
            "free" => yes_or_no(self.instance.is_entry_free()),
            "wait" => match self.instance.wait() {
                Ok(()) => "ok",
                Err(_) => "memory",
            },
            "unwait" => yes_or_no(self.instance.unwait()),
            _ => self.pass(name, rest),
        }
    }
}

impl Acts for Door {
    fn act(
        &mut self,
        _alloc: Global,
        name: &str,
        rest: &str,
        text: &mut String,
    ) -> Result<(), Fail> {
        text.push_str(self.answer(name, rest))?;
        Ok(())
    }
}

/// New instances.
pub(crate) struct Gates;

impl Answers for Gates {
    fn answer(alloc: Global, given: &str) -> Result<String, Fail> {
        let instance = Instance::new(alloc);
        acted(alloc, Door { instance }, given)
    }
}
