//! What the lines of a case do.
//!
//! A line that begins with a number is a call of a canonical function by the task of that number, with words: `1 waitable-set.new`. Instances are
//! counted from 1. The answer is what is to be done then, with what a stack that goes on is answered, or the name of the trap; behind it are
//! the lines of the trace that the step wrote.
//!
//! - `start sync 1`: the script calls a function of instance 1 that is lifted so, and its task enters or waits to; the task (its lines are
//!   left out). `take sync 1`: the script's call alone. `cancel 1`: the script cancels its first call
//! - `arrive`: whether the acting task, which is new, enters; `enter 1`: task 1 does; `admit`: both. `back`: control is back at the acting task.
//!   `leave`: it exits. `end 1` and `loop 1 18`: task 1 comes to its end, or its callback answers a word. `turn 1 2 3`: one of an item and the
//!   tasks 2 and 3 is picked, and `turn 0 2 3` or `go 2 3` one of the tasks alone; `resume`: the task that was picked goes on, and its event
//!   comes to it; `go-now`: the acting task, which was cancelled, is to go on
//! - `return 1` and `return 1 7`: task 1 resolves without a result, or with 7; `keep 1 7`: the core value of its result is 7. `begin 1 yield`:
//!   the line of a call. `check u32 string 1 2`: what `task.return` tests of a u32 where the function of task 1 gives a string, with the memory
//!   of core instance 2, or of none for 0
//! - `own 1 2 7` and `borrow 1 2 7 3`: an own handle, and one made for task 3, of resource 2 and representation 7 in instance 1; `lend 1 2 3 4`:
//!   handle 2 of instance 1, of resource 3, is lent for the call of task 4; `fill 1 9`: 9 own handles; `pass 1 2 3`: what stands at index 2
//!   of instance 1 goes to instance 3; `press 1 3` and `lift 1`: the backpressure rises thrice, and falls; `fuel 1`, `picks 1 0`: what the
//!   script gives
//! - `move`: what goes over for the last call; `complete 7 8`: the bytes 7 and 8 have, or without bytes elements that hold nothing
//! - `entry 1 2`: what stands at index 2 of instance 1; `table 1`: all of it; `task 1`: how far task 1 is, how it is resolved, how far its
//!   cancellation is, and its borrow handles; `rest`: where the run is, and the running tasks; `able`: the tasks that can go on;
//!   `bytes 1 16 8`: bytes of a memory; `stream 1`, `future 1`: the offer that stands; `may-leave`

use crate::calling::resumed;
use crate::playing::Played;
use crate::saying::{Said, front, numbers_of, words_of};
use crate::setting::{admit, take};
use crate::telling::{
    write_came, write_done, write_entry, write_flowed, write_lines, write_moving, write_numbers,
    write_offer, write_rest, write_task, write_turned,
};
use builtin_kinds::EndKind;
use event_replies::able;
use replies::{back, cancel_call, may_leave};
use std::alloc::{AllocError, Global};
use std::fmt::Write;
use std::test::Fail;
use syntax_trees::Seq;
use task_turns::{arrive, end, enter, go_now, leave, loop_word, turn};
use world_cases::{add_borrow, add_own, fill, keep, lend, lift, pass, press};
use world_parts::Stop;

/// What is written, or that it is not for want of memory.
fn wrote(came: Result<(), AllocError>) -> Result<(), Fail> {
    Ok(came?)
}

impl Played {
    /// Calls a canonical function by a name.
    fn write_call(
        &mut self,
        alloc: Global,
        task: u32,
        rest: &str,
        text: &mut String,
    ) -> Result<(), Fail> {
        let (name, words) = front(rest);
        let Ok(at) = self.parts.instance_of(task) else {
            return wrote(write_flowed(text, Err(Stop::Stuck)));
        };
        let number = self.named.canon(at, name).ok_or("no such function")?;
        let words = words_of(alloc, words)?;
        wrote(write_flowed(text, self.call(alloc, task, number, &words)))
    }

    /// Writes the line of a call.
    fn write_begin(&mut self, alloc: Global, rest: &str, text: &mut String) -> Result<(), Fail> {
        let (task, rest) = rest.split_once(' ').ok_or("no function")?;
        let task = task.parse::<u32>()?;
        let (name, words) = front(rest);
        let number = self.named.canon(0, name).ok_or("no such function")?;
        let words = words_of(alloc, words)?;
        wrote(write_done(text, self.begin(alloc, task, number, &words)))
    }

    /// Writes what stands at indices of an instance.
    fn write_entries(
        &self,
        alloc: Global,
        at: usize,
        indices: &[u32],
        text: &mut String,
    ) -> Result<(), AllocError> {
        for (place, index) in indices.iter().enumerate() {
            if place > 0 {
                text.push_str(", ")?;
            }
            write!(text, "{index} ")?;
            write_entry(alloc, text, &self.parts, at, *index)?;
        }
        Ok(())
    }

    /// Writes all that stands in the table of an instance.
    fn write_table(&self, alloc: Global, at: usize, text: &mut String) -> Result<(), Fail> {
        let Some(instance) = self.parts.instances.get(at) else {
            return Err(Fail::new("no instance"));
        };
        let indices = instance.indices(alloc)?;
        if indices.is_empty() {
            return wrote(text.push_str("empty"));
        }
        wrote(self.write_entries(alloc, at, indices.as_slice(), text))
    }

    /// Writes bytes of a memory.
    fn write_bytes(&self, said: Said<'_>, text: &mut String) -> Result<(), Fail> {
        let memory = said.at(0);
        if memory >= self.parts.store.memory_count() {
            return Err(Fail::new("no memory"));
        }
        let bytes = self.parts.store.memory(memory).iter();
        for byte in bytes.skip(said.nth(1) as usize).take(said.nth(2) as usize) {
            write!(text, "{byte:02x}")?;
        }
        Ok(())
    }

    /// Writes the tasks that can go on.
    fn write_able(&self, alloc: Global, text: &mut String) -> Result<(), Fail> {
        match able(alloc, &self.named.graph, &self.parts) {
            Ok(tasks) => wrote(write_numbers(text, tasks.as_slice())),
            Err(_) => Err(Fail::new("want of memory")),
        }
    }

    /// Whether the acting task may leave its instance.
    fn leaves(&self) -> &'static str {
        if may_leave(&self.parts) { "yes" } else { "no" }
    }

    /// Writes what a line asks of the world.
    fn write_told(&self, alloc: Global, said: Said<'_>, text: &mut String) -> Result<(), Fail> {
        let (parts, first) = (&self.parts, said.nth(0));
        match said.name {
            "entry" => wrote(write_entry(alloc, text, parts, said.at(0), said.nth(1))),
            "table" => self.write_table(alloc, said.at(0), text),
            "task" => wrote(write_task(text, parts, first)),
            "rest" => wrote(write_rest(text, parts)),
            "able" => self.write_able(alloc, text),
            "bytes" => self.write_bytes(said, text),
            "stream" => wrote(write_offer(text, parts, EndKind::Stream, first)),
            "future" => wrote(write_offer(text, parts, EndKind::Future, first)),
            "move" => wrote(write_moving(text, self.moving())),
            "may-leave" => wrote(text.push_str(self.leaves())),
            _ => Err(Fail::new("no such word")),
        }
    }

    /// Does what a line says that answers a number; what another line says.
    fn write_number(
        &mut self,
        alloc: Global,
        said: Said<'_>,
        text: &mut String,
    ) -> Result<(), Fail> {
        let (at, second, third) = (said.at(0), said.nth(1), said.nth(2));
        let parts = &mut self.parts;
        match said.name {
            "start" => wrote(write_came(text, self.start(alloc, said))),
            "own" => wrote(write_came(text, add_own(parts, at, second, third))),
            "borrow" => {
                let added = add_borrow(parts, at, second, third, said.nth(3));
                wrote(write_came(text, added))
            }
            "fill" => wrote(write_came(text, fill(parts, at, second))),
            "pass" => wrote(write_came(text, pass(parts, at, second, said.at(2)))),
            _ => self.write_told(alloc, said, text),
        }
    }

    /// Does what a line says that has no answer; what another line says.
    fn write_part(&mut self, alloc: Global, said: Said<'_>, text: &mut String) -> Result<(), Fail> {
        let (at, first, second) = (said.at(0), said.nth(0), said.nth(1));
        let parts = &mut self.parts;
        match said.name {
            "return" => wrote(write_done(text, self.resolve(said))),
            "check" => wrote(write_done(text, self.check(said))),
            "enter" => wrote(write_done(text, enter(parts, first))),
            "lift" => wrote(write_done(text, lift(parts, at))),
            "go-now" => wrote(write_done(text, go_now(parts))),
            "keep" => wrote(write_done(text, keep(alloc, parts, first, second))),
            "lend" => {
                let lent = lend(parts, at, second, said.nth(2), said.nth(3));
                wrote(write_done(text, lent))
            }
            "press" => wrote(write_done(text, press(parts, at, second))),
            _ => self.write_number(alloc, said, text),
        }
    }

    /// Does what a line says after which something is to be done; what another line says.
    fn write_flow(&mut self, alloc: Global, said: Said<'_>, text: &mut String) -> Result<(), Fail> {
        let (at, first) = (said.at(0), said.nth(0));
        let (parts, graph) = (&mut self.parts, &self.named.graph);
        match said.name {
            "take" => wrote(write_flowed(text, take(alloc, parts, said.second().0, at))),
            "cancel" => wrote(write_flowed(text, cancel_call(parts, first))),
            "arrive" => wrote(write_flowed(text, arrive(parts))),
            "admit" => wrote(write_flowed(text, admit(parts))),
            "back" => wrote(write_flowed(text, back(alloc, graph, parts))),
            "leave" => wrote(write_flowed(text, leave(parts))),
            "end" => wrote(write_flowed(text, end(parts, first))),
            "loop" => wrote(write_flowed(text, loop_word(parts, first, said.nth(1)))),
            "resume" => wrote(write_flowed(text, resumed(alloc, graph, parts))),
            "complete" => wrote(write_flowed(text, self.complete(alloc, said.numbers))),
            _ => self.write_part(alloc, said, text),
        }
    }

    /// Does what a line says of turns and of what the script gives; what another line says.
    fn write_turn(&mut self, alloc: Global, said: Said<'_>, text: &mut String) -> Result<(), Fail> {
        match said.name {
            "begin" => self.write_begin(alloc, said.rest, text),
            "go" => wrote(write_turned(text, turn(&mut self.parts, false, said.numbers))),
            "turn" => {
                let tasks = said.numbers.get(1..).unwrap_or(&[]);
                let came = turn(&mut self.parts, said.nth(0) == 1, tasks);
                wrote(write_turned(text, came))
            }
            "picks" | "fuel" => {
                self.give(said)?;
                wrote(text.push_str("ok"))
            }
            _ => self.write_flow(alloc, said, text),
        }
    }

    /// Does what a line says.
    fn write_act(
        &mut self,
        alloc: Global,
        name: &str,
        rest: &str,
        text: &mut String,
    ) -> Result<(), Fail> {
        let numbers = numbers_of(alloc, rest)?;
        let numbers = numbers.as_slice();
        self.write_turn(
            alloc,
            Said {
                name,
                rest,
                numbers,
            },
            text,
        )
    }

    /// Does what a line says, and writes what comes of it with the lines of the trace.
    pub(crate) fn write_step(
        &mut self,
        alloc: Global,
        line: &str,
        text: &mut String,
    ) -> Result<(), Fail> {
        self.parts.feed.labels = Seq::new(alloc);
        let (name, rest) = front(line);
        match name.parse::<u32>() {
            Ok(task) => self.write_call(alloc, task, rest, text)?,
            Err(_) => self.write_act(alloc, name, rest, text)?,
        }
        wrote(write_lines(alloc, text, self.parts.feed.labels.as_slice()))
    }
}
