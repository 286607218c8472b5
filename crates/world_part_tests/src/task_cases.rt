//! The tasks of a run.
//!
//! `new:1` makes a task in instance 1 that nobody called, `host:1` one that the script called, `by:2,0` one in instance 2 that task 0
//! called; `x:1` lets task 1 exit, and `live` tells those that have not; `park:1` says that task 1 waits for exclusive entry, `queue:1` that it
//! waits to enter otherwise, and `unpark:1` that it does so no more; of those that have not exited `watched` tells which don't wait for
//! exclusive entry, and `awake` which don't wait to enter; `in:2,1` asks whether instance 1 is that of task 2 or of one of its callers.

use crate::words::{number, pair, write_list, write_number, yes_or_no};
use cases::{Acts, Answers, acted};
use entry_gate::Kind;
use std::alloc::Global;
use std::test::Fail;
use task_table::{Called, Callee, Caller, TaskSlot, Tasks, Words};

/// Tasks that words change.
#[derive(Drop)]
struct Run {
    tasks: Tasks,
}

impl Run {
    /// Makes a task in an instance, and answers its number.
    fn make(&mut self, alloc: Global, instance: u32, caller: Caller) -> Result<u32, Fail> {
        let slot = TaskSlot::new(
            alloc,
            instance as usize,
            Kind::Callback,
            Callee::Export(0),
            caller,
        );
        match self.tasks.add(slot) {
            Ok(task) => Ok(task),
            Err(_) => Err(Fail::new("want of memory")),
        }
    }

    /// The number of the next task.
    fn next(&self) -> u32 {
        match self.tasks.next() {
            Ok(task) => task,
            Err(_) => 0,
        }
    }

    /// Who calls by these words.
    fn caller(&self, alloc: Global, name: &str, by: u32) -> Caller {
        match name {
            "by" => Caller::Guest(Called::new(alloc, by, 0, Words::new(alloc), self.next())),
            "host" => Caller::Host(1),
            _ => Caller::Nobody,
        }
    }
}

impl Acts for Run {
    fn act(
        &mut self,
        alloc: Global,
        name: &str,
        rest: &str,
        text: &mut String,
    ) -> Result<(), Fail> {
        match name {
            "live" => {
                let live: Vec<u32> = self.tasks.live.iter().copied().collect(alloc)?;
                write_list(text, &live)?;
            }
            "watched" => {
                let watched: Vec<u32> = self.tasks.watched.iter().copied().collect(alloc)?;
                write_list(text, &watched)?;
            }
            "awake" => {
                let awake: Vec<u32> = self.tasks.awake.iter().copied().collect(alloc)?;
                write_list(text, &awake)?;
            }
            "queue" => {
                self.tasks.queue(number(rest));
                text.push_str("ok")?;
            }
            "park" => {
                self.tasks.park(number(rest));
                text.push_str("ok")?;
            }
            "unpark" => {
                let unparked = self.tasks.unpark(number(rest)).is_ok();
                text.push_str(yes_or_no(unparked))?;
            }
            "x" => {
                self.tasks.close(number(rest));
                text.push_str("ok")?;
            }
            "in" => {
                let (task, instance) = pair(rest);
                let is = self.tasks.is_among_callers(task, instance as usize);
                text.push_str(yes_or_no(is))?;
            }
            _ => {
                let (instance, by) = pair(rest);
                let caller = self.caller(alloc, name, by);
                let task = self.make(alloc, instance, caller)?;
                write_number(text, u64::from(task))?;
            }
        }
        Ok(())
    }
}

/// Runs without tasks.
pub(crate) struct Runs;

impl Answers for Runs {
    fn answer(alloc: Global, given: &str) -> Result<String, Fail> {
        let tasks = Tasks::new(alloc);
        acted(alloc, Run { tasks }, given)
    }
}
