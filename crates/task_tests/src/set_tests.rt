//! Waitable sets.
//!
//! Calls, then answers. `m` makes a set and answers its number; `j:5.1` lets waitable 5 join set 1, and `l:5` lets it leave its
//! set; `w:1` and `o:1` begin and end a wait on set 1; `d:1` drops it; `s:1` is the list of its members; `r:1.4,5` that of the
//! ready ones where 4 and 5 are told, and `a:1.4,5` whether there is one. A set that wasn't made answers `no`.

use crate::texts::{number_of, numbers_of, write_numbers, write_value};
use cases::{Acts, Answers, Steps, acted, write_acts};
use faults::Memory;
use std::alloc::{AllocError, Global};
use std::test::Fail;
use waitables::{Nums, SetRefusal, Sets};

/// What a drop answers.
fn drop_text(answer: Result<(), SetRefusal>) -> &'static str {
    match answer {
        Ok(()) => "ok",
        Err(SetRefusal::Members) => "members",
        Err(SetRefusal::Waiters) => "waiters",
    }
}

/// Begins a wait on a set.
fn wait_on(sets: &mut Sets, set: u64) -> &'static str {
    if set >= sets.len() {
        return "no";
    }
    if sets.waiters(set) < 99 {
        sets.wait_on(set);
    }
    "ok"
}

/// Ends a wait on a set, where there is one.
fn wait_off(sets: &mut Sets, set: u64) -> &'static str {
    if set >= sets.len() || sets.waiters(set) == 0 {
        return "no";
    }
    sets.wait_off(set);
    "ok"
}

/// Drops a set.
fn drop_set(sets: &mut Sets, set: u64) -> &'static str {
    if set >= sets.len() {
        return "no";
    }
    drop_text(sets.drop_set(set))
}

/// Writes waitables of a set.
fn write_listed(text: &mut String, listed: Result<Nums, Memory>) -> Result<(), AllocError> {
    match listed {
        Ok(numbers) => write_numbers(text, numbers.as_slice()),
        Err(_) => text.push_str("memory"),
    }
}

/// Writes the members of a set.
fn write_members(
    alloc: Global,
    sets: &Sets,
    set: u64,
    text: &mut String,
) -> Result<(), AllocError> {
    if set >= sets.len() {
        return text.push_str("no");
    }
    write_listed(text, sets.members(set).list(alloc))
}

/// Writes the ready ones of a set.
fn write_ready(
    alloc: Global,
    sets: &Sets,
    set: u64,
    told: &Nums,
    text: &mut String,
) -> Result<(), AllocError> {
    if set >= sets.len() {
        return text.push_str("no");
    }
    write_listed(text, sets.ready(alloc, set, told))
}

/// Whether there is a ready one in a set.
fn any_ready(sets: &Sets, set: u64, told: &Nums) -> &'static str {
    if set >= sets.len() || !sets.any_ready(set, told) {
        return "no";
    }
    "yes"
}

/// Lets a waitable join a set.
fn join(sets: &mut Sets, waitable: u32, set: u64) -> &'static str {
    if set >= sets.len() {
        return "no";
    }
    if sets.join(waitable, set).is_ok() {
        "ok"
    } else {
        "memory"
    }
}

/// Writes what is told of a set where these waitables are told.
fn write_told(
    alloc: Global,
    sets: &Sets,
    name: &str,
    set: u64,
    told: &Nums,
    text: &mut String,
) -> Result<(), AllocError> {
    match name {
        "r" => write_ready(alloc, sets, set, told, text),
        _ => text.push_str(any_ready(sets, set, told)),
    }
}

/// The same where the waitables of a text are told.
fn write_told_in(
    alloc: Global,
    sets: &Sets,
    name: &str,
    set: u64,
    waitables: &str,
    text: &mut String,
) -> Result<(), AllocError> {
    let told = Nums::from_vec(numbers_of(alloc, waitables)?);
    write_told(alloc, sets, name, set, &told, text)
}

/// Writes the number of a set that is made.
fn write_made(text: &mut String, made: Result<u64, Memory>) -> Result<(), AllocError> {
    match made {
        Ok(set) => write_value(text, set),
        Err(_) => text.push_str("memory"),
    }
}

/// Sets that calls change.
#[derive(Drop)]
pub(crate) struct Called {
    sets: Sets,
}

impl Called {
    /// The answer to a call that tells of no waitables.
    fn answer(&mut self, name: &str, first: u32, second: u32) -> &'static str {
        let set = u64::from(first);
        match name {
            "j" => join(&mut self.sets, first, u64::from(second)),
            "l" => {
                self.sets.leave(first);
                "ok"
            }
            "w" => wait_on(&mut self.sets, set),
            "o" => wait_off(&mut self.sets, set),
            "d" => drop_set(&mut self.sets, set),
            _ => "?",
        }
    }

    /// Writes the answer to a call.
    fn write_answer(
        &mut self,
        alloc: Global,
        name: &str,
        first: &str,
        second: &str,
        text: &mut String,
    ) -> Result<(), AllocError> {
        let number = number_of(first);
        let set = u64::from(number);
        match name {
            "m" => write_made(text, self.sets.make(alloc)),
            "s" => write_members(alloc, &self.sets, set, text),
            "r" | "a" => write_told_in(alloc, &self.sets, name, set, second, text),
            _ => text.push_str(self.answer(name, number, number_of(second))),
        }
    }
}

impl Acts for Called {
    fn act(
        &mut self,
        alloc: Global,
        name: &str,
        rest: &str,
        text: &mut String,
    ) -> Result<(), Fail> {
        let (first, second) = rest.split_once(".").unwrap_or((rest, ""));
        self.write_answer(alloc, name, first, second, text)?;
        Ok(())
    }
}

impl Steps for Called {
    fn step(&mut self, alloc: Global, line: &str, text: &mut String) -> Result<(), Fail> {
        write_acts(alloc, self, line, text)
    }

    fn begin(alloc: Global, _title: &str) -> Result<Called, Fail> {
        let sets = Sets::new(alloc);
        Ok(Called { sets })
    }
}

/// No sets at first.
pub(crate) struct Calls;

impl Answers for Calls {
    fn answer(alloc: Global, given: &str) -> Result<String, Fail> {
        let sets = Sets::new(alloc);
        acted(alloc, Called { sets }, given)
    }
}
