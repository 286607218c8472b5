//! Waitable sets of an instance.
//!
//! `mk` makes a set and answers its number, `made` tells how many were made; `j:5,0` lets the waitable 5 join set 0, `l:5` lets it leave
//! its set; `m:0` lists the members, `r:0.4,5` those that are ready where 4 and 5 are told, `a:0.4,5` says whether there is one; `on:0`
//! and `off:0` begin and end a wait, and `d:0` drops a set.

use crate::words::{list, number, pair, write_list, write_number, yes_or_no};
use cases::{Acts, Answers, acted};
use faults::Memory;
use instances::{DropSetError, Instance, SetError};
use std::alloc::{AllocError, Global};
use std::test::Fail;
use waitables::{Nums, SetRefusal};

/// What came of a joining or a wait.
fn done(answer: Result<(), SetError>) -> &'static str {
    match answer {
        Ok(()) => "ok",
        Err(SetError::NoSet) => "no-set",
        Err(SetError::Memory) => "memory",
    }
}

/// What came of a drop.
fn dropped(answer: Result<(), DropSetError>) -> &'static str {
    match answer {
        Ok(()) => "ok",
        Err(DropSetError::NoSet) => "no-set",
        Err(DropSetError::Refused(SetRefusal::Members)) => "members",
        Err(DropSetError::Refused(SetRefusal::Waiters)) => "waiters",
    }
}

/// Writes waitables.
fn write_listed(text: &mut String, listed: Result<Nums, Memory>) -> Result<(), AllocError> {
    match listed {
        Ok(numbers) => write_list(text, numbers.as_slice()),
        Err(_) => text.push_str("memory"),
    }
}

/// An instance whose sets words change.
#[derive(Drop)]
struct Waiting {
    instance: Instance,
}

impl Waiting {
    /// Writes the members of a set.
    fn write_members(&self, alloc: Global, text: &mut String, set: u64) -> Result<(), AllocError> {
        match self.instance.members(set) {
            Some(members) => write_listed(text, members.list(alloc)),
            None => text.push_str("no-set"),
        }
    }

    /// Writes which members are ready, or whether one is.
    fn write_ready(
        &self,
        alloc: Global,
        text: &mut String,
        name: &str,
        rest: &str,
    ) -> Result<(), AllocError> {
        let (set, told) = rest.split_once('.').unwrap_or((rest, ""));
        let set = u64::from(number(set));
        let told = Nums::from_vec(list(alloc, told)?);
        match name {
            "r" => write_listed(text, self.instance.ready(alloc, set, &told)),
            _ => text.push_str(yes_or_no(self.instance.any_ready(set, &told))),
        }
    }

    /// What is answered to a word about a set.
    fn answer(&mut self, name: &str, rest: &str) -> &'static str {
        let set = u64::from(number(rest));
        match name {
            "j" => {
                let (waitable, set) = pair(rest);
                done(self.instance.join(waitable, u64::from(set)))
            }
            "l" => {
                self.instance.leave_set(number(rest));
                "ok"
            }
            "on" => done(self.instance.wait_on(set)),
            "off" => yes_or_no(self.instance.wait_off(set)),
            "d" => dropped(self.instance.drop_set(set)),
            _ => "no such word",
        }
    }
}

impl Acts for Waiting {
    fn act(
        &mut self,
        alloc: Global,
        name: &str,
        rest: &str,
        text: &mut String,
    ) -> Result<(), Fail> {
        match name {
            "mk" => match self.instance.make_set(alloc) {
                Ok(set) => write_number(text, set)?,
                Err(_) => text.push_str("memory")?,
            },
            "made" => write_number(text, self.instance.sets_made())?,
            "m" => self.write_members(alloc, text, u64::from(number(rest)))?,
            "r" | "a" => self.write_ready(alloc, text, name, rest)?,
            _ => text.push_str(self.answer(name, rest))?,
        }
        Ok(())
    }
}

/// New instances.
pub(crate) struct Sets;

impl Answers for Sets {
    fn answer(alloc: Global, given: &str) -> Result<String, Fail> {
        let instance = Instance::new(alloc);
        acted(alloc, Waiting { instance }, given)
    }
}
