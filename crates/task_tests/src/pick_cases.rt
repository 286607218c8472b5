//! Picks.
//!
//! The picks (`-` where there are none), then the numbers of alternatives, then what is picked among them. `push:5` adds a
//! pick.

use crate::texts::{number_of, write_value};
use cases::{Acts, Answers, acted};
use choices::Picks;
use std::alloc::{AllocError, Global};
use std::test::Fail;

/// The picks of a text.
fn picks_of(alloc: Global, text: &str) -> Result<Picks, AllocError> {
    let mut picks = Picks::new(alloc);
    for word in text.trim_matches('-').split_whitespace() {
        picks.push(number_of(word))?;
    }
    Ok(picks)
}

/// Picks that are taken.
#[derive(Drop)]
struct Taken {
    picks: Picks,
}

impl Taken {
    /// Adds a pick.
    fn push(&mut self, pick: u32, text: &mut String) -> Result<(), AllocError> {
        self.picks.push(pick)?;
        text.push_str("ok")
    }

    /// Picks among so many alternatives.
    fn pick(&mut self, alternatives: u32, text: &mut String) -> Result<(), AllocError> {
        if alternatives == 0 {
            return text.push_str("no alternatives");
        }
        write_value(text, self.picks.pick(alternatives))
    }

    /// Writes the answer to a word.
    fn write_answer(
        &mut self,
        name: &str,
        rest: &str,
        text: &mut String,
    ) -> Result<(), AllocError> {
        match name {
            "push" => self.push(number_of(rest), text),
            _ => self.pick(number_of(name), text),
        }
    }
}

impl Acts for Taken {
    fn act(
        &mut self,
        _alloc: Global,
        name: &str,
        rest: &str,
        text: &mut String,
    ) -> Result<(), Fail> {
        self.write_answer(name, rest, text)?;
        Ok(())
    }
}

/// What is picked.
pub(crate) struct Choices;

impl Answers for Choices {
    fn answer(alloc: Global, given: &str) -> Result<String, Fail> {
        let (picks, points) = given.split_once(" : ").ok_or("no picks")?;
        let picks = picks_of(alloc, picks)?;
        acted(alloc, Taken { picks }, points)
    }
}
