//! What a line of a case says.

use std::alloc::Global;
use std::test::Fail;

/// What a line says: its first word, what stands behind it, and the numbers in that.
#[derive(Clone, Copy)]
pub(crate) struct Said<'a> {
    /// The first word.
    pub name: &'a str,
    /// What stands behind it.
    pub rest: &'a str,
    /// The numbers in that.
    pub numbers: &'a [u32],
}

impl<'a> Said<'a> {
    /// The number at a place, 0 where there is none.
    pub(crate) fn nth(self, place: usize) -> u32 {
        match self.numbers.get(place) {
            Some(number) => *number,
            None => 0,
        }
    }

    /// The instance of the number at a place, counted from 1.
    pub(crate) fn at(self, place: usize) -> usize {
        self.nth(place).saturating_sub(1) as usize
    }

    /// The word behind the first one, and what stands behind it.
    pub(crate) fn second(self) -> (&'a str, &'a str) {
        front(self.rest)
    }
}

/// The first word of a text, and what stands behind it.
pub(crate) fn front(text: &str) -> (&str, &str) {
    text.split_once(' ').unwrap_or((text, ""))
}

/// The numbers of a text.
pub(crate) fn numbers_of(alloc: Global, text: &str) -> Result<Vec<u32>, Fail> {
    let mut numbers = Vec::new(alloc);
    for word in text.split_whitespace() {
        if let Ok(number) = word.parse::<u32>() {
            numbers.push(number)?;
        }
    }
    Ok(numbers)
}

/// The words of a text.
pub(crate) fn words_of(alloc: Global, text: &str) -> Result<Vec<u64>, Fail> {
    let mut words = Vec::new(alloc);
    for word in text.split_whitespace() {
        words.push(word.parse::<u64>()?)?;
    }
    Ok(words)
}
