//! What words make of something, one after the other.

use std::alloc::Global;
use std::test::Fail;

/// Something that words change.
pub trait Acts {
    /// Does what a word says, and writes the answer. The word has a name, and what stands behind its first colon.
    fn act(&mut self, alloc: Global, name: &str, rest: &str, text: &mut String) -> Result<(), Fail>;
}

/// Does what words say, and writes their answers, with a space between two.
pub fn write_acts<S: Acts>(
    alloc: Global,
    state: &mut S,
    words: &str,
    text: &mut String,
) -> Result<(), Fail> {
    for (place, word) in words.split(' ').enumerate() {
        if place > 0 {
            text.push(' ')?;
        }
        let (name, rest) = word.split_once(':').unwrap_or((word, ""));
        state.act(alloc, name, rest, text)?;
    }
    Ok(())
}

/// The answers to words, with a space before each.
pub fn acted<S: Acts + Drop>(alloc: Global, mut state: S, words: &str) -> Result<String, Fail> {
    let mut answers = String::new(alloc);
    write_acts(alloc, &mut state, words, &mut answers)?;
    Ok(format!(in alloc; " {answers}")?)
}
