//! What a line of words says.
//!
//! A line has a title and parts with bars between, each of a word and what it says. A part that is not there says what is usual.

use std::alloc::{AllocError, Global};
use std::test::Fail;

/// What the part of a word says, or what is usual.
pub(crate) fn given<'t>(line: &'t str, word: &str, usual: &'t str) -> &'t str {
    for part in line.split(" | ").skip(1) {
        let (name, rest) = part.split_once(' ').unwrap_or((part, ""));
        if name == word {
            return rest;
        }
    }
    usual
}

/// Whether a part begins with a word that is known.
fn is_known(part: &str) -> bool {
    let (name, _) = part.split_once(' ').unwrap_or((part, ""));
    matches!(
        name,
        "do" | "type"
            | "task"
            | "words"
            | "by"
            | "result"
            | "host"
            | "resolved"
            | "first"
            | "second"
            | "memories"
            | "in"
            | "out"
            | "joined"
            | "joined-out"
            | "at"
            | "from"
            | "count"
            | "code"
            | "takes"
            | "func"
            | "units"
            | "context"
            | "does"
    )
}

/// Fails where a part behind the title begins with a word that is not known.
pub(crate) fn check_words(line: &str) -> Result<(), Fail> {
    for part in line.split(" | ").skip(1) {
        if !is_known(part) {
            return Err(Fail::new("an unknown word"));
        }
    }
    Ok(())
}

/// The numbers of a text with blanks between.
pub(crate) fn words_of(alloc: Global, text: &str) -> Result<Vec<u64>, Fail> {
    let mut words = Vec::new(alloc);
    for word in text.split_whitespace() {
        words.push(word.parse::<u64>()?)?;
    }
    Ok(words)
}

/// The indices of a text with blanks between.
pub(crate) fn indices_of(alloc: Global, text: &str) -> Result<Vec<u32>, AllocError> {
    let mut indices = Vec::new(alloc);
    for word in text.split_whitespace() {
        if let Ok(index) = word.parse::<u32>() {
            indices.push(index)?;
        }
    }
    Ok(indices)
}
