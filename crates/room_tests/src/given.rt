//! What a line of words says.
//!
//! A line has a title and parts with bars between, each of a word and what it says. A part that is not there says what is usual.

use std::test::Fail;

/// What the part of a word says, or what is usual.
pub(crate) fn given<'t>(line: &'t str, word: &str, usual: &'t str) -> &'t str {
    for part in line.split(" | ").skip(1) {
        if let Some((name, rest)) = part.split_once(' ') {
            if name == word {
                return rest;
            }
        }
    }
    usual
}

/// Whether a part begins with a word that is known.
fn is_known(part: &str) -> bool {
    match part.split_once(' ') {
        Some((name, _)) => matches!(
            name,
            "lower"
                | "type"
                | "value"
                | "code"
                | "units"
                | "context"
                | "out"
                | "into"
                | "home"
                | "realloc"
                | "from"
                | "to"
                | "at"
                | "count"
                | "element"
                | "bytes"
                | "reader"
                | "see"
        ),
        None => false,
    }
}

/// Fails where a part behind the title begins with a word that is not known.
pub(crate) fn check_words(line: &str) -> Result<(), Fail> {
    for part in line.split(" | ").skip(1) {
        if !is_known(part) {
            return Err(Fail::new("an unknown word"));
        }
    }
    Ok(())
}
