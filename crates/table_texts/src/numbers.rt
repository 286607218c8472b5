//! Numbers of texts.

use std::test::Fail;

/// The number of a text, with blanks around it or without.
pub fn number(text: &str) -> Result<u32, Fail> {
    Ok(text.trim().parse::<u32>()?)
}
