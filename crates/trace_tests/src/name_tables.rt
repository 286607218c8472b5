//! The names of built-ins and traps, and texts of names.

use crate::variants::{builtin_of, trap_of};
use cases::{Answers, check_paragraphs};
use std::alloc::Global;
use std::test::Fail;
use syntax_trees::Name;
use trace_show::name_text;
use type_texts::text_of;

/// The name of a built-in of this variant.
pub fn builtin_answer(alloc: Global, given: &str) -> Result<String, Fail> {
    let builtin = builtin_of(given).ok_or("no such built-in")?;
    text_of(alloc, builtin.as_str().as_bytes())
}

/// The name of a trap of this variant.
pub fn trap_answer(alloc: Global, given: &str) -> Result<String, Fail> {
    let trap = trap_of(given).ok_or("no such trap")?;
    text_of(alloc, trap.as_str().as_bytes())
}

/// A paragraph a name with a character that has no mark of its own, and its text.
const CONTROLS: &str = "
\u{7f}
is
\\u{7f}

a
b
is
a\\u{a}b

\u{0}
is
\\u{0}
";

/// Texts of names.
pub struct NamesTold;

impl Answers for NamesTold {
    fn answer(alloc: Global, given: &str) -> Result<String, Fail> {
        let name = Name::new(alloc, given)?;
        let text = name_text(alloc, &name)?;
        text_of(alloc, text.as_slice())
    }
}

/// Compares the texts of names that have such characters.
pub fn check_controls(alloc: Global) -> Result<(), Fail> {
    check_paragraphs::<NamesTold>(alloc, CONTROLS, 3)
}
