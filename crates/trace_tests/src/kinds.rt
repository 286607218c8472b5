//! Kinds of tables whose lines have ` = ` before what is wanted.

use crate::lines::{block_answer, label_answer};
use crate::name_tables::{builtin_answer, trap_answer};
use crate::traces::{put_answer, tally_answer};
use crate::values::{copy_answer, return_answer, take_answer};
use cases::Steps;
use std::alloc::Global;
use std::test::Fail;

/// A kind of tables.
#[derive(Clone, Copy)]
pub enum Kind {
    Line,
    Block,
    Builtin,
    Trap,
    Take,
    Return,
    Copy,
    Put,
    Tally,
}

/// The kind of tables that a word names.
fn kind_of(word: &str) -> Option<Kind> {
    match word {
        "line" => Some(Kind::Line),
        "block" => Some(Kind::Block),
        "builtin" => Some(Kind::Builtin),
        "trap" => Some(Kind::Trap),
        "take" => Some(Kind::Take),
        "return" => Some(Kind::Return),
        "copy" => Some(Kind::Copy),
        "put" => Some(Kind::Put),
        "tally" => Some(Kind::Tally),
        _ => None,
    }
}

/// The answer to a line of a table of this kind.
fn answer(alloc: Global, kind: Kind, line: &str) -> Result<String, Fail> {
    match kind {
        Kind::Line => label_answer(alloc, line),
        Kind::Block => block_answer(alloc, line),
        Kind::Builtin => builtin_answer(alloc, line),
        Kind::Trap => trap_answer(alloc, line),
        Kind::Take => take_answer(alloc, line),
        Kind::Return => return_answer(alloc, line),
        Kind::Copy => copy_answer(alloc, line),
        Kind::Put => put_answer(alloc, line),
        Kind::Tally => tally_answer(alloc, line),
    }
}

impl Steps for Kind {
    fn step(&mut self, alloc: Global, line: &str, text: &mut String) -> Result<(), Fail> {
        let told = answer(alloc, *self, line)?;
        Ok(text.push_str(told.as_str())?)
    }

    fn begin(_alloc: Global, title: &str) -> Result<Kind, Fail> {
        Ok(kind_of(title).ok_or("no kind")?)
    }
}
