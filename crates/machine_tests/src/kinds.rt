//! Kinds of tables whose lines stand alone.

use crate::bodies::{answer_with_bytes, answer_without_pages};
use crate::operands::operands_answer;
use cases::Steps;
use std::alloc::Global;
use std::test::Fail;

/// A kind of such tables.
#[derive(Clone, Copy)]
pub(crate) enum Kind {
    Body,
    BodyWithBytes,
    Operands,
}

/// The kind of tables that a word names.
fn kind_of(word: &str) -> Option<Kind> {
    match word {
        "body" => Some(Kind::Body),
        "body-with-bytes" => Some(Kind::BodyWithBytes),
        "operands" => Some(Kind::Operands),
        _ => None,
    }
}

/// The answer to a line of a table of this kind.
fn answer(alloc: Global, kind: Kind, line: &str) -> Result<String, Fail> {
    match kind {
        Kind::Body => answer_without_pages(alloc, line),
        Kind::BodyWithBytes => answer_with_bytes(alloc, line),
        Kind::Operands => operands_answer(alloc, line),
    }
}

impl Steps for Kind {
    fn step(&mut self, alloc: Global, line: &str, text: &mut String) -> Result<(), Fail> {
        let told = answer(alloc, *self, line)?;
        Ok(text.push_str(told.as_str())?)
    }

    fn begin(_alloc: Global, title: &str) -> Result<Kind, Fail> {
        Ok(kind_of(title).ok_or("no kind")?)
    }
}
