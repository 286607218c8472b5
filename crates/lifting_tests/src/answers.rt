//! The answers to lines.

use crate::handles::handles_told;
use crate::kinds::Kind;
use crate::laid::{aligned_told, label_told, layout_told, parts_told, size_told};
use crate::large_texts::texts_told;
use crate::lifting::loaded;
use crate::loading::lift_told;
use laid_types::LaidType;
use std::alloc::Global;
use std::test::Fail;
use table_texts::{Made, put_made};
use value_lift::LiftOf;

/// What is told of a type in a table of so many, with what else a line has.
fn type_answer(
    alloc: Global,
    kind: Kind,
    count: usize,
    t: &LaidType<'_>,
    rest: &str,
) -> Result<String, Fail> {
    match kind {
        Kind::Lifted(lifts) => lift_told(alloc, lifts, t, rest),
        Kind::Texts => texts_told(alloc, t, rest),
        Kind::Layout => layout_told(alloc, t),
        Kind::Parts => parts_told(alloc, t),
        Kind::Label => label_told(alloc, t, rest.trim()),
        Kind::Doubled => size_told(alloc, count, t),
        Kind::DoubledValue => loaded(alloc, t, &[1, 2, 3, 4], 0, LiftOf::Value),
        Kind::Aligned | Kind::WithTable(_) => Err(Fail::new("no type")),
    }
}

/// What is told of the type of words, with what else a line has.
fn words_answer(alloc: Global, kind: Kind, how: Made, line: &str) -> Result<String, Fail> {
    let (words, rest) = line.split_once('|').unwrap_or((line, ""));
    let put = put_made(alloc, how, words)?;
    match put.types.get(put.number) {
        Some(t) => type_answer(alloc, kind, put.types.len(), &t, rest),
        None => Err(Fail::new("no type")),
    }
}

/// The answer to a line of a kind of tables.
pub(crate) fn line_told(alloc: Global, kind: Kind, line: &str) -> Result<String, Fail> {
    match kind {
        Kind::Aligned => aligned_told(alloc, line),
        Kind::WithTable(lifts) => handles_told(alloc, lifts, line),
        Kind::Doubled | Kind::DoubledValue => words_answer(alloc, kind, Made::Doubled, line),
        _ => words_answer(alloc, kind, Made::OfWords, line),
    }
}
