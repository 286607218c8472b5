//! The answers to lines.

use crate::entering::entered_told;
use crate::kinds::{Kind, Lowers, lowers_of};
use crate::long_lists::passed_told;
use crate::storing::lower_told;
use std::alloc::Global;
use std::test::Fail;
use table_texts::{Made, put_made};

/// What comes of lowering values of a type of words: the words, and what else a line has.
fn typed_told(alloc: Global, lowers: Lowers, how: Made, line: &str) -> Result<String, Fail> {
    let (words, rest) = line.split_once('|').ok_or("no values")?;
    let put = put_made(alloc, how, words)?;
    match put.types.get(put.number) {
        Some(t) => lower_told(alloc, lowers, &t, rest),
        None => Err(Fail::new("no type")),
    }
}

/// The same of a type of layers, behind what is done with it.
fn large_told(alloc: Global, line: &str) -> Result<String, Fail> {
    let (what, given) = line.split_once('|').ok_or("no type")?;
    let lowers = lowers_of(what.trim()).ok_or("nothing done")?;
    typed_told(alloc, lowers, Made::OfLayers, given)
}

/// How many numbers of a type are lifted as they were lowered.
fn numbers_told(alloc: Global, line: &str) -> Result<String, Fail> {
    let (words, rest) = line.split_once('|').ok_or("no numbers")?;
    let put = put_made(alloc, Made::OfWords, words)?;
    match put.types.get(put.number) {
        Some(t) => passed_told(alloc, &t, rest),
        None => Err(Fail::new("no type")),
    }
}

/// The answer to a line of a kind of tables.
pub(crate) fn line_told(alloc: Global, kind: Kind, line: &str) -> Result<String, Fail> {
    match kind {
        Kind::Lowered(lowers) => typed_told(alloc, lowers, Made::OfWords, line),
        Kind::Entered(lowers) => entered_told(alloc, lowers, line),
        Kind::Large => large_told(alloc, line),
        Kind::Passed => numbers_told(alloc, line),
    }
}
