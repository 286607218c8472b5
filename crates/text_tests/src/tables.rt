//! What is told of a table.

use crate::answers::answer;
use crate::kinds::{Kind, Wanted};
use std::alloc::{AllocError, Global};
use std::fmt::Write;
use std::test::Fail;

/// What is given in a line, and what is wanted.
fn given_and_wanted(wanted: Wanted, line: &str) -> Option<(&str, &str)> {
    match wanted {
        Wanted::Behind(mark) => line.rsplit_once(mark),
        Wanted::Always(word) => Some((line, word)),
    }
}

/// Adds a line to others if its answer is another than wanted.
fn write_if_other(
    text: &mut String,
    line: &str,
    got: &str,
    wanted: &str,
) -> Result<(), AllocError> {
    if got == wanted {
        Ok(())
    } else {
        writeln!(text, "{line}: {got}")
    }
}

/// Adds a line to others if its answer is another than wanted, with its answer.
fn add_differing(alloc: Global, kind: Kind, line: &str, text: &mut String) -> Result<(), Fail> {
    let (given, wanted) = given_and_wanted(kind.wanted, line).ok_or("no answer")?;
    let got = answer(alloc, kind.what, given)?;
    write_if_other(text, line, got.as_str(), wanted)?;
    Ok(())
}

/// Adds the lines whose answers are others than wanted, and answers how many lines there are.
fn compare(alloc: Global, kind: Kind, lines: &str, text: &mut String) -> Result<usize, Fail> {
    let mut there = 0usize;
    for line in lines.lines() {
        add_differing(alloc, kind, line, text)?;
        there = there.saturating_add(1);
    }
    Ok(there)
}

/// What is told of a table: the lines whose answers are others than wanted, each with its answer, and how many lines it has.
pub(crate) fn lines_told(alloc: Global, kind: Kind, lines: &str) -> Result<String, Fail> {
    let mut text = String::new(alloc);
    let there = compare(alloc, kind, lines, &mut text)?;
    write!(text, "{there} cases")?;
    Ok(text)
}
