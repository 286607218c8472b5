//! What is told of a table.

use crate::answers::answer;
use crate::kinds::{Kind, Wanted};
use std::alloc::{AllocError, Global};
use std::fmt::Write;
use std::test::Fail;

/// What is given in a case, and what is wanted.
fn given_and_wanted(wanted: Wanted, case: &str) -> Option<(&str, &str)> {
    match wanted {
        Wanted::Behind(mark) => case.rsplit_once(mark),
        Wanted::Always(word) => Some((case, word)),
    }
}

/// Adds a case to others if its answer is another than wanted, but for line feeds around it.
fn write_if_other(
    text: &mut String,
    case: &str,
    got: &str,
    wanted: &str,
) -> Result<(), AllocError> {
    if got.trim_matches('\n') == wanted.trim_matches('\n') {
        Ok(())
    } else {
        writeln!(text, "{case}: {got}")
    }
}

/// Adds a case to others if its answer is another than wanted, with its answer.
fn add_differing(alloc: Global, kind: Kind, case: &str, text: &mut String) -> Result<(), Fail> {
    let (given, wanted) = given_and_wanted(kind.wanted, case).ok_or("no answer")?;
    let got = answer(alloc, kind.what, given)?;
    write_if_other(text, case, got.as_str(), wanted)?;
    Ok(())
}

/// Adds the cases whose answers are others than wanted, and answers how many cases there are.
fn compare(alloc: Global, kind: Kind, table: &str, text: &mut String) -> Result<usize, Fail> {
    let mut there = 0usize;
    for case in table.trim_matches('\n').split(kind.between) {
        add_differing(alloc, kind, case, text)?;
        there = there.saturating_add(1);
    }
    Ok(there)
}

/// What is told of a table: the cases whose answers are others than wanted, each with its answer, and how many cases it has.
pub(crate) fn cases_told(alloc: Global, kind: Kind, table: &str) -> Result<String, Fail> {
    let mut text = String::new(alloc);
    let there = compare(alloc, kind, table, &mut text)?;
    write!(text, "{there} cases")?;
    Ok(text)
}
