//! Cases in a text, each with the answer that is wanted, or of which something holds.

use std::alloc::{AllocError, Global};
use std::fmt::Write;
use std::test::Fail;

/// How what is given in a case is answered.
pub trait Answers {
    /// The answer.
    fn answer(alloc: Global, given: &str) -> Result<String, Fail>;
}

/// Adds a case to others, with its answer.
pub(crate) fn write_case(wrong: &mut String, case: &str, got: &str) -> Result<(), AllocError> {
    writeln!(wrong, "{case}: {got}")
}

/// Adds a case to others if its answer is another than wanted, but for line feeds around it.
fn write_if_other(
    wrong: &mut String,
    case: &str,
    got: &str,
    wanted: &str,
) -> Result<(), AllocError> {
    if got.trim_matches('\n') == wanted.trim_matches('\n') {
        Ok(())
    } else {
        write_case(wrong, case, got)
    }
}

/// Adds how many cases or lines there are if these are not as many as stated.
pub(crate) fn write_count(
    wrong: &mut String,
    there: usize,
    count: usize,
) -> Result<(), AllocError> {
    if there == count {
        Ok(())
    } else {
        writeln!(wrong, "{there} are there, and {count} are stated")
    }
}

/// Adds a case to others if its answer is another than wanted, with its answer.
fn add_differing<T: Answers>(
    alloc: Global,
    case: &str,
    before: &str,
    wrong: &mut String,
) -> Result<(), Fail> {
    let (given, wanted) = case.rsplit_once(before).ok_or("no answer")?;
    let got = T::answer(alloc, given)?;
    write_if_other(wrong, case, got.as_str(), wanted)?;
    Ok(())
}

/// Adds the cases of a text whose answers are others than wanted, each with its answer, and answers how many cases there are.
pub(crate) fn compare<T: Answers>(
    alloc: Global,
    cases: &str,
    between: &str,
    before: &str,
    wrong: &mut String,
) -> Result<usize, Fail> {
    let mut there = 0usize;
    for case in cases.trim_matches('\n').split(between) {
        add_differing::<T>(alloc, case, before, wrong)?;
        there = there.saturating_add(1);
    }
    Ok(there)
}

/// The cases whose answers are others than wanted, each with its answer, and how many cases there are if these are not as
/// many as stated.
fn differing<T: Answers>(
    alloc: Global,
    cases: &str,
    between: &str,
    before: &str,
    count: usize,
) -> Result<String, Fail> {
    let mut wrong = String::new(alloc);
    let there = compare::<T>(alloc, cases, between, before, &mut wrong)?;
    write_count(&mut wrong, there, count)?;
    Ok(wrong)
}

/// Fails with what is wrong, if anything is.
pub(crate) fn failing(wrong: &str) -> Result<(), Fail> {
    if wrong.is_empty() {
        Ok(())
    } else {
        Err(Fail::new(wrong))
    }
}

/// Compares the answers to the cases of a text with those that are wanted, and their number with the stated one. A line is a
/// case, and its answer stands behind the last of such a mark.
pub fn check_lines<T: Answers>(
    alloc: Global,
    cases: &str,
    before: &str,
    count: usize,
) -> Result<(), Fail> {
    let wrong = differing::<T>(alloc, cases, "\n", before, count)?;
    failing(wrong.as_str())
}

/// The same of cases that are paragraphs, each with its answer behind a line `is`.
pub fn check_paragraphs<T: Answers>(alloc: Global, cases: &str, count: usize) -> Result<(), Fail> {
    let wrong = differing::<T>(alloc, cases, "\n\n", "\nis", count)?;
    failing(wrong.as_str())
}

/// What holds of a case.
pub trait Holds {
    /// Whether it holds.
    fn holds(alloc: Global, case: &str) -> Result<bool, Fail>;
}

/// Adds a case to others if it does not hold of it.
fn add_failed<T: Holds>(alloc: Global, case: &str, wrong: &mut String) -> Result<(), Fail> {
    if T::holds(alloc, case)? {
        return Ok(());
    }
    writeln!(wrong, "{case}")?;
    Ok(())
}

/// Adds the cases of a text of which it does not hold, and answers how many cases there are.
fn judge<T: Holds>(
    alloc: Global,
    cases: &str,
    between: &str,
    wrong: &mut String,
) -> Result<usize, Fail> {
    let mut there = 0usize;
    for case in cases.trim_matches('\n').split(between) {
        add_failed::<T>(alloc, case, wrong)?;
        there = there.saturating_add(1);
    }
    Ok(there)
}

/// The cases of a text of which it does not hold, and how many cases there are if these are not as many as stated.
fn failed<T: Holds>(
    alloc: Global,
    cases: &str,
    between: &str,
    count: usize,
) -> Result<String, Fail> {
    let mut wrong = String::new(alloc);
    let there = judge::<T>(alloc, cases, between, &mut wrong)?;
    write_count(&mut wrong, there, count)?;
    Ok(wrong)
}

/// Fails with the lines of a text of which it does not hold, or with their number if it is not the stated one.
pub fn check_all_lines<T: Holds>(alloc: Global, cases: &str, count: usize) -> Result<(), Fail> {
    let wrong = failed::<T>(alloc, cases, "\n", count)?;
    failing(wrong.as_str())
}

/// The same of paragraphs.
pub fn check_all_paragraphs<T: Holds>(
    alloc: Global,
    cases: &str,
    count: usize,
) -> Result<(), Fail> {
    let wrong = failed::<T>(alloc, cases, "\n\n", count)?;
    failing(wrong.as_str())
}
