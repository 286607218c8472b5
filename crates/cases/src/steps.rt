//! What the lines of a paragraph make of something, one after the other.

use crate::table::{failing, write_case, write_count};
use std::alloc::{AllocError, Global};
use std::test::Fail;

/// Something that lines change.
pub trait Steps {
    /// Does what a line says, and writes what comes of it.
    fn step(&mut self, alloc: Global, line: &str, text: &mut String) -> Result<(), Fail>;

    /// Something that is as a paragraph's first line says.
    fn begin(alloc: Global, title: &str) -> Result<Self, Fail>;
}

/// Adds a line to others if something else comes of it than what is wanted.
fn write_if_other(
    wrong: &mut String,
    line: &str,
    got: &str,
    wanted: &str,
) -> Result<(), AllocError> {
    if got == wanted {
        Ok(())
    } else {
        write_case(wrong, line, got)
    }
}

/// Does what a line says, and adds it to others if something else comes of it than what stands behind its last ` = `.
fn add_differing<S: Steps>(
    alloc: Global,
    state: &mut S,
    line: &str,
    wrong: &mut String,
) -> Result<(), Fail> {
    let (given, wanted) = line.rsplit_once(" = ").ok_or("no answer")?;
    let mut got = String::new(alloc);
    state.step(alloc, given, &mut got)?;
    write_if_other(wrong, line, got.as_str(), wanted)?;
    Ok(())
}

/// Does what lines say, one after the other, and answers how many these are.
fn add_lines<S: Steps>(
    alloc: Global,
    state: &mut S,
    lines: &str,
    wrong: &mut String,
) -> Result<usize, Fail> {
    let mut there = 0usize;
    for line in lines.lines() {
        add_differing(alloc, state, line, wrong)?;
        there = there.saturating_add(1);
    }
    Ok(there)
}

/// Does what the lines behind the first one say, and answers how many these are.
fn add_paragraph<S: Steps + Drop>(
    alloc: Global,
    paragraph: &str,
    wrong: &mut String,
) -> Result<usize, Fail> {
    let (title, lines) = paragraph.split_once('\n').ok_or("no lines")?;
    let mut state = S::begin(alloc, title)?;
    add_lines(alloc, &mut state, lines, wrong)
}

/// Does what paragraphs say, and answers how many lines they have.
pub(crate) fn compare<S: Steps + Drop>(
    alloc: Global,
    text: &str,
    wrong: &mut String,
) -> Result<usize, Fail> {
    let mut there = 0usize;
    for paragraph in text.trim_matches('\n').split("\n\n") {
        there = there.saturating_add(add_paragraph::<S>(alloc, paragraph, wrong)?);
    }
    Ok(there)
}

/// The lines of which something else comes than what is wanted, and how many lines there are if these are not as many as
/// stated.
fn differing<S: Steps + Drop>(alloc: Global, text: &str, count: usize) -> Result<String, Fail> {
    let mut wrong = String::new(alloc);
    let there = compare::<S>(alloc, text, &mut wrong)?;
    write_count(&mut wrong, there, count)?;
    Ok(wrong)
}

/// Compares what comes of the lines of paragraphs with what is wanted, and their number with the stated one.
pub fn check_steps<S: Steps + Drop>(alloc: Global, text: &str, count: usize) -> Result<(), Fail> {
    let wrong = differing::<S>(alloc, text, count)?;
    failing(wrong.as_str())
}
