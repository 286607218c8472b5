//! Programs that go through tables of cases.
//!
//! The standard input of such a program names its tables, a line each: what kind of table it is, and the file that has it. What
//! the program prints of a table are the cases whose answers are others than wanted, each with its answer, and then how many
//! cases it has. A table that is not there ends the program with a failure.

use crate::steps::{self, Steps};
use crate::table::{Answers, compare};
use std::alloc::Global;
use std::fmt::Write;
use std::fs;
use std::test::Fail;

/// The tables of a program.
pub trait Tables {
    /// What is told of the table of a text: the cases whose answers are others than wanted, and how many cases it has.
    fn told(alloc: Global, kind: &str, text: &str) -> Result<String, Fail>;
}

/// The cases of a text whose answers are others than wanted, each with its answer, and then how many cases there are.
fn cases_told<T: Answers>(
    alloc: Global,
    text: &str,
    between: &str,
    before: &str,
) -> Result<String, Fail> {
    let mut told = String::new(alloc);
    let there = compare::<T>(alloc, text, between, before, &mut told)?;
    write!(told, "{there} cases")?;
    Ok(told)
}

/// What is told of a table whose cases are lines, each with its answer behind the last of such a mark.
pub fn lines_told<T: Answers>(alloc: Global, text: &str, before: &str) -> Result<String, Fail> {
    cases_told::<T>(alloc, text, "\n", before)
}

/// What is told of a table whose cases are paragraphs, each with its answer behind a line `is`: the cases whose answers are others
/// than wanted, each with its answer, and then how many cases there are.
pub fn paragraphs_told<T: Answers>(alloc: Global, text: &str) -> Result<String, Fail> {
    cases_told::<T>(alloc, text, "\n\n", "\nis")
}

/// What is told of a table of paragraphs whose lines change something, one after the other: the lines of which something else comes
/// than what stands behind their last ` = `, each with what comes of it, and then how many lines there are.
pub fn steps_told<S: Steps + Drop>(alloc: Global, text: &str) -> Result<String, Fail> {
    let mut told = String::new(alloc);
    let there = steps::compare::<S>(alloc, text, &mut told)?;
    write!(told, "{there} steps")?;
    Ok(told)
}

/// Goes through a table, and prints what is told of it.
fn go_through<T: Tables>(rt: &HostRuntime, kind: &str, file: &str) -> Result<(), Fail> {
    let text = fs::read_to_string(rt, file)?;
    let told = T::told(rt.alloc(), kind, text.as_str())?;
    println!(rt; "{file}: {told}")?;
    Ok(())
}

/// Goes through the tables that the lines of the standard input name.
pub fn run_tables<T: Tables>(rt: &HostRuntime) -> Result<(), Fail> {
    for line in rt.lines(rt.alloc()) {
        let line = line?;
        let (kind, file) = line.split_once(' ').ok_or("no file")?;
        go_through::<T>(rt, kind, file)?;
    }
    Ok(())
}
