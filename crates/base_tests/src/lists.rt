//! Names that stand twice, look-ups, rules, states and texts of lists.

use crate::samples::{AtMost, Decimals, Item, Total};
use crate::texts::text_of;
use ca_base::{are_distinct, by_name, find, first_twice};
use cases::{Answers, check_lines};
use faults::{Memory, Rule, check_all, step_all};
use std::alloc::{AllocError, Global};
use std::collections::BTreeSet;
use std::fmt::{Debug, Write};
use std::test::Fail;
use syntax_trees::{Name, adds};
use value_texts::{Text, push_all, push_separated};

/// Adds the item of a name.
fn push_item(alloc: Global, items: &mut Vec<Item>, name: &str) -> Result<(), AllocError> {
    let name = Name::new(alloc, name)?;
    items.push(Item { name })?;
    Ok(())
}

/// The items of the words of a text.
fn items_of(alloc: Global, words: &str) -> Result<Vec<Item>, AllocError> {
    let mut items = Vec::new(alloc);
    for word in words.split_whitespace() {
        push_item(alloc, &mut items, word)?;
    }
    Ok(items)
}

/// A line a list of names: the number of the first that stands twice, whether they are distinct, and the number of the
/// first `b`.
const NAMES: &str = "
a b c | None true Some(1)
- | None true None
a | None true None
b | None true Some(0)
a a | Some(1) false None
a b b a | Some(2) false Some(1)
b ab abc ab b | Some(3) false Some(0)
c B b\u{301} b | None true Some(3)
";

/// Writes the number of the first name that stands twice, and whether all are distinct.
fn write_twice(alloc: Global, text: &mut String, items: &[Item]) -> Result<(), AllocError> {
    let twice = first_twice(alloc, items)?;
    let distinct = are_distinct(alloc, items)?;
    write!(text, "{twice:?} {distinct} ")
}

/// Writes the number of the first `b`.
fn write_found(alloc: Global, text: &mut String, items: &[Item]) -> Result<(), AllocError> {
    let numbers = by_name(alloc, items)?;
    write!(text, "{:?}", find(&numbers, "b"))
}

/// What is found among names.
fn found(alloc: Global, items: &[Item]) -> Result<String, Fail> {
    let mut text = String::new(alloc);
    write_twice(alloc, &mut text, items)?;
    write_found(alloc, &mut text, items)?;
    Ok(text)
}

/// Names of lists.
struct NamesFound;

impl Answers for NamesFound {
    fn answer(alloc: Global, given: &str) -> Result<String, Fail> {
        let items = items_of(alloc, given.trim_matches('-'))?;
        found(alloc, &items)
    }
}

#[test]
fn names_are_found(rt: HostRuntime) -> Result<(), Fail> {
    check_lines::<NamesFound>(rt.alloc(), NAMES, " | ", 8)
}

/// A line a list of names that are added to a set, with a comma between two, and whether each is new.
const ADDED: &str = "
a,b,a, = true true false true
";

/// Adds a name to a set, and writes whether it is new.
fn write_added<'a>(
    text: &mut String,
    seen: &mut BTreeSet<&'a str>,
    name: &'a str,
) -> Result<(), AllocError> {
    let new = adds(seen, name)?;
    write!(text, " {new}")
}

/// Adds names to a set, and writes whether each is new.
fn write_all_added(alloc: Global, text: &mut String, names: &str) -> Result<(), AllocError> {
    let mut seen = BTreeSet::new(alloc);
    for name in names.split(',') {
        write_added(text, &mut seen, name)?;
    }
    Ok(())
}

/// Names of sets.
struct NamesAdded;

impl Answers for NamesAdded {
    fn answer(alloc: Global, given: &str) -> Result<String, Fail> {
        let mut text = String::new(alloc);
        write_all_added(alloc, &mut text, given)?;
        Ok(text)
    }
}

#[test]
fn names_are_added(rt: HostRuntime) -> Result<(), Fail> {
    check_lines::<NamesAdded>(rt.alloc(), ADDED, " =", 1)
}

/// A line a list of numbers: what is found where no more than three may stand in it, the sum up to the first number
/// that takes it above 100, with that number, and the numbers without and with something between them.
const NUMBERS: &str = "
7 = Ok(()) | 7 Ok(()) | 7 | 7
7 10 3 = Ok(()) | 20 Ok(()) | 7103 | 7, 10, 3
- = Ok(()) | 0 Ok(()) |  | 
1 2 3 4 5 = Err(Fault(4)) | 15 Ok(()) | 12345 | 1, 2, 3, 4, 5
60 40 0 = Ok(()) | 100 Ok(()) | 60400 | 60, 40, 0
60 41 1 = Ok(()) | 60 Err(Fault(41)) | 60411 | 60, 41, 1
4294967295 = Ok(()) | 0 Err(Fault(4294967295)) | 4294967295 | 4294967295
";

/// The number of a word.
fn number_of(word: &str) -> u32 {
    word.parse::<u32>().unwrap_or(0)
}

/// The numbers of a text.
fn numbers_of(alloc: Global, words: &str) -> Result<Vec<u32>, AllocError> {
    let mut numbers = Vec::new(alloc);
    for word in words.split_whitespace() {
        numbers.push(number_of(word))?;
    }
    Ok(numbers)
}

/// Writes the first fault of a list.
fn write_checked<R: Rule>(
    alloc: Global,
    text: &mut String,
    rule: &R,
    items: &[R::Item],
) -> Result<(), AllocError>
where
    R::Fault: Debug,
{
    write!(text, "{:?} | ", check_all(alloc, rule, items))
}

/// Writes the sum of numbers.
fn write_sum(alloc: Global, text: &mut String, numbers: &[u32]) -> Result<(), AllocError> {
    let mut total = Total { sum: 0 };
    let found = step_all(alloc, &mut total, numbers);
    let sum = total.sum;
    write!(text, "{sum} {found:?} | ")
}

/// Writes a list without something between the items.
fn write_together<T: Text>(
    alloc: Global,
    text: &mut String,
    items: &[T::Item],
) -> Result<(), Memory> {
    let mut bytes = Vec::new(alloc);
    push_all::<T>(alloc, items, &mut bytes)?;
    text.push_str(text_of(&bytes))?;
    Ok(())
}

/// Writes a list with something between the items.
fn write_apart<T: Text>(alloc: Global, text: &mut String, items: &[T::Item]) -> Result<(), Memory> {
    let mut bytes = Vec::new(alloc);
    push_separated::<T>(alloc, b", ", items, &mut bytes)?;
    text.push_str(text_of(&bytes))?;
    Ok(())
}

/// Writes a list without and with something between the items.
fn write_texts(alloc: Global, text: &mut String, numbers: &[u32]) -> Result<(), Memory> {
    write_together::<Decimals>(alloc, text, numbers)?;
    text.push_str(" | ")?;
    write_apart::<Decimals>(alloc, text, numbers)
}

/// Writes what is said of numbers.
fn write_said(alloc: Global, text: &mut String, numbers: &[u32]) -> Result<(), Memory> {
    write_checked(alloc, text, &AtMost { count: 3 }, numbers)?;
    write_sum(alloc, text, numbers)?;
    write_texts(alloc, text, numbers)
}

/// What is said of numbers.
fn said(alloc: Global, numbers: &[u32]) -> Result<String, Fail> {
    let mut text = String::new(alloc);
    write_said(alloc, &mut text, numbers)?;
    Ok(text)
}

/// Lists of numbers.
struct Lists;

impl Answers for Lists {
    fn answer(alloc: Global, given: &str) -> Result<String, Fail> {
        let numbers = numbers_of(alloc, given.trim_matches('-'))?;
        said(alloc, &numbers)
    }
}

#[test]
fn lists_are_gone_over(rt: HostRuntime) -> Result<(), Fail> {
    check_lines::<Lists>(rt.alloc(), NUMBERS, " = ", 7)
}
