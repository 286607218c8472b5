//! Lists, places and fuel.

use crate::texts::{byte, number, split, write_value};
use ca_base::{Fuel, Placed, apart, join};
use cases::{Acts, Answers, acted, check_lines};
use std::alloc::{AllocError, Global};
use std::mem::replace;
use std::test::Fail;
use syntax_trees::{Bytes, Seq};

/// A line what is done to so many units of fuel and an empty list, and what is answered. `spend` spends a unit, and `take`
/// takes all items of the list. `apart` takes items with their places apart, and `join` does so once lists of them, with a `/`
/// between two, are joined.
const VALUES: &str = "
2 | spend left spend left spend left = true 1 true 0 false 0
0 | empty push:7 empty len append:8 take = true ok false 1 ok [7, 8]
0 | apart:7@70,8@80 = [7, 8] [70, 80]
0 | join:7@70,8@80//9@90 = [7, 8, 9] [70, 80, 90]
";

/// Writes that something is done.
fn write_done(text: &mut String, done: Result<(), AllocError>) -> Result<(), AllocError> {
    done?;
    text.push_str("ok")
}

/// Puts a list of one item behind another one.
fn append(alloc: Global, list: &mut Bytes, item: u8) -> Result<(), AllocError> {
    let more = Seq::of(alloc, item)?;
    list.append(more)
}

/// Takes all items of a list.
fn take(alloc: Global, list: &mut Bytes) -> Vec<u8> {
    replace(list, Seq::new(alloc)).into_vec()
}

/// The item of a word, with its place behind it.
fn placed(word: &str) -> Placed<u8> {
    let (item, place) = split(word, "@");
    let item = byte(item);
    let place = usize::from(byte(place));
    Placed { item, place }
}

/// Items with their places. An empty text stands for none.
fn placed_of(alloc: Global, words: &str) -> Result<Seq<Placed<u8>>, AllocError> {
    let mut list = Vec::new(alloc);
    for word in words.split_terminator(',') {
        list.push(placed(word))?;
    }
    Ok(Seq::from_vec(list))
}

/// Writes items and their places.
fn write_apart(alloc: Global, text: &mut String, list: Seq<Placed<u8>>) -> Result<(), AllocError> {
    let (items, places) = apart(alloc, list)?;
    write_value(text, items.into_vec())?;
    text.push(' ')?;
    write_value(text, places.into_vec())
}

/// Adds a list of items with their places.
fn push_list(
    alloc: Global,
    parts: &mut Seq<Seq<Placed<u8>>>,
    words: &str,
) -> Result<(), AllocError> {
    let list = placed_of(alloc, words)?;
    parts.push(list)
}

/// Lists of items with their places.
fn lists_of(alloc: Global, lists: &str) -> Result<Seq<Seq<Placed<u8>>>, AllocError> {
    let mut parts = Seq::new(alloc);
    for words in lists.split('/') {
        push_list(alloc, &mut parts, words)?;
    }
    Ok(parts)
}

/// Takes items and their places apart, and writes them.
fn take_apart(alloc: Global, text: &mut String, words: &str) -> Result<(), AllocError> {
    let list = placed_of(alloc, words)?;
    write_apart(alloc, text, list)
}

/// Joins lists, takes their items and their places apart, and writes them.
fn join_all(alloc: Global, text: &mut String, lists: &str) -> Result<(), AllocError> {
    let parts = lists_of(alloc, lists)?;
    let list = join(alloc, parts)?;
    write_apart(alloc, text, list)
}

/// Fuel and a list, which words change.
#[derive(Drop)]
struct Kept {
    fuel: Fuel,
    list: Bytes,
}

impl Kept {
    /// Does what a word says to the list, and writes the answer.
    fn change(
        &mut self,
        alloc: Global,
        text: &mut String,
        name: &str,
        item: u8,
    ) -> Result<(), AllocError> {
        match name {
            "empty" => write_value(text, self.list.is_empty()),
            "len" => write_value(text, self.list.len()),
            "push" => write_done(text, self.list.push(item)),
            "append" => write_done(text, append(alloc, &mut self.list, item)),
            _ => write_value(text, take(alloc, &mut self.list)),
        }
    }

    /// Does what a word says, and writes the answer.
    fn write_answer(
        &mut self,
        alloc: Global,
        text: &mut String,
        name: &str,
        rest: &str,
    ) -> Result<(), AllocError> {
        match name {
            "spend" => write_value(text, self.fuel.spend()),
            "left" => write_value(text, self.fuel.left()),
            "apart" => take_apart(alloc, text, rest),
            "join" => join_all(alloc, text, rest),
            _ => self.change(alloc, text, name, byte(rest)),
        }
    }
}

impl Acts for Kept {
    fn act(
        &mut self,
        alloc: Global,
        name: &str,
        rest: &str,
        text: &mut String,
    ) -> Result<(), Fail> {
        self.write_answer(alloc, text, name, rest)?;
        Ok(())
    }
}

/// New fuel and empty lists.
struct New;

impl Answers for New {
    fn answer(alloc: Global, given: &str) -> Result<String, Fail> {
        let (units, words) = split(given, " | ");
        let fuel = Fuel::new(number(units));
        let list = Seq::new(alloc);
        acted(alloc, Kept { fuel, list }, words)
    }
}

#[test]
fn values_answer(rt: HostRuntime) -> Result<(), Fail> {
    check_lines::<New>(rt.alloc(), VALUES, " =", 4)
}
