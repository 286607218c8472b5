//! Types of words, put into a table.

ghost use Rattle.std.specs.Prelude.{IfOk};
ghost use Rattle.laid_types.specs.SameTypes.{AreDistinct};

use crate::numbers::number;
use crate::putting::{add, put};
use laid_types::{LaidTypes, ValTypeLayer};
use link_values::ValueTypes;
use std::alloc::Global;
use std::test::Fail;
use syntax_trees::{Shared, ValType};
use type_texts::type_of;

/// How words make a type.
#[derive(Clone, Copy)]
pub enum Made {
    /// As `type_texts` reads them.
    OfWords,
    /// The type of bytes, doubled so often: pairs of the same type twice, so that each has twice as many parts as the one before it.
    Doubled,
    /// The type of bytes, and a layer for each word.
    OfLayers,
}

/// The text of words for types. An at sign and a number stand for so many more labels `l`.
fn with_labels(alloc: Global, words: &str) -> Result<String, Fail> {
    let Some((before, after)) = words.split_once('@') else {
        return Ok(String::from_str(alloc, words)?);
    };
    let end = after.find(|letter: char| !letter.is_ascii_digit());
    let (count, after) = after.split_at(end.unwrap_or(after.len()));
    let labels = ",l".repeat(alloc, number(count)? as usize)?;
    Ok(format!(in alloc; "{before}{labels}{after}")?)
}

/// A table of types, and the number of one of them.
#[derive(Drop)]
pub struct Put {
    /// The table.
    pub types: LaidTypes,
    /// The number of the type.
    pub number: usize,
}

/// The type that words stand for, in a table.
fn put_words(alloc: Global, words: &str) -> Result<Put, Fail> {
    let words = with_labels(alloc, words)?;
    let val_type = type_of(alloc, words.as_str())?;
    let mut types = ValueTypes::new(alloc);
    let number = put(alloc, &mut types, val_type.get())?;
    Ok(Put {
        types: types.into_laid(),
        number,
    })
}

/// Adds a pair of a type, with a byte behind it or without, so often, and answers the last number.
fn add_pairs(
    alloc: Global,
    types: &mut LaidTypes,
    part: usize,
    byte: Option<usize>,
    times: u32,
) -> Result<usize, Fail> {
    let mut part = part;
    for _ in 0..times {
        part = match byte {
            Some(byte) => add(alloc, types, &ValTypeLayer::Tuple(&[part, part, byte]))?,
            None => add(alloc, types, &ValTypeLayer::Tuple(&[part, part]))?,
        };
    }
    Ok(part)
}

/// Adds what a word makes of a type, and answers the last number.
fn add_word(alloc: Global, types: &mut LaidTypes, part: usize, word: &str) -> Result<usize, Fail> {
    if let Some(times) = word.strip_prefix("pair:") {
        return add_pairs(alloc, types, part, None, number(times)?);
    }
    if let Some(times) = word.strip_prefix("odd:") {
        return add_pairs(alloc, types, part, Some(0), number(times)?);
    }
    match word {
        "option" => add(alloc, types, &ValTypeLayer::Option(part)),
        "list" => add(alloc, types, &ValTypeLayer::List(part)),
        _ => Err(Fail::new("no layer")),
    }
}

/// The type of layers, in a table.
fn put_layers(alloc: Global, words: &str) -> Result<Put, Fail> {
    let mut types = LaidTypes::new(alloc);
    let mut number = add(alloc, &mut types, &ValTypeLayer::U8)?;
    for word in words.split_whitespace() {
        number = add_word(alloc, &mut types, number, word)?;
    }
    Ok(Put { types, number })
}

/// The type of bytes, doubled so often, in a table.
fn doubled(alloc: Global, times: u32) -> Result<Put, Fail> {
    let mut types = LaidTypes::new(alloc);
    let part = add(alloc, &mut types, &ValTypeLayer::U8)?;
    let number = add_pairs(alloc, &mut types, part, None, times)?;
    Ok(Put { types, number })
}

/// The type of words, in a table.
pub fn put_made(alloc: Global, how: Made, words: &str) -> Result<Put, Fail> {
    match how {
        Made::OfWords => put_words(alloc, words),
        Made::Doubled => doubled(alloc, number(words)?),
        Made::OfLayers => put_layers(alloc, words),
    }
}

/// The types of words, with a plus between them.
pub fn types_told(alloc: Global, words: &str) -> Result<Vec<Shared<ValType>>, Fail> {
    let mut types = Vec::new(alloc);
    for word in words.split('+') {
        types.push(type_of(alloc, word)?)?;
    }
    Ok(types)
}

/// Types in a table in which none stands twice, and the number of each.
pub fn put_all(
    alloc: Global,
    val_types: &[Shared<ValType>],
) -> Result<(LaidTypes, Vec<usize>), Fail>
    ensures { IfOk result (λ r. AreDistinct r.0) }
{
    let mut types = ValueTypes::new(alloc);
    let mut numbers = Vec::new(alloc);
    for val_type in val_types {
        numbers.push(put(alloc, &mut types, val_type.get())?)?;
    }
    types.are_apart();
    Ok((types.into_laid(), numbers))
}
