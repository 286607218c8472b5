//! Values of texts.

use crate::stack::Stack;
use std::alloc::Global;
use std::str::FromStr;
use std::test::Fail;
use syntax_trees::{Boxed, Handle, Name, Seq, Value};

/// Values that later words take as their parts.
type Values = Stack<Value>;

/// What digits stand for.
fn parsed<T: FromStr>(digits: &str) -> Option<T>
where
    T::Err: Drop,
{
    digits.parse::<T>().ok()
}

/// The character with this code.
fn character(code: &str) -> Option<char> {
    char::from_u32(parsed(code)?)
}

/// The handle of two numbers.
fn handle(text: &str) -> Option<Handle> {
    let (resource, rep) = text.split_once(':')?;
    Some(Handle {
        resource: parsed(resource)?,
        rep: parsed(rep)?,
    })
}

/// A flag for each digit.
fn flags(alloc: Global, digits: &str) -> Option<Seq<bool>> {
    let mut flags = Seq::new(alloc);
    for digit in digits.as_bytes() {
        flags.push(*digit == b'1').ok()?;
    }
    Some(flags)
}

/// The text of the characters with these codes.
fn text_of_codes(alloc: Global, codes: &str) -> Option<Name> {
    let mut text = String::new(alloc);
    for code in codes.split(',') {
        text.push(character(code)?).ok()?;
    }
    Name::new(alloc, text.as_str()).ok()
}

/// A case, with a payload where a star stands behind its number.
fn case(alloc: Global, number: &str, before: &mut Values) -> Option<Value> {
    let Some(number) = number.strip_suffix('*') else {
        return Some(Value::Variant(parsed(number)?, None));
    };
    let number = parsed(number)?;
    let payload = Boxed::new(alloc, before.take()?).ok()?;
    Some(Value::Variant(number, Some(payload)))
}

/// An integer.
fn integer(kind: &str, digits: &str) -> Option<Value> {
    match kind {
        "s8" => Some(Value::S8(parsed(digits)?)),
        "u8" => Some(Value::U8(parsed(digits)?)),
        "s16" => Some(Value::S16(parsed(digits)?)),
        "u16" => Some(Value::U16(parsed(digits)?)),
        "s32" => Some(Value::S32(parsed(digits)?)),
        "u32" => Some(Value::U32(parsed(digits)?)),
        "s64" => Some(Value::S64(parsed(digits)?)),
        "u64" => Some(Value::U64(parsed(digits)?)),
        _ => None,
    }
}

/// A value that has a number: a handle, an end, a character by its code or an integer.
fn numbered(kind: &str, number: &str) -> Option<Value> {
    match kind {
        "own" => Some(Value::Own(handle(number)?)),
        "borrow" => Some(Value::Borrow(handle(number)?)),
        "stream" => Some(Value::Stream(parsed(number)?)),
        "future" => Some(Value::Future(parsed(number)?)),
        "char" => Some(Value::Char(character(number)?)),
        _ => integer(kind, number),
    }
}

/// A value that has parts, or owns memory.
fn made(alloc: Global, kind: &str, rest: &str, before: &mut Values) -> Option<Value> {
    match kind {
        "text" => Some(Value::String(Name::new(alloc, rest).ok()?)),
        "codes" => Some(Value::String(text_of_codes(alloc, rest)?)),
        "list" => Some(Value::List(before.take_all(alloc, rest)?)),
        "record" => Some(Value::Record(before.take_all(alloc, rest)?)),
        "case" => case(alloc, rest, before),
        "flags" => Some(Value::Flags(flags(alloc, rest)?)),
        _ => numbered(kind, rest),
    }
}

/// The value that a word stands for, with its parts from the values that stand before it.
fn word_value(alloc: Global, word: &str, before: &mut Values) -> Option<Value> {
    if word == "true" || word == "false" {
        return Some(Value::Bool(word == "true"));
    }
    let (kind, rest) = word.split_once('=')?;
    made(alloc, kind, rest, before)
}

/// The values that words stand for, and are no parts of others, in order.
fn all_values(alloc: Global, text: &str) -> Option<Vec<Value>> {
    let mut values = Stack::new(alloc);
    for word in text.split_whitespace() {
        let value = word_value(alloc, word, &mut values)?;
        values.put(value)?;
    }
    Some(values.into_vec())
}

/// The values that words stand for, and are no parts of others, in order.
pub fn values_of(alloc: Global, text: &str) -> Result<Vec<Value>, Fail> {
    Ok(all_values(alloc, text).ok_or("no values")?)
}

/// The last of the values that words stand for, if there is one.
fn last_value(alloc: Global, text: &str) -> Option<Value> {
    all_values(alloc, text)?.pop()
}

/// The last of the values that words stand for.
pub fn value_of(alloc: Global, text: &str) -> Result<Value, Fail> {
    Ok(last_value(alloc, text).ok_or("no value")?)
}
