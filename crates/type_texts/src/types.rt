//! Types and functions of texts.

use crate::labels::{Types, alike, all_labelled};
use crate::stack::Stack;
use std::alloc::Global;
use std::test::Fail;
use syntax_trees::{FuncType, Name, Param, Seq, Shared, ValType};

/// A type without parts.
fn plain(word: &str) -> Option<ValType> {
    match word {
        "bool" => Some(ValType::Bool),
        "char" => Some(ValType::Char),
        "string" => Some(ValType::String),
        "stream" => Some(ValType::Stream(None)),
        "future" => Some(ValType::Future(None)),
        _ => integer(word),
    }
}

/// A type of integers.
fn integer(word: &str) -> Option<ValType> {
    match word {
        "s8" => Some(ValType::S8),
        "u8" => Some(ValType::U8),
        "s16" => Some(ValType::S16),
        "u16" => Some(ValType::U16),
        "s32" => Some(ValType::S32),
        "u32" => Some(ValType::U32),
        "s64" => Some(ValType::S64),
        "u64" => Some(ValType::U64),
        _ => None,
    }
}

/// A type that has the last type as its part.
fn over_last(word: &str, before: &mut Types) -> Option<ValType> {
    match word {
        "list" => Some(ValType::List(before.take()?)),
        "option" => Some(ValType::Option(before.take()?)),
        "stream*" => Some(ValType::Stream(Some(before.take()?))),
        "future*" => Some(ValType::Future(Some(before.take()?))),
        _ => None,
    }
}

/// The type of results. Stars stand for the parts that are there.
fn of_results(word: &str, before: &mut Types) -> Option<ValType> {
    let (ok, err) = match word {
        "result__" => (None, None),
        "result*_" => (Some(before.take()?), None),
        "result_*" => (None, Some(before.take()?)),
        "result**" => {
            let err = Some(before.take()?);
            (Some(before.take()?), err)
        }
        _ => return None,
    };
    Some(ValType::Result { ok, err })
}

/// A type of resources.
fn of_resource(kind: &str, number: &str) -> Option<ValType> {
    let resource = number.parse::<u32>().ok()?;
    match kind {
        "own" => Some(ValType::Own(resource)),
        "borrow" => Some(ValType::Borrow(resource)),
        _ => None,
    }
}

/// A type with labels.
fn with_labels(alloc: Global, kind: &str, labels: &str, before: &mut Types) -> Option<ValType> {
    match kind {
        "record" => Some(ValType::Record(all_labelled(alloc, labels, before)?)),
        "variant" => Some(ValType::Variant(all_labelled(alloc, labels, before)?)),
        "flags" => Some(ValType::Flags(all_labelled(alloc, labels, before)?)),
        "enum" => Some(ValType::Enum(all_labelled(alloc, labels, before)?)),
        _ => of_resource(kind, labels),
    }
}

/// A type without labels.
fn without_labels(word: &str, before: &mut Types) -> Option<ValType> {
    if let Some(val_type) = plain(word) {
        return Some(val_type);
    }
    if let Some(val_type) = over_last(word, before) {
        return Some(val_type);
    }
    of_results(word, before)
}

/// The type that a word stands for. Labels or the number of a resource stand behind a colon, the number of labels that are all
/// alike behind a cross-hatch, and the number of a tuple's parts behind a slash.
fn word_type(alloc: Global, word: &str, before: &mut Types) -> Option<ValType> {
    if let Some((kind, labels)) = word.split_once(':') {
        return with_labels(alloc, kind, labels, before);
    }
    if let Some((kind, count)) = word.split_once('#') {
        let labels = alike(alloc, count)?;
        return with_labels(alloc, kind, labels.as_str(), before);
    }
    if let Some((_tuple, count)) = word.split_once('/') {
        return Some(ValType::Tuple(before.take_all(alloc, count)?));
    }
    without_labels(word, before)
}

/// The type that a word stands for, to be shared. That of `twice` is the one before it.
fn shared_type(alloc: Global, word: &str, before: &mut Types) -> Option<Shared<ValType>> {
    if word == "twice" {
        return before.last()?.share().ok();
    }
    Shared::new(alloc, word_type(alloc, word, before)?).ok()
}

/// The types that words stand for, and are no parts of others, in order.
fn all_types(alloc: Global, text: &str) -> Option<Vec<Shared<ValType>>> {
    let mut types = Stack::new(alloc);
    for word in text.split_whitespace() {
        let val_type = shared_type(alloc, word, &mut types)?;
        types.put(val_type)?;
    }
    Some(types.into_vec())
}

/// The types that words stand for, and are no parts of others, in order.
pub fn types_of(alloc: Global, text: &str) -> Result<Vec<Shared<ValType>>, Fail> {
    Ok(all_types(alloc, text).ok_or("no types")?)
}

/// The last of the types that words stand for, if there is one.
fn last_type(alloc: Global, text: &str) -> Option<Shared<ValType>> {
    all_types(alloc, text)?.pop()
}

/// The last of the types that words stand for.
pub fn type_of(alloc: Global, text: &str) -> Result<Shared<ValType>, Fail> {
    Ok(last_type(alloc, text).ok_or("no type")?)
}

/// A parameter of this type.
fn param_of(alloc: Global, val_type: Shared<ValType>) -> Option<Param> {
    let label = Name::new(alloc, "p").ok()?;
    Some(Param { label, val_type })
}

/// Parameters of the types that words stand for.
fn all_params(alloc: Global, types: &str) -> Option<Seq<Param>> {
    let mut params = Seq::new(alloc);
    for val_type in all_types(alloc, types)? {
        params.push(param_of(alloc, val_type)?).ok()?;
    }
    Some(params)
}

/// Parameters of the types that words stand for.
pub fn params_of(alloc: Global, types: &str) -> Result<Seq<Param>, Fail> {
    Ok(all_params(alloc, types).ok_or("no parameters")?)
}

/// The function of parameters and a result of the types that words stand for, without a result if there are no words.
pub fn func_of(alloc: Global, params: &str, returned: &str) -> Result<FuncType, Fail> {
    let params = params_of(alloc, params)?;
    let result = last_type(alloc, returned);
    Ok(FuncType { params, result })
}
