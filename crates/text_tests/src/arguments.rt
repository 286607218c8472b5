//! What is read of the text of arguments, written as traces write it.

use crate::reading::{told, unbracketed};
use faults::Memory;
use std::alloc::Global;
use std::test::Fail;
use syntax_trees::{Param, Seq, ValType, Value, Values};
use type_texts::{params_of, types_of};
use value_reader::read_arguments;

/// The arguments that a text stands for.
fn arguments_in(alloc: Global, text: &[u8], params: &[Param]) -> Result<Option<Values>, Memory> {
    read_arguments(alloc, text, params)
}

/// The text of arguments of these types.
fn arguments_told(alloc: Global, types: &str, values: Values) -> Result<String, Fail> {
    let tuple = ValType::Tuple(Seq::from_vec(types_of(alloc, types)?));
    told(alloc, Value::Record(values), &tuple)
}

/// What is read of the text of arguments, between angle brackets, or `none`.
fn read_back(alloc: Global, types: &str, text: &[u8], params: &[Param]) -> Result<String, Fail> {
    match arguments_in(alloc, text, params)? {
        Some(values) => arguments_told(alloc, types, values),
        None => Ok(String::from_str(alloc, "none")?),
    }
}

/// What is read of the text of a line.
pub(crate) fn arguments_answer(alloc: Global, given: &str) -> Result<String, Fail> {
    let (types, text) = given.split_once('|').ok_or("no text")?;
    let text = unbracketed(alloc, text)?;
    let params = params_of(alloc, types)?;
    read_back(alloc, types, &text, params.as_slice())
}
