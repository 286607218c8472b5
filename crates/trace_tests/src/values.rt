//! Lines with values.

use crate::telling::line_told;
use ca_types::fits;
use std::alloc::Global;
use std::test::Fail;
use syntax_trees::{Name, Seq, ValType, Value};
use trace_labels::{Channel, Copied, Label, TypedValue, TypedValues};
use type_texts::{type_of, value_of, values_of};

/// Whether a value is of a type.
fn is_of(value: &Value, val_type: &ValType) -> bool {
    fits(value, val_type)
}

/// A value with its type.
fn typed(alloc: Global, text: &str) -> Result<TypedValue, Fail> {
    let (val_type, value) = text.split_once('|').ok_or("no value")?;
    let val_type = type_of(alloc, val_type)?;
    let value = value_of(alloc, value)?;
    if is_of(&value, val_type.get()) {
        Ok(TypedValue { value, val_type })
    } else {
        Err(Fail::new("a value of another type"))
    }
}

/// Values with their types.
fn all_typed(alloc: Global, text: &str) -> Result<Seq<TypedValue>, Fail> {
    let mut values = Seq::new(alloc);
    for part in text.split_terminator(';') {
        values.push(typed(alloc, part)?)?;
    }
    Ok(values)
}

/// The label of a call that is taken.
fn taken(alloc: Global, name: &str, args: &str) -> Result<Label, Fail> {
    let name = Name::new(alloc, name)?;
    let args = all_typed(alloc, args)?;
    Ok(Label::Take {
        call: 1,
        task: 1,
        name,
        args,
    })
}

/// The line of a call that is taken: its name and its arguments.
pub fn take_answer(alloc: Global, given: &str) -> Result<String, Fail> {
    let (name, args) = given.split_once(" :").ok_or("no arguments")?;
    let label = taken(alloc, name, args)?;
    line_told(alloc, label)
}

/// The line of a task that returns: its number and its result.
pub fn return_answer(alloc: Global, given: &str) -> Result<String, Fail> {
    let (task, value) = given.split_once(" :").ok_or("no result")?;
    let task = task.parse::<u32>()?;
    let value = Some(typed(alloc, value)?);
    line_told(alloc, Label::Return { task, value })
}

/// Whether all values are of a type.
fn are_of(values: &[Value], val_type: &ValType) -> bool {
    for value in values {
        if !is_of(value, val_type) {
            return false;
        }
    }
    true
}

/// Values of one type.
pub fn of_one_type(alloc: Global, text: &str) -> Result<TypedValues, Fail> {
    let (val_type, values) = text.split_once('|').ok_or("no values")?;
    let val_type = type_of(alloc, val_type)?;
    let values = Seq::from_vec(values_of(alloc, values)?);
    if are_of(values.as_slice(), val_type.get()) {
        Ok(TypedValues { values, val_type })
    } else {
        Err(Fail::new("a value of another type"))
    }
}

/// The line of elements that are copied: the number of the stream and the elements.
pub fn copy_answer(alloc: Global, given: &str) -> Result<String, Fail> {
    let (stream, values) = given.split_once(" :").ok_or("no elements")?;
    let channel = Channel::Stream(stream.parse::<u32>()?);
    let copied = Copied::Values(of_one_type(alloc, values)?);
    line_told(alloc, Label::Copy { channel, copied })
}
