//! Core functions, and functions that hold handles.

use crate::types::{word, write_core};
use ca_types::flat_func;
use std::alloc::{AllocError, Global};
use std::test::Fail;
use syntax_trees::{CoreFunc, FlatKind, FuncType};
use type_texts::func_of;
use value_reader::func_has_host_type;

/// The way of lifting or lowering that a word names.
fn kind_of(word: &str) -> Option<FlatKind> {
    match word {
        "sync-lift" => Some(FlatKind::SyncLift),
        "async-lift" => Some(FlatKind::AsyncLift),
        "callback-lift" => Some(FlatKind::CallbackLift),
        "sync-lower" => Some(FlatKind::SyncLower),
        "async-lower" => Some(FlatKind::AsyncLower),
        _ => None,
    }
}

/// Writes the core types of a function's parameters and results.
fn write_core_func(text: &mut String, core: &CoreFunc) -> Result<(), AllocError> {
    write_core(text, core.params.as_slice())?;
    text.push_str(" ->")?;
    write_core(text, core.results.as_slice())
}

/// The core function that stands for a function, behind a space.
fn core_function(alloc: Global, kind: FlatKind, func_type: &FuncType) -> Result<String, Fail> {
    let core = flat_func(alloc, kind, func_type)?;
    let mut text = String::new(alloc);
    write_core_func(&mut text, &core)?;
    Ok(text)
}

/// The core function of a line: how a function is lifted or lowered, its parameters, and its result or nothing.
pub(crate) fn core_answer(alloc: Global, given: &str) -> Result<String, Fail> {
    let (kind, types) = given.split_once(" |").ok_or("no parameters")?;
    let (params, returned) = types.split_once('|').ok_or("no result")?;
    let kind = kind_of(kind).ok_or("no kind")?;
    let func_type = func_of(alloc, params, returned)?;
    core_function(alloc, kind, &func_type)
}

/// Whether the function of a line may hold handles.
pub(crate) fn holder_answer(alloc: Global, given: &str) -> Result<String, Fail> {
    let (params, returned) = given.split_once(" |").ok_or("no result")?;
    let func_type = func_of(alloc, params, returned)?;
    Ok(String::from_str(alloc, word(func_has_host_type(&func_type)))?)
}
