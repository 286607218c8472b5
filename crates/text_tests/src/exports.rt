//! Exports of texts.

use std::alloc::{AllocError, Global};
use syntax_trees::{Export, Exports, FuncType, Name, Param, Seq, Shared, ValType};

/// The type of lists of u32.
fn numbers(alloc: Global) -> Result<Shared<ValType>, AllocError> {
    let element = Shared::new(alloc, ValType::U32)?;
    Shared::new(alloc, ValType::List(element))
}

/// The type of this name: `string`, `own`, `stream`, `numbers` (a list of u32), and else u32.
fn type_named(alloc: Global, name: &str) -> Result<Shared<ValType>, AllocError> {
    match name {
        "string" => Shared::new(alloc, ValType::String),
        "own" => Shared::new(alloc, ValType::Own(0)),
        "stream" => Shared::new(alloc, ValType::Stream(None)),
        "numbers" => numbers(alloc),
        _ => Shared::new(alloc, ValType::U32),
    }
}

/// The parameter of a label, with `=` and its type behind it where that is not u32.
fn param(alloc: Global, word: &str) -> Result<Param, AllocError> {
    let (label, val_type) = word.split_once("=").unwrap_or((word, "u32"));
    let label = Name::new(alloc, label)?;
    let val_type = type_named(alloc, val_type)?;
    Ok(Param { label, val_type })
}

/// Adds a parameter.
fn push_param(alloc: Global, params: &mut Seq<Param>, word: &str) -> Result<(), AllocError> {
    let param = param(alloc, word)?;
    params.push(param)
}

/// A function's parameters, with a space between two.
fn params(alloc: Global, labels: &str) -> Result<Seq<Param>, AllocError> {
    let mut params = Seq::new(alloc);
    for word in labels.split_whitespace() {
        push_param(alloc, &mut params, word)?;
    }
    Ok(params)
}

/// A function's type: its parameters, and behind `>` the type of its result where it is not u32.
fn func_type(alloc: Global, labels: &str) -> Result<FuncType, AllocError> {
    let (labels, returned) = labels.split_once(">").unwrap_or((labels, "u32"));
    let returned = type_named(alloc, returned)?;
    let params = params(alloc, labels)?;
    Ok(FuncType {
        params,
        result: Some(returned),
    })
}

/// The export of this name and type.
fn export(alloc: Global, name: &str, labels: &str) -> Result<Export, AllocError> {
    let name = Name::new(alloc, name)?;
    let func_type = Shared::new(alloc, func_type(alloc, labels)?)?;
    Ok(Export { name, func_type })
}

/// Adds the export of this name and type.
fn push_export(
    alloc: Global,
    exports: &mut Exports,
    name: &str,
    labels: &str,
) -> Result<(), AllocError> {
    let export = export(alloc, name, labels)?;
    exports.push(export)
}

/// The exports of a text: a line an export, its name and then its parameters and its result.
pub(crate) fn exports_of(alloc: Global, text: &str) -> Result<Exports, AllocError> {
    let mut exports = Seq::new(alloc);
    for line in text.lines() {
        let (name, labels) = line.split_once(":").unwrap_or((line, ""));
        push_export(alloc, &mut exports, name, labels)?;
    }
    Ok(exports)
}
