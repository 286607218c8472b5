//! Exports as callers of components speak of them.

use cases::Answers;
use std::alloc::{AllocError, Global};
use std::test::Fail;
use syntax_trees::{Export, Exports, FuncType, Name, Param, Seq, Shared, ValType};

/// The export of this name from a parameter of this label.
fn export_of(alloc: Global, name: &str, label: &str) -> Result<Export, AllocError> {
    let param = Param {
        label: Name::new(alloc, label)?,
        val_type: Shared::new(alloc, ValType::U32)?,
    };
    let func_type = FuncType {
        params: Seq::of(alloc, param)?,
        result: Some(Shared::new(alloc, ValType::U32)?),
    };
    Ok(Export {
        name: Name::new(alloc, name)?,
        func_type: Shared::new(alloc, func_type)?,
    })
}

/// Writes a parameter.
fn write_param(text: &mut String, param: &Param) -> Result<(), AllocError> {
    text.push_str(", ")?;
    text.push_str(param.label.as_str())?;
    match param.val_type.get() {
        ValType::U32 => text.push_str(": u32"),
        _ => text.push_str(": another type"),
    }
}

/// Writes an export.
fn write_export(text: &mut String, export: &Export) -> Result<(), AllocError> {
    text.push_str(export.name.as_str())?;
    let func_type = export.func_type.get();
    for param in func_type.params.as_slice() {
        write_param(text, param)?;
    }
    if func_type.result.is_some() {
        text.push_str(", to something")?;
    }
    Ok(())
}

/// Exports as text.
fn shown(alloc: Global, exports: &Exports) -> Result<String, AllocError> {
    let mut text = String::new(alloc);
    for export in exports.as_slice() {
        write_export(&mut text, export)?;
    }
    Ok(text)
}

/// Exports that are let go then, as text.
fn exports_text(alloc: Global, exports: Exports) -> Result<String, AllocError> {
    shown(alloc, &exports)
}

/// Exports of one function.
pub(crate) struct OneExport;

impl Answers for OneExport {
    fn answer(alloc: Global, given: &str) -> Result<String, Fail> {
        let (name, label) = given.split_once(' ').ok_or("no label")?;
        let exports = Seq::of(alloc, export_of(alloc, name, label)?)?;
        Ok(exports_text(alloc, exports)?)
    }
}
