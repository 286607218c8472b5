//! Modules as text.

use crate::ops::{write_found, write_op};
use std::alloc::{AllocError, Global};
use std::fmt::{Debug, Write};
use syntax_trees::module::Export;
use syntax_trees::module_types::FuncType;
use syntax_trees::{Func, ModuleTree, Seq};
use wasm_typing::{FuncPlaces, ModulePlaces, local_types};

/// Writes each item behind a space.
fn write_list<T: Debug>(text: &mut String, items: &[T]) -> Result<(), AllocError> {
    for item in items {
        write!(text, " {item:?}")?;
    }
    Ok(())
}

/// Writes a type.
fn write_type(text: &mut String, func_type: &FuncType) -> Result<(), AllocError> {
    write!(text, "\ntype from")?;
    write_list(text, func_type.params.as_slice())?;
    write!(text, " to")?;
    write_list(text, func_type.results.as_slice())
}

/// Writes a function with the types of all its locals.
fn write_func(
    alloc: Global,
    text: &mut String,
    types: &[FuncType],
    func: &Func,
    place: usize,
) -> Result<(), AllocError> {
    let index = func.type_index;
    write!(text, "\n{place} function of type {index} with locals")?;
    if let Some(func_type) = types.get(index as usize) {
        let locals = local_types(alloc, func_type, func.locals.as_slice())?;
        write_list(text, &locals)?;
    }
    Ok(())
}

/// Writes the operations of a function at their places.
fn write_body(text: &mut String, func: &Func, places: &FuncPlaces) -> Result<(), AllocError> {
    for (op, place) in func.body.ops().iter().zip(places.ops.as_slice()) {
        write!(text, "\n{place} ")?;
        write_op(text, op)?;
    }
    Ok(())
}

/// Writes an export.
fn write_export(text: &mut String, export: &Export, place: usize) -> Result<(), AllocError> {
    let name = export.name.as_str();
    let desc = export.desc;
    write!(text, "\n{place} export {name} of {desc:?}")
}

/// Writes each type.
fn write_types(text: &mut String, types: &[FuncType]) -> Result<(), AllocError> {
    for func_type in types {
        write_type(text, func_type)?;
    }
    Ok(())
}

/// Writes each function with its operations.
fn write_funcs(
    alloc: Global,
    text: &mut String,
    types: &[FuncType],
    funcs: &[Func],
    places: &[FuncPlaces],
) -> Result<(), AllocError> {
    for (func, inside) in funcs.iter().zip(places) {
        write_func(alloc, text, types, func, inside.place)?;
        write_body(text, func, inside)?;
    }
    Ok(())
}

/// Writes each export.
fn write_exports(
    text: &mut String,
    exports: &[Export],
    places: &[usize],
) -> Result<(), AllocError> {
    for (export, place) in exports.iter().zip(places) {
        write_export(text, export, *place)?;
    }
    Ok(())
}

/// The items of a module, a line each, behind a line break.
pub(crate) fn items_text(
    alloc: Global,
    tree: &ModuleTree,
    places: &ModulePlaces,
) -> Result<String, AllocError> {
    let mut text = String::new(alloc);
    let types = tree.types.as_slice();
    write_types(&mut text, types)?;
    let funcs = tree.funcs.as_slice();
    write_funcs(alloc, &mut text, types, funcs, places.funcs.as_slice())?;
    write_exports(
        &mut text,
        tree.exports.as_slice(),
        places.exports.as_slice(),
    )?;
    Ok(text)
}

/// How many types and exports a module has, and how many locals each of its functions declares, behind a line break.
pub(crate) fn sizes_text(alloc: Global, tree: &ModuleTree) -> Result<String, AllocError> {
    let types = tree.types.len();
    let exports = tree.exports.len();
    let mut text = format!(in alloc; "\n{types} types, {exports} exports")?;
    write_counts(alloc, &mut text, tree.funcs.as_slice())?;
    Ok(text)
}

/// Writes how many locals each function declares.
fn write_counts(alloc: Global, text: &mut String, funcs: &[Func]) -> Result<(), AllocError> {
    let no_type = FuncType {
        params: Seq::new(alloc),
        results: Seq::new(alloc),
    };
    for func in funcs {
        let count = local_types(alloc, &no_type, func.locals.as_slice())?.len();
        write!(text, ", {count} locals")?;
    }
    Ok(())
}

/// The operation at a place of the first function's body, if there is one, and how many the body has.
pub(crate) fn op_text(alloc: Global, funcs: &[Func], at: usize) -> Result<String, AllocError> {
    let Some(func) = funcs.first() else {
        return String::from_str(alloc, "no function");
    };
    let mut text = String::new(alloc);
    write_found(&mut text, func.body.op_at(at))?;
    let count = func.body.len();
    write!(text, " of {count}")?;
    Ok(text)
}
