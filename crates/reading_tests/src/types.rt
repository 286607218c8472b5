//! The types of components as text.

use crate::texts::{write_behind, write_debug};
use crate::value_types::{write_def_val_type, write_held, write_labelled};
use comp_tree::{Alias, AliasTarget, DefType, FuncType, InstanceDecl};
use std::alloc::AllocError;

/// Writes a function type.
fn write_func_type(text: &mut String, func_type: &FuncType) -> Result<(), AllocError> {
    text.push_str("function type from")?;
    for param in func_type.params.as_slice() {
        write_labelled(text, &param.label, Some(param.val_type))?;
    }
    text.push_str(" to ")?;
    write_held(text, func_type.result)
}

/// Writes what an alias stands for.
fn write_target(text: &mut String, target: &AliasTarget) -> Result<(), AllocError> {
    match target {
        AliasTarget::InstanceExport { instance, name } => {
            text.push_str(name.as_str())?;
            write_behind(text, " of instance ", *instance)
        }
        AliasTarget::CoreInstanceExport { instance, name } => {
            text.push_str(name.as_str())?;
            write_behind(text, " of core instance ", *instance)
        }
        AliasTarget::Outer { up, index } => {
            write_behind(text, "", *index)?;
            write_behind(text, ", ", *up)?;
            text.push_str(" levels up")
        }
    }
}

/// Writes an alias.
pub(crate) fn write_alias(text: &mut String, alias: &Alias) -> Result<(), AllocError> {
    write_debug(text, "alias of ", alias.sort)?;
    text.push(' ')?;
    write_target(text, &alias.target)
}

/// Writes a type of resources.
fn write_resource_type(text: &mut String, destructor: Option<u32>) -> Result<(), AllocError> {
    match destructor {
        None => text.push_str("resource type"),
        Some(index) => write_behind(text, "resource type, destructor ", index),
    }
}

/// Writes the declarations of an instance type.
#[cycle(types)]
fn write_decls(text: &mut String, decls: &[InstanceDecl]) -> Result<(), AllocError> {
    text.push_str("instance type of")?;
    for decl in decls {
        write_decl(text, decl)?;
    }
    text.push_str(" end")
}

/// Writes a type.
#[cycle(types)]
pub(crate) fn write_type(text: &mut String, def_type: &DefType) -> Result<(), AllocError> {
    match def_type {
        DefType::Value(val_type) => write_def_val_type(text, val_type),
        DefType::Func(func_type) => write_func_type(text, func_type),
        DefType::Instance(decls) => write_decls(text, decls.as_slice()),
        DefType::Resource(destructor) => write_resource_type(text, *destructor),
    }
}

/// Writes a declaration.
#[cycle(types)]
fn write_inner(text: &mut String, decl: &InstanceDecl) -> Result<(), AllocError> {
    match decl {
        InstanceDecl::Type(def_type) => write_type(text, def_type),
        InstanceDecl::Alias(alias) => write_alias(text, alias),
        InstanceDecl::Export { name, desc } => {
            text.push_str("export ")?;
            text.push_str(name.as_str())?;
            write_debug(text, ": ", *desc)
        }
    }
}

/// Writes a declaration of an instance type.
#[cycle(types)]
fn write_decl(text: &mut String, decl: &InstanceDecl) -> Result<(), AllocError> {
    text.push(' ')?;
    write_inner(text, decl)?;
    text.push(';')
}
