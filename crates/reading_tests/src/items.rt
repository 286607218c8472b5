//! The items of components as text.

use crate::builtins::write_canon;
use crate::texts::{write_behind, write_debug};
use crate::types::{write_alias, write_type};
use ca_base::Placed;
use comp_tree::{
    Component, CoreArgument, CoreInlineExport, CoreInstance, Export, ExternDesc, Import, Instance,
    Item, NamedDefinition,
};
use std::alloc::AllocError;
use std::fmt::Debug;
use syntax_trees::Name;
use wasm_typing::Valid;

/// Writes a name behind a space.
fn write_name(text: &mut String, name: &Name) -> Result<(), AllocError> {
    text.push(' ')?;
    text.push_str(name.as_str())
}

/// Writes a core module.
fn write_module(text: &mut String, valid: &Valid) -> Result<(), AllocError> {
    let tree = valid.tree();
    write_debug(text, "core module of ", tree.types.len())?;
    write_debug(text, " types and ", tree.funcs.len())?;
    text.push_str(" functions, exporting")?;
    for export in tree.exports.as_slice() {
        write_name(text, &export.name)?;
    }
    Ok(())
}

/// Writes what stands under a name.
fn write_named<S: Copy + Debug>(
    text: &mut String,
    name: &Name,
    sort: S,
    index: u32,
) -> Result<(), AllocError> {
    text.push(',')?;
    write_name(text, name)?;
    write_debug(text, " is ", sort)?;
    write_behind(text, " ", index)
}

/// Writes an argument of a core module.
fn write_core_argument(text: &mut String, argument: &CoreArgument) -> Result<(), AllocError> {
    text.push(',')?;
    write_name(text, &argument.name)?;
    write_behind(text, " from core instance ", argument.instance)
}

/// Writes the arguments of a core module.
fn write_core_arguments(text: &mut String, arguments: &[CoreArgument]) -> Result<(), AllocError> {
    for argument in arguments {
        write_core_argument(text, argument)?;
    }
    Ok(())
}

/// Writes the inline exports of a core instance.
fn write_core_exports(text: &mut String, exports: &[CoreInlineExport]) -> Result<(), AllocError> {
    text.push_str("core instance")?;
    for export in exports {
        write_named(text, &export.name, export.sort, export.index)?;
    }
    Ok(())
}

/// Writes a core instance.
fn write_core_instance(text: &mut String, made: &CoreInstance) -> Result<(), AllocError> {
    match made {
        CoreInstance::Instantiate { module, arguments } => {
            write_behind(text, "instance of core module ", *module)?;
            write_core_arguments(text, arguments.as_slice())
        }
        CoreInstance::Inline(exports) => write_core_exports(text, exports.as_slice()),
    }
}

/// Writes definitions under their names.
fn write_definitions(text: &mut String, definitions: &[NamedDefinition]) -> Result<(), AllocError> {
    for definition in definitions {
        write_named(text, &definition.name, definition.sort, definition.index)?;
    }
    Ok(())
}

/// Writes an instance.
fn write_instance(text: &mut String, made: &Instance) -> Result<(), AllocError> {
    match made {
        Instance::Instantiate {
            component,
            arguments,
        } => {
            write_behind(text, "instance of component ", *component)?;
            write_definitions(text, arguments.as_slice())
        }
        Instance::Inline(exports) => {
            text.push_str("instance")?;
            write_definitions(text, exports.as_slice())
        }
    }
}

/// Writes an import.
fn write_import(text: &mut String, import: &Import) -> Result<(), AllocError> {
    text.push_str("import")?;
    write_name(text, &import.name)?;
    write_debug(text, ": ", import.desc)
}

/// Writes what an export is to be, if that is said.
fn write_desc(text: &mut String, desc: Option<ExternDesc>) -> Result<(), AllocError> {
    match desc {
        Some(desc) => write_debug(text, ", ", desc),
        None => Ok(()),
    }
}

/// Writes an export.
fn write_export(text: &mut String, export: &Export) -> Result<(), AllocError> {
    text.push_str("export")?;
    write_name(text, &export.name)?;
    write_debug(text, " of ", export.sort)?;
    write_behind(text, " ", export.index)?;
    write_desc(text, export.desc)
}

/// Writes a component that stands in another one.
#[cycle(items)]
fn write_component(text: &mut String, read: &Component) -> Result<(), AllocError> {
    text.push_str("component of")?;
    write_items(text, read)?;
    text.push_str("\nend")
}

/// Writes the items of a component at their places, each behind a line break.
#[cycle(items)]
pub(crate) fn write_items(text: &mut String, read: &Component) -> Result<(), AllocError> {
    for placed in read.items.as_slice() {
        write_placed(text, placed)?;
    }
    Ok(())
}

/// Writes an item at its place behind a line break.
#[cycle(items)]
fn write_placed(text: &mut String, placed: &Placed<Item>) -> Result<(), AllocError> {
    write_debug(text, "\n", placed.place)?;
    text.push(' ')?;
    match &placed.item {
        Item::CoreModule(valid) => write_module(text, valid.get()),
        Item::CoreInstance(made) => write_core_instance(text, made),
        Item::Component(inner) => write_component(text, inner),
        Item::Instance(made) => write_instance(text, made),
        Item::Alias(alias) => write_alias(text, alias),
        Item::Type(def_type) => write_type(text, def_type),
        Item::Canon(canon) => write_canon(text, canon),
        Item::Import(import) => write_import(text, import),
        Item::Export(export) => write_export(text, export),
    }
}
