//! The bytes that are made of modules.

use comp_make::{Build, module_bytes};
use faults::Memory;
use module_reading::{read_at, valid_of};
use std::alloc::Global;
use std::test::Fail;
use syntax_trees::Bytes;
use wasm_typing::{Module, Valid};

/// The bytes that are made of a module.
fn made(alloc: Global, read: Module) -> Result<Bytes, Memory> {
    module_bytes(alloc, read.tree())
}

/// The bytes that are made of a valid module.
fn valid_made(alloc: Global, valid: Valid) -> Result<Bytes, Memory> {
    module_bytes(alloc, valid.tree())
}

/// The bytes that are made of what is read of bytes.
pub(crate) fn remade(alloc: Global, bytes: &[u8]) -> Result<Bytes, Fail> {
    let read = read_at(alloc, bytes, 0)?;
    Ok(made(alloc, read)?)
}

/// The bytes that are made of the valid module of bytes.
pub(crate) fn valid_remade(alloc: Global, bytes: &[u8]) -> Result<Bytes, Fail> {
    let valid = valid_of(alloc, bytes)?;
    Ok(valid_made(alloc, valid)?)
}

/// Adds the module of bytes to a component.
fn add_module(alloc: Global, build: &mut Build, bytes: &[u8]) -> Result<(), Fail> {
    let read = read_at(alloc, bytes, 0)?;
    build.module(read.into_parts().tree)?;
    Ok(())
}

/// Adds the modules whose bytes stand in a text, with a `|` between them.
fn add_modules(alloc: Global, build: &mut Build, modules: &str) -> Result<(), Fail> {
    for hex in modules.split('|') {
        if !hex.trim().is_empty() {
            let bytes = cases::bytes_of(alloc, hex)?;
            add_module(alloc, build, &bytes)?;
        }
    }
    Ok(())
}

/// The bytes of a component to which these modules are added.
fn bytes_with(alloc: Global, build: &mut Build, modules: &str) -> Result<Bytes, Fail> {
    add_modules(alloc, build, modules)?;
    Ok(build.bytes(alloc)?)
}

/// The bytes of the component of the modules whose bytes stand in a text, with a `|` between them.
pub(crate) fn component(alloc: Global, modules: &str) -> Result<Bytes, Fail> {
    let mut build = Build::new(alloc);
    bytes_with(alloc, &mut build, modules)
}
