//! Modules of bytes.

use ca_base::ReadError;
use faults::MemoryOr;
use std::alloc::Global;
use std::test::Fail;
use wasm_code_reader::ModuleWhy;
use wasm_reader::read_module;
use wasm_typing::{Module, Valid, ValidFault};
use wasm_valid::validate;

/// The module of bytes, of which the first one stands at a place.
pub fn read_at(alloc: Global, bytes: &[u8], base: u16) -> Result<Module, ReadError<ModuleWhy>> {
    read_module(alloc, bytes, usize::from(base))
}

/// A module that is valid, or its fault.
pub fn checked(alloc: Global, read: Module) -> Result<Valid, MemoryOr<ValidFault>> {
    validate(alloc, read)
}

/// The valid module of bytes.
pub fn valid_of(alloc: Global, bytes: &[u8]) -> Result<Valid, Fail> {
    let read = read_at(alloc, bytes, 0)?;
    Ok(checked(alloc, read)?)
}
