//! What becomes of the bytes of a module that is read and then validated.

use ca_base::{ReadError, Refusal};
use faults::MemoryOr;
use module_reading::{checked, read_at};
use std::alloc::Global;
use std::test::Fail;
use wasm_code_reader::ModuleWhy;
use wasm_typing::{Module, ValidFault};

/// The place and the reason of a refusal.
fn refusal_text(alloc: Global, refusal: Refusal<ModuleWhy>) -> Result<String, Fail> {
    let Refusal { place, why } = refusal;
    Ok(format!(in alloc; "{place} {why:?}")?)
}

/// The place and the reason of a fault, and the function in whose body it stands.
fn fault_text(alloc: Global, fault: ValidFault) -> Result<String, Fail> {
    let ValidFault { func, place, why } = fault;
    match func {
        None => Ok(format!(in alloc; "{place} {why:?}")?),
        Some(number) => Ok(format!(in alloc; "{place} {why:?} in {number}")?),
    }
}

/// Whether a module is valid.
fn validity(alloc: Global, read: Module) -> Result<String, Fail> {
    match checked(alloc, read).err() {
        None => Ok(String::from_str(alloc, "ok")?),
        Some(MemoryOr::Memory) => Err(Fail::new("memory")),
        Some(MemoryOr::Fault(fault)) => fault_text(alloc, fault),
    }
}

/// What becomes of bytes, of which the first one stands at a place: `ok`, or the place and the reason of the refusal or the
/// fault, and for a fault in a body also its function.
pub(crate) fn fate(alloc: Global, bytes: &[u8], base: u16) -> Result<String, Fail> {
    match read_at(alloc, bytes, base) {
        Ok(read) => validity(alloc, read),
        Err(ReadError::Memory) => Err(Fail::new("memory")),
        Err(ReadError::Fault(refusal)) => refusal_text(alloc, refusal),
    }
}
