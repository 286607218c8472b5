//! Want of memory, and faults beside it.

ghost use Rattle.std.specs.Prelude.{◌≡◌};

use std::alloc::{AllocError, AllocFailed};
use std::fmt;
use thiserror::Error;

/// Want of memory, of a call that has no other refusal.
#[derive(Clone, Copy, Debug, Error)]
#[error("out of memory")]
pub struct Memory;

impl From<AllocError> for Memory {
    fn from(_e: AllocError) -> Memory {
        Memory
    }
}

impl<T: Drop> From<AllocFailed<T>> for Memory {
    fn from(_e: AllocFailed<T>) -> Memory {
        Memory
    }
}

/// A fault of this kind, or want of memory: why a call ends without its result.
#[derive(Clone, Copy, Debug, Drop, Error)]
#[error_bound(F: fmt::Display)]
pub enum MemoryOr<F> {
    /// Want of memory.
    #[error("out of memory")]
    Memory,
    /// The fault.
    #[error("{0}")]
    Fault(F),
}

impl<F> From<AllocError> for MemoryOr<F> {
    ghost use Rattle.faults.specs.declared.memory.MemoryOr.TheVariants.{Memory};

    ghost from_gives = { λ _ e. e ≡ Memory };

    fn from(_e: AllocError) -> MemoryOr<F> {
        MemoryOr::Memory
    }
}

impl<T: Drop, F> From<AllocFailed<T>> for MemoryOr<F> {
    ghost use Rattle.faults.specs.declared.memory.MemoryOr.TheVariants.{Memory};

    ghost from_gives = { λ _ e. e ≡ Memory };

    fn from(_e: AllocFailed<T>) -> MemoryOr<F> {
        MemoryOr::Memory
    }
}

impl<F> From<Memory> for MemoryOr<F> {
    ghost use Rattle.faults.specs.declared.memory.MemoryOr.TheVariants as or;

    ghost from_gives = { λ _ e. e ≡ or.Memory };

    fn from(_e: Memory) -> MemoryOr<F> {
        MemoryOr::Memory
    }
}
