//! Why bytes are not read.

ghost use Rattle.std.specs.Prelude.{◌≡◌};

use faults::MemoryOr;
use std::fmt;
use thiserror::Error;

/// Why bytes are refused, and where.
#[derive(Clone, Copy, Debug, Error)]
#[error_bound(W: fmt::Display)]
#[error("byte {place}: {why}")]
pub struct Refusal<W> {
    /// The byte place, counted from the file's start.
    pub place: usize,
    /// The reason.
    pub why: W,
}

/// Why a reading ended without an item: want of memory, or a refusal of the bytes.
pub type ReadError<W> = MemoryOr<Refusal<W>>;

impl<W> From<Refusal<W>> for MemoryOr<Refusal<W>> {
    ghost use Rattle.faults.specs.declared.memory.MemoryOr.TheVariants.{Fault};

    ghost from_gives = { λ refusal e. e ≡ Fault refusal };

    fn from(refusal: Refusal<W>) -> MemoryOr<Refusal<W>> {
        MemoryOr::Fault(refusal)
    }
}
