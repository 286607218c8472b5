//! Why a value is not lifted, and where.

ghost use Rattle.std.specs.Prelude.{◌≡◌};

use faults::MemoryOr;
use res_handles::Refusal;
use thiserror::Error;

/// Why no value of a type stands there.
#[derive(Clone, Copy, Debug, Error)]
pub enum LiftWhy {
    /// A place is no multiple of the alignment of what is to stand there.
    #[error("the place is not aligned")]
    Misaligned,
    /// Not all bytes are inside the memory.
    #[error("the bytes are not inside the memory")]
    Bounds,
    /// The number is no Unicode scalar value.
    #[error("the number is no Unicode scalar value")]
    BadChar,
    /// The bytes of a text are not UTF-8.
    #[error("the bytes are not UTF-8")]
    BadUtf8,
    /// No case has this number.
    #[error("no case has this number")]
    BadCase,
    /// More is lifted at once than may be: 134,217,728 values and bytes of texts.
    #[error("more is lifted at once than may be")]
    TooLarge,
    /// The index of a handle or an end is refused.
    #[error("{0}")]
    Refused(Refusal),
}

/// Why and where lifting ends without a value.
#[derive(Clone, Copy, Debug, Error)]
#[error("no value stands at {place}: {why}")]
pub struct LiftTrap {
    /// The reason.
    pub why: LiftWhy,
    /// The place in memory of the first byte of the part that stands for nothing; for a part that stands in core values,
    /// the number of its first one, counted from 0.
    pub place: u64,
}

/// Why lifting ends without a value: want of memory, or a trap.
pub type LiftError = MemoryOr<LiftTrap>;

impl LiftTrap {
    /// The trap of what stands at a place.
    pub(crate) fn at(why: LiftWhy, place: u64) -> LiftTrap
        ensures { result ≡ record { why = why; place = place } }
    {
        LiftTrap { why, place }
    }
}

impl From<LiftTrap> for MemoryOr<LiftTrap> {
    ghost use Rattle.faults.specs.declared.memory.MemoryOr.TheVariants.{Fault};

    ghost from_gives = { λ trap e. e ≡ Fault trap };

    fn from(trap: LiftTrap) -> MemoryOr<LiftTrap> {
        MemoryOr::Fault(trap)
    }
}
