//! Why values are not lowered.

use std::alloc::AllocError;
use thiserror::Error;

/// Why a value does not go into a memory.
#[derive(Clone, Copy, Debug, Error)]
pub enum LowerWhy {
    /// A place is no multiple of the alignment of what is to stand there.
    #[error("the place is not aligned")]
    Misaligned,
    /// Not all bytes are inside the memory, or 2^32 or more are asked for.
    #[error("the bytes are not inside the memory")]
    Bounds,
    /// The table of handles has 65,535 live entries, and one more is to be made.
    #[error("the table of handles is full")]
    TableFull,
}

/// Why a realloc gives no answer.
#[derive(Clone, Copy, Debug, Drop, Error)]
pub enum RoomEnd<T> {
    /// Its code trapped, for this reason.
    #[error("the code of a realloc trapped")]
    Trapped(T),
    /// There is no unit of fuel left.
    #[error("no fuel is left for a realloc")]
    NoFuel,
    /// Want of memory of the program, not of the guest.
    #[error("want of memory")]
    Memory,
}

/// Why a lowering ends without its result.
#[derive(Clone, Copy, Debug, Drop, Error)]
pub enum LowerError<T> {
    /// The lowering itself traps.
    #[error("the value is not lowered: {0}")]
    Failed(LowerWhy),
    /// A realloc gave no answer, or the program is short of memory.
    #[error("a realloc gave no answer")]
    Ended(RoomEnd<T>),
}

impl<T> From<LowerWhy> for LowerError<T> {
    ghost use Rattle.std.specs.Prelude.{◌≡◌};
    ghost use Rattle.value_lower.specs.declared.ends.LowerError.TheVariants.{Failed};

    ghost from_gives = { λ why e. e ≡ Failed why };

    fn from(why: LowerWhy) -> LowerError<T> {
        LowerError::Failed(why)
    }
}

impl<T> From<RoomEnd<T>> for LowerError<T> {
    ghost use Rattle.std.specs.Prelude.{◌≡◌};
    ghost use Rattle.value_lower.specs.declared.ends.LowerError.TheVariants.{Ended};

    ghost from_gives = { λ end e. e ≡ Ended end };

    fn from(end: RoomEnd<T>) -> LowerError<T> {
        LowerError::Ended(end)
    }
}

impl<T> From<AllocError> for LowerError<T> {
    ghost use Rattle.std.specs.Prelude.{◌≡◌};
    ghost use Rattle.value_lower.specs.declared.ends.LowerError.TheVariants.{Ended};
    ghost use Rattle.value_lower.specs.declared.ends.RoomEnd.TheVariants.{Memory};

    ghost from_gives = { λ _ e. e ≡ Ended Memory };

    fn from(_e: AllocError) -> LowerError<T> {
        LowerError::Ended(RoomEnd::Memory)
    }
}
