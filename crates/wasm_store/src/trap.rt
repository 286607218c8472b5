//! Traps.

use thiserror::Error;

/// Why a run ends with a trap (Core 2.0, section 4.4).
#[derive(Clone, Copy, Debug, Error)]
pub enum Trap {
    /// The instruction `unreachable`.
    #[error("the instruction `unreachable` was reached")]
    Unreachable,
    /// A division by 0, or the remainder of one.
    #[error("a number was divided by 0")]
    DivideByZero,
    /// A quotient that its type does not hold.
    #[error("a quotient does not fit its type")]
    DivideOverflow,
    /// A byte of a memory that is not there.
    #[error("a byte of a memory is not there")]
    MemoryBounds,
    /// An entry of a table that is not there.
    #[error("an entry of a table is not there")]
    TableBounds,
    /// An entry of a table with no function in it.
    #[error("an entry of a table has no function in it")]
    NullElement,
    /// A function in a table of another type than the call's.
    #[error("a function in a table has another type than the call's")]
    OtherSignature,
    /// A call by a stack of 512 frames.
    #[error("a call came from a stack of 512 frames")]
    StackLimit,
}
