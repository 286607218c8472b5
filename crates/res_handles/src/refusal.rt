//! Why a call is refused.

use thiserror::Error;

/// Why a handle or an end is not lifted, dropped or read. The table is as it was.
#[derive(Clone, Copy, Debug, Error)]
pub enum Refusal {
    /// No entry is live at the index.
    #[error("no entry is live at the index")]
    Absent,
    /// The entry is of another kind.
    #[error("the entry is of another kind")]
    OtherKind,
    /// It is a handle of another resource, or an end of another type.
    #[error("the entry is of another type")]
    OtherType,
    /// It is a borrow, where an own handle is wanted.
    #[error("a borrow handle stands where an own handle is wanted")]
    NotOwn,
    /// It is lent.
    #[error("the handle is lent")]
    Lent,
    /// It is a readable end that is not idle.
    #[error("the readable end is not idle")]
    NotIdle,
}

/// Why a handle or an end is not lowered. The table has the entries that it had.
#[derive(Clone, Copy, Debug, Error)]
pub enum LowerError {
    /// The table has 65,535 live entries.
    #[error("the table has 65,535 live entries")]
    TableFull,
    /// There is no memory for one more, or no more owners of an end's type can be counted.
    #[error("there is no memory for one more entry")]
    Memory,
}
