//! Why a module is not valid.

use thiserror::Error;

/// What is wrong in a module (Core 2.0, section 3). At one place the first in this order is told.
#[derive(Clone, Copy, Debug, Error)]
pub enum ValidWhy {
    /// What an index names is not there.
    #[error("what an index names is not there")]
    Index,
    /// A label's index is past the open blocks.
    #[error("a label's index is past the open blocks")]
    Label,
    /// An alignment is above that of what is read or written.
    #[error("an alignment is above that of what is read or written")]
    Align,
    /// There are too few operands.
    #[error("there are too few operands")]
    Stack,
    /// Operands have other types, or there are too many at an end, or a type isn't allowed.
    #[error("operands have other types, or there are too many, or a type isn't allowed")]
    Typing,
    /// A name stands at an earlier export.
    #[error("an earlier export has the same name")]
    Name,
    /// A second memory, or a second table.
    #[error("there is a second memory or a second table")]
    Limit,
}
