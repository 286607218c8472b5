//! Why a numeric instruction has no result.

use thiserror::Error;

/// Why a numeric instruction traps (Core 2.0, section 4.3.2).
#[derive(Clone, Copy, Debug, Error)]
pub enum NumberTrap {
    /// A division by 0, or the remainder of one.
    #[error("a division by zero")]
    DivideByZero,
    /// A signed quotient that is no number of its width: the least one by -1.
    #[error("a quotient that is no number of its width")]
    DivideOverflow,
}
