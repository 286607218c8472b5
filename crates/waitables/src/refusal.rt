//! Why a set isn't dropped.

use thiserror::Error;

/// Why a set isn't dropped (CanonicalABI.md, "canon waitable-set.drop").
#[derive(Clone, Copy, Debug, Error)]
pub enum SetRefusal {
    /// It has a member.
    #[error("the set has a member")]
    Members,
    /// It has no member, and a task waits on it.
    #[error("a task waits on the set")]
    Waiters,
}
