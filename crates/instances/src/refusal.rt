//! Why a call of an instance does nothing.

use res_handles::Refusal;
use thiserror::Error;
use waitables::SetRefusal;

/// Why a borrow is not lifted. The instance is as it was.
#[derive(Clone, Copy, Debug, Drop, Error)]
pub enum LendError {
    /// There is no handle that may be lent.
    #[error("no handle is lent: {0}")]
    Refused(Refusal),
    /// The handle is lent 2^64 - 1 times.
    #[error("the handle is lent 2^64 - 1 times")]
    Most,
}

/// Why a waitable joins no set, or no wait on it begins. The instance is as it was.
#[derive(Clone, Copy, Debug, Drop, Error)]
pub enum SetError {
    /// No set has the number.
    #[error("no set has the number")]
    NoSet,
    /// There is no memory, or no more can be counted.
    #[error("there is no memory, or no more can be counted")]
    Memory,
}

/// Why a set is not dropped. The instance is as it was.
#[derive(Clone, Copy, Debug, Drop, Error)]
pub enum DropSetError {
    /// No set has the number.
    #[error("no set has the number")]
    NoSet,
    /// It may not be dropped.
    #[error("the set is not dropped: {0}")]
    Refused(SetRefusal),
}
