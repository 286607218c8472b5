//! Failures of a source or a sink.

use thiserror::Error;

/// A read or a write that failed. Its object's count of faults grew, or stands at its last value.
#[derive(Clone, Copy, Debug, Error)]
#[error("a read or a write failed")]
pub struct Failed;
