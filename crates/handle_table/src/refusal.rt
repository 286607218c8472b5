//! Why an entry is not added.

use thiserror::Error;

/// Why an entry is not added. It is handed back.
#[derive(Clone, Copy, Debug, Drop, Error)]
pub enum AddError<T> {
    /// The table has 65,535 live entries.
    #[error("the table has 65,535 live entries")]
    Full(T),
    /// There is no memory for one more.
    #[error("there is no memory for one more entry")]
    Memory(T),
}

/// An entry that is not added, since the table has 65,535 live entries.
#[derive(Clone, Copy, Debug, Drop, Error)]
#[error("the table has 65,535 live entries")]
pub struct Full<T> {
    /// The entry.
    pub entry: T,
}
