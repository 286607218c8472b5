//! What lifting moved in the table of handles.

/// What a lifting did to an entry of the table that the caller keeps more of than the table does, by its index. An own handle that
/// leaves the table is told by the table alone.
#[derive(Clone, Copy, Debug)]
pub enum Moved {
    /// The handle at this index is lent once more, until the caller ends the loan.
    Lent(u32),
    /// The readable end at this index left the table. The caller takes it out of the waitable set that it is in.
    Taken(u32),
}
