//! Where a waitable is a member.

/// The set that a waitable is in, and the time at which it joined.
#[derive(Clone, Copy)]
pub struct Place {
    pub set: u64,
    pub time: u64,
}
