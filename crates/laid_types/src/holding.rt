//! What values of a type hold.

ghost use Rattle.std.specs.Prelude.{◌≡◌, ◌||◌};

/// What values of a type hold.
#[derive(Clone, Copy)]
pub(crate) struct Holding {
    /// Whether they hold the end of a stream or a future.
    pub(crate) end: bool,
    /// Whether they hold a handle.
    pub(crate) handle: bool,
    /// Whether they hold a borrowed handle.
    pub(crate) borrow: bool,
    /// Whether they hold a string or a list.
    pub(crate) list: bool,
}

impl Holding {
    /// What either of two holds.
    pub(crate) fn or(self, other: Holding) -> Holding
        ensures end { result.end ≡ (self.end || other.end) }
        ensures handle { result.handle ≡ (self.handle || other.handle) }
        ensures borrow { result.borrow ≡ (self.borrow || other.borrow) }
        ensures list { result.list ≡ (self.list || other.list) }
    {
        Holding {
            end: self.end || other.end,
            handle: self.handle || other.handle,
            borrow: self.borrow || other.borrow,
            list: self.list || other.list,
        }
    }
}
