//! The two sides of a stream.

ghost use Rattle.std.specs.Prelude.{◌≡◌};
ghost use Rattle.stream_ends.specs.Ends.{other_side};

/// One of the two ends of a stream.
#[derive(Clone, Copy)]
pub enum Side {
    /// The readable end.
    Reader,
    /// The writable end.
    Writer,
}

impl Side {
    /// The side across from this one.
    pub fn other(self) -> Side
        ensures { result ≡ other_side self }
    {
        match self {
            Side::Reader => Side::Writer,
            Side::Writer => Side::Reader,
        }
    }
}
