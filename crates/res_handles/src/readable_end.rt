//! A readable end of a stream or a future.

ghost use Rattle.std.specs.Prelude.{◌≡◌};
ghost use Rattle.res_handles.specs.Ends.{end_of};

use crate::refusal::Refusal;

/// The readable end of a stream or a future.
#[derive(Clone, Copy)]
pub struct ReadableEnd {
    /// The number of the stream or the future.
    pub number: u32,
    /// Whether no read of it is open and it isn't done.
    pub is_idle: bool,
}

impl ReadableEnd {
    /// Its number, if it is of the type that is wanted, and idle.
    pub(crate) fn if_idle(self, is_of_type: bool) -> Result<u32, Refusal>
        ensures { result ≡ end_of is_of_type self }
    {
        if !is_of_type {
            return Err(Refusal::OtherType);
        }
        if self.is_idle {
            Ok(self.number)
        } else {
            Err(Refusal::NotIdle)
        }
    }
}
