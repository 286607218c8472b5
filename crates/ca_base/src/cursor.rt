//! A cursor over the whole of some bytes.

ghost use Rattle.std.specs.Prelude.{◌≡◌};
ghost use Rattle.ca_base.specs.declared.cursor.ByteWhy.TheVariants.{Truncated};

use crate::reason::NumberReason;
use crate::refusal::Refusal;
use crate::window::Window;
use thiserror::Error;

/// Why a read of a cursor is refused.
#[derive(Clone, Copy, Debug, Error)]
pub enum ByteWhy {
    /// It passes the end of the bytes.
    #[error("the bytes end too early")]
    Truncated,
    /// A number has too many bytes, or sets bits that it has not (Core 2.0, section 5.2.2).
    #[error("a number has too many bytes or bits")]
    TooLong,
    /// A name is not UTF-8.
    #[error("a name is not UTF-8")]
    BadUtf8,
}

impl NumberReason for ByteWhy {
    ghost use Rattle.ca_base.specs.declared.cursor.ByteWhy.TheVariants.{TooLong, BadUtf8};

    ghost numbers = { record { leb = TooLong; utf8 = BadUtf8 } };

    fn leb() -> Self {
        ByteWhy::TooLong
    }

    fn utf8() -> Self {
        ByteWhy::BadUtf8
    }
}

/// A read of a cursor that is refused.
pub type ByteFault = Refusal<ByteWhy>;

/// Bytes that are read one after the other.
pub type Cursor<'a> = Window<'a, ByteWhy>;

impl<'a> Window<'a, ByteWhy> {
    /// A cursor at the first of the bytes.
    pub fn new(bytes: &'a [u8]) -> Self
        ensures { result ≡ record { bytes = bytes.now; at = 0; past = Truncated } }
    {
        Window::of(bytes, 0, ByteWhy::Truncated)
    }
}
