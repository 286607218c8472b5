//! The reasons of the tests.

use ca_base::{NumberReason, Reason};

/// Why bytes are refused.
#[derive(Clone, Copy, Debug)]
pub enum Why {
    /// An item passes the end of a window.
    Past,
    /// An item passes the end of its section, or does not fill it.
    Size,
    /// Other bytes than the given ones.
    Magic,
    /// A byte that no number has in its place.
    Leb,
    /// A name that is not UTF-8.
    Utf8,
    /// A byte that no rule has in its place.
    Unsupported(u8),
}

impl NumberReason for Why {
    ghost use Rattle.base_tests.specs.declared.why.Why.TheVariants.{Leb, Utf8};

    ghost numbers = { record { leb = Leb; utf8 = Utf8 } };

    fn leb() -> Why {
        Why::Leb
    }

    fn utf8() -> Why {
        Why::Utf8
    }
}

impl Reason for Why {
    ghost use Rattle.base_tests.specs.declared.why.Why.TheVariants.{Size, Unsupported};

    ghost reasons = { record { unsupported = λ byte. Unsupported byte; section_size = Size } };

    fn unsupported(byte: u8) -> Why {
        Why::Unsupported(byte)
    }

    fn section_size() -> Why {
        Why::Size
    }
}
