//! Reasons for which bytes are refused.

ghost use Rattle.std.specs.Prelude.{◌≡◌};
ghost use Rattle.ca_base.specs.Items.{NumberReasons, Reasons};

/// A type of reasons that has those of numbers and names.
pub trait NumberReason: Copy {
    /// The reasons of numbers and names.
    ghost numbers: { NumberReasons Self };

    /// The reason for a byte that no number has in its place (Core 2.0, section 5.2.2).
    fn leb() -> Self
        ensures { result ≡ numbers.leb };

    /// The reason for a name that is not UTF-8 (Core 2.0, section 5.2.4).
    fn utf8() -> Self
        ensures { result ≡ numbers.utf8 };
}

/// A type of reasons that has those of the shared items.
pub trait Reason: NumberReason {
    /// The reasons of the shared items.
    ghost reasons: { Reasons Self };

    /// The reason for a byte that no rule has in its place.
    fn unsupported(byte: u8) -> Self
        ensures { result ≡ reasons.unsupported byte };

    /// The reason for an item that passes the end of its section, and for bytes that are left before that end.
    fn section_size() -> Self
        ensures { result ≡ reasons.section_size };
}
