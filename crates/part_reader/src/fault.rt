//! Why components are refused.

ghost use Rattle.std.specs.Prelude.{◌≡◌, ◌==◌, ◌||◌, if◌then◌else◌};
ghost use Rattle.part_reader.specs.declared.fault.ComponentWhy.TheVariants as why;

use ca_base::{NumberReason, Reason, Refusal};
use thiserror::Error;
use wasm_code_reader::ModuleWhy;
use wasm_typing::ValidWhy;

/// Why the bytes of a component are refused (Component Model, Binary.md).
#[derive(Clone, Copy, Debug, Error)]
pub enum ComponentWhy {
    /// The file ends within an item. The place is the file's end.
    #[error("the file ends within an item")]
    Truncated,
    /// A number has too many bytes, or sets bits that it has not. The place is that byte.
    #[error("a number has too many bytes, or sets bits that it has not")]
    Leb,
    /// A name is not UTF-8. The place is the first byte behind its longest front that is.
    #[error("a name is not UTF-8")]
    Utf8,
    /// A byte of the first eight is not that of the preamble of a component.
    #[error("the first eight bytes are not the preamble of a component")]
    Magic,
    /// An item passes the end of its section (the place is that end), or bytes are left before that end (the place is the
    /// first of them).
    #[error("an item passes the end of its section, or bytes are left before that end")]
    SectionSize,
    /// No rule has this byte in its place.
    #[error("no rule has the byte {0:#04x} in this place")]
    Unsupported(u8),
    /// A type of floats, which are not read.
    #[error("types of floats are not read")]
    Float,
    /// A component stands in 16 others, or an instance type in 16 others. The place is the first byte of either. The layer
    /// above answers it for a file that is longer than 16 MiB.
    #[error("a component or an instance type stands in 16 others, or the file is longer than 16 MiB")]
    Limit,
    /// A core module is refused where it stands.
    #[error("a core module does not follow the binary format")]
    Module(ModuleWhy),
    /// A core module is not valid. The place is that of its first fault.
    #[error("a core module is not valid")]
    Invalid(ValidWhy),
}

impl NumberReason for ComponentWhy {
    ghost use Rattle.part_reader.specs.Reasons.{numbers};

    ghost numbers = { numbers };

    fn leb() -> Self {
        ComponentWhy::Leb
    }

    fn utf8() -> Self {
        ComponentWhy::Utf8
    }
}

impl Reason for ComponentWhy {
    ghost use Rattle.part_reader.specs.Reasons.{reasons};

    ghost reasons = { reasons };

    fn unsupported(byte: u8) -> Self {
        ComponentWhy::Unsupported(byte)
    }

    fn section_size() -> Self {
        ComponentWhy::SectionSize
    }
}

/// The refusal of a byte that no rule has in its place.
pub fn unsupported(place: usize, byte: u8) -> Refusal<ComponentWhy>
    ensures { result ≡ record { place = place; why = why.Unsupported byte } }
{
    Refusal {
        place,
        why: ComponentWhy::Unsupported(byte),
    }
}

/// The refusal of a byte that begins no type that is read: it is one of floats, or has no rule.
pub(crate) fn refused_type(place: usize, byte: u8) -> Refusal<ComponentWhy>
    ensures { result ≡ record { place = place; why = if byte == 0x76 || byte == 0x75 then why.Float else why.Unsupported byte } }
{
    let why = if byte == 0x76 || byte == 0x75 {
        ComponentWhy::Float
    } else {
        ComponentWhy::Unsupported(byte)
    };
    Refusal { place, why }
}
