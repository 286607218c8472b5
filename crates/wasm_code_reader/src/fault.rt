//! Why modules are refused.

ghost use Rattle.std.specs.Prelude.{◌≡◌};
ghost use Rattle.wasm_code_reader.specs.Reasons.{byte_why};

use ca_base::{NumberReason, Reason, Refusal};
use thiserror::Error;

/// Why the bytes of a module are refused (Core 2.0, section 5).
#[derive(Clone, Copy, Debug, Error)]
pub enum ModuleWhy {
    /// The module ends within an item. The place is the module's end.
    #[error("the module ends within an item")]
    Truncated,
    /// A number has too many bytes, or sets bits that it has not. The place is that byte.
    #[error("a number has too many bytes, or sets bits that it has not")]
    Leb,
    /// A byte of the first eight is not that of the preamble of a core module.
    #[error("the first eight bytes are not the preamble of a core module")]
    Magic,
    /// A section stands behind one that it has to stand before, or stands twice. The place is its id.
    #[error("a section stands twice, or behind one that it has to stand before")]
    SectionOrder,
    /// An item passes the end of its section or body (the place is that end), or bytes are left before that end (the
    /// place is the first of them).
    #[error("an item passes the end of its section or body, or bytes are left before that end")]
    SectionSize,
    /// A name is not UTF-8. The place is the first byte behind its longest front that is.
    #[error("a name is not UTF-8")]
    Utf8,
    /// A type or an instruction of floats, which are not read.
    #[error("types and instructions of floats are not read")]
    Float,
    /// No rule has this byte in its place.
    #[error("no rule has the byte {0:#04x} in this place")]
    Unsupported(u8),
    /// There are more or fewer bodies than functions, or data segments than the data count says. The place is the number
    /// of bodies or of segments, or the module's end where no section has them.
    #[error("the bodies are not as many as the functions, or the data segments not as many as the data count")]
    Count,
    /// A memory has more than 1,024 pages or a table more than 65,536 entries from the start, or a function declares more
    /// than 50,000 locals. The place is the number with which there are too many.
    #[error("there are more pages, table entries or locals than a module may have")]
    Limit,
}

impl NumberReason for ModuleWhy {
    ghost use Rattle.wasm_code_reader.specs.Reasons.{numbers};

    ghost numbers = { numbers };

    fn leb() -> Self {
        ModuleWhy::Leb
    }

    fn utf8() -> Self {
        ModuleWhy::Utf8
    }
}

impl Reason for ModuleWhy {
    ghost use Rattle.wasm_code_reader.specs.Reasons.{reasons};

    ghost reasons = { reasons };

    fn unsupported(byte: u8) -> Self {
        ModuleWhy::Unsupported(byte)
    }

    fn section_size() -> Self {
        ModuleWhy::SectionSize
    }
}

/// The refusal of a byte at a place: it is a type or an opcode of floats, or has no rule there.
pub fn refused_byte(of_floats: bool, place: usize, byte: u8) -> Refusal<ModuleWhy>
    ensures { result ≡ record { place = place; why = byte_why of_floats byte } }
{
    let why = if of_floats {
        ModuleWhy::Float
    } else {
        ModuleWhy::Unsupported(byte)
    };
    Refusal { place, why }
}
