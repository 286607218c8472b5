//! Texts with escapes.

use std::alloc::{AllocError, Global};

/// How far an escape is read.
#[derive(Clone, Copy)]
enum Escape {
    Outside,
    Begun,
    Hexadecimal,
    Second(u8),
}

/// The value of a hexadecimal digit, and 0 for other bytes.
fn digit(byte: u8) -> u8 {
    match byte {
        b'0'..=b'9' => byte - b'0',
        b'A'..=b'F' => byte - b'A' + 10,
        _ => 0,
    }
}

/// The byte that stands behind the backslash of a short escape.
fn short_escape(byte: u8) -> u8 {
    match byte {
        b'n' => b'\n',
        b'r' => b'\r',
        b't' => b'\t',
        other => other,
    }
}

/// The bytes of a text with the escapes `\n`, `\r`, `\t` and `\xHH`.
pub(crate) fn bytes_of(alloc: Global, text: &str) -> Result<Vec<u8>, AllocError> {
    let mut bytes = Vec::new(alloc);
    let mut escape = Escape::Outside;
    for byte in text.as_bytes() {
        match escape {
            Escape::Outside => {
                if *byte == b'\\' {
                    escape = Escape::Begun;
                } else {
                    bytes.push(*byte)?;
                }
            }
            Escape::Begun => {
                if *byte == b'x' {
                    escape = Escape::Hexadecimal;
                } else {
                    bytes.push(short_escape(*byte))?;
                    escape = Escape::Outside;
                }
            }
            Escape::Hexadecimal => escape = Escape::Second(digit(*byte)),
            Escape::Second(sixteens) => {
                bytes.push(sixteens << 4 | digit(*byte))?;
                escape = Escape::Outside;
            }
        }
    }
    Ok(bytes)
}
