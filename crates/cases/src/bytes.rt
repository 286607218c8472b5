//! Bytes as hexadecimal text.

ghost use Rattle.std.specs.Prelude.{◌≡◌, ◌⊎◌, filter, Ok, Err, IfOk, IfErr};
ghost use Rattle.hex.specs.declared.error.FromHexError.TheVariants.{OutOfMemory};
ghost use Rattle.hex.specs.Hex.{decode_of, is_hex_digit};

use hex::FromHexError;
use std::alloc::Global;
use std::test::Fail;

/// The bytes of hexadecimal text, two digits each. All between the digits is left out.
///
/// `OddLength` comes where the last digit stands alone, and `OutOfMemory` where memory runs out.
pub fn bytes_of(alloc: Global, text: &str) -> Result<Vec<u8>, FromHexError>
    ensures ok { IfOk result (λ bytes. decode_of (filter is_hex_digit text.now) ≡ Ok bytes.items) }
    ensures err { IfErr result (λ e. (e ≡ OutOfMemory) ⊎ (decode_of (filter is_hex_digit text.now) ≡ Err e)) }
{
    let letters = text.as_bytes();
    let digits: Vec<u8> = letters
        .iter()
        .copied()
        .filter(|letter| is_digit(*letter))
        .collect(alloc)?;
    hex::decode(alloc, digits)
}

/// Whether a letter is a hexadecimal digit.
fn is_digit(letter: u8) -> bool
    ensures { result ≡ is_hex_digit letter }
{
    (b'A' <= letter && letter <= b'F')
        || (b'a' <= letter && letter <= b'f')
        || (b'0' <= letter && letter <= b'9')
}

/// The bytes of lines of hexadecimal text. What stands behind a `;` in a line is left out.
pub fn bytes_of_lines(alloc: Global, text: &str) -> Result<Vec<u8>, Fail> {
    let mut bytes = Vec::new(alloc);
    for line in text.lines() {
        let (code, _remark) = line.split_once(';').unwrap_or((line, ""));
        let part = bytes_of(alloc, code)?;
        bytes.extend_from_slice(&part)?;
    }
    Ok(bytes)
}
