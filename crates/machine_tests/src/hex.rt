//! Hexadecimal numbers, and the words of lines.

/// The number of a digit.
fn digit(letter: u8) -> u64 {
    match letter {
        b'0'..=b'9' => u64::from(letter - b'0'),
        b'a'..=b'f' => u64::from(letter - b'a') + 10,
        _ => 0,
    }
}

/// The number of a text of hexadecimal digits, modulo 2^64.
pub(crate) fn hex(text: &str) -> u64 {
    let mut number = 0u64;
    for letter in text.bytes() {
        number = number.wrapping_mul(16).wrapping_add(digit(letter));
    }
    number
}

/// The number of a text of hexadecimal digits, modulo 2^32.
pub(crate) fn hex32(text: &str) -> u32 {
    (hex(text) % 0x1_0000_0000) as u32
}

/// The number of a text of hexadecimal digits, modulo 2^8.
pub(crate) fn hex8(text: &str) -> u8 {
    (hex(text) % 256) as u8
}

/// A text up to its first space, and what stands behind it.
pub(crate) fn split(text: &str) -> (&str, &str) {
    text.split_once(' ').unwrap_or((text, ""))
}
