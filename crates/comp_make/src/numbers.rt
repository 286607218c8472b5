//! Numbers in LEB128 (Core 2.0, section 5.2.2), in as few bytes as they need.

ghost use Rattle.std.specs.Prelude.{◌≡◌, ◌<◌, ◌++◌, ℤ, OnOk};
ghost use Rattle.comp_make.specs.Numbers.{unsigned_bytes, signed_bytes, signed_in, low_bits};

use faults::Memory;
use std::alloc::Global;
use value_texts::Text;

/// How many bytes a number of 64 bits has at most.
const MOST_BYTES: u32 = 10;

/// Appends a number that is not signed.
pub(crate) fn push_unsigned(number: u64, to: &mut Vec<u8>) -> Result<(), Memory>
    ensures { OnOk result (to.new.items ≡ to.old.items ++ unsigned_bytes number) }
{
    let mut rest = number;
    for _index in 0..MOST_BYTES {
        if rest < 128 {
            to.push(rest as u8)?;
            return Ok(());
        }
        to.push((128 + rest % 128) as u8)?;
        rest /= 128;
    }
    Ok(())
}

/// The lowest seven bits of a number, or of its complement, which is negative.
fn low_bits(negative: bool, number: u64) -> u8
    ensures value { result ≡ low_bits negative number }
    ensures bound { result < 128 }
{
    let low = (number % 128) as u8;
    if negative { 127 - low } else { low }
}

/// Appends a number as one that is not negative, or its complement, which is.
fn push_with_sign(negative: bool, number: u64, to: &mut Vec<u8>) -> Result<(), Memory>
    ensures { OnOk result (to.new.items ≡ to.old.items ++ signed_in negative 10 number) }
{
    let mut rest = number;
    for _index in 0..MOST_BYTES {
        let low = low_bits(negative, rest);
        if rest < 64 {
            to.push(low)?;
            return Ok(());
        }
        to.push(128 + low)?;
        rest /= 128;
    }
    Ok(())
}

/// Appends a signed number.
#[tactic(auto, using(crate::proofs::Leb::signed_natural, crate::proofs::Leb::signed_negative))]
pub(crate) fn push_signed(number: i64, to: &mut Vec<u8>) -> Result<(), Memory>
    ensures { OnOk result (to.new.items ≡ to.old.items ++ signed_bytes number) }
{
    let size = number.unsigned_abs();
    if number < 0 {
        push_with_sign(true, size - 1, to)
    } else {
        push_with_sign(false, size, to)
    }
}

/// Indices, which are not signed.
pub(crate) struct Indices;

impl Text for Indices {
    ghost use Rattle.comp_make.specs.Numbers.{unsigned_bytes};

    type Item = u32;

    ghost text = { unsigned_bytes };

    fn push(_alloc: Global, item: &u32, to: &mut Vec<u8>) -> Result<(), Memory> {
        push_unsigned(u64::from(*item), to)
    }
}
