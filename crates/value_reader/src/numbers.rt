//! Numbers.

ghost use Rattle.std.specs.Prelude.{◌≡◌, ◌<◌, ◌≤◌, ◌^◌, ◌≤ℤ◌, pos, negsuc, IfOk};
ghost use Rattle.syntax_trees.specs.declared.value.Value.TheVariants as value;
ghost use Rattle.value_reader.specs.Tokens as tokens;
ghost use Rattle.value_reader.specs.Reads.{Reads};
ghost use Rattle.value_reader.specs.Values as values;

use crate::fault::NoText;
use crate::text::{Text, digit_value};
use syntax_trees::Value;

/// The number of these digits in a base, where it is not above this one.
#[tactic(auto, using(crate::proofs::Digits::grows, crate::proofs::Digits::step))]
pub fn number_up_to(base: u64, most: u64, digits: &[u8]) -> Option<u64>
    requires { 1 ≤ base }
    ensures { result ≡ tokens.number_up_to base most digits.now }
{
    let mut number: u64 = 0;
    for digit in digits {
        let longer = number.checked_mul(base)?.checked_add(digit_value(*digit))?;
        if longer > most {
            return None;
        }
        number = longer;
    }
    Some(number)
}

/// Reads a number that is not above this one.
pub fn unsigned_at(most: u64, text: &mut Text<'_>) -> Result<u64, NoText>
    ensures reads { Reads (tokens.unsigned_at most text.old) text.new result }
    ensures bound { IfOk result (λ n. n ≤ most) }
{
    let digits = text.digits(10);
    if digits.is_empty() {
        return Err(NoText);
    }
    number_up_to(10, most, digits).ok_or(NoText)
}

/// Reads a signed number that is not above this one, and where it is below 0 at most by one more below it.
pub fn signed_at(most: u64, text: &mut Text<'_>) -> Result<i64, NoText>
    requires { most < 2 ^ 63 }
    ensures reads { Reads (tokens.signed_at most text.old) text.new result }
    ensures low { IfOk result (λ n. negsuc most ≤ℤ n) }
    ensures high { IfOk result (λ n. n ≤ℤ pos most) }
{
    if !text.has_word(b"-") {
        let number = unsigned_at(most, text)?;
        return Ok(number as i64);
    }
    let number = unsigned_at(most + 1, text)?;
    if number == 0 {
        return Err(NoText);
    }
    let behind = (number - 1) as i64;
    Ok(-1 - behind)
}

/// Reads a signed 8-bit integer.
pub fn s8_at(text: &mut Text<'_>) -> Result<Value, NoText>
    ensures { Reads (values.s8_at text.old) text.new result }
{
    Ok(Value::S8(signed_at(0x7f, text)? as i8))
}

/// Reads an unsigned 8-bit integer.
pub fn u8_at(text: &mut Text<'_>) -> Result<Value, NoText>
    ensures { Reads (values.u8_at text.old) text.new result }
{
    Ok(Value::U8(unsigned_at(0xff, text)? as u8))
}

/// Reads a signed 16-bit integer.
pub fn s16_at(text: &mut Text<'_>) -> Result<Value, NoText>
    ensures { Reads (values.s16_at text.old) text.new result }
{
    Ok(Value::S16(signed_at(0x7fff, text)? as i16))
}

/// Reads an unsigned 16-bit integer.
pub fn u16_at(text: &mut Text<'_>) -> Result<Value, NoText>
    ensures { Reads (values.u16_at text.old) text.new result }
{
    Ok(Value::U16(unsigned_at(0xffff, text)? as u16))
}

/// Reads a signed 32-bit integer.
pub fn s32_at(text: &mut Text<'_>) -> Result<Value, NoText>
    ensures { Reads (values.s32_at text.old) text.new result }
{
    Ok(Value::S32(signed_at(0x7fff_ffff, text)? as i32))
}

/// Reads an unsigned 32-bit integer.
pub fn u32_at(text: &mut Text<'_>) -> Result<Value, NoText>
    ensures { Reads (values.u32_at text.old) text.new result }
{
    Ok(Value::U32(unsigned_at(0xffff_ffff, text)? as u32))
}

/// Reads a signed 64-bit integer.
pub fn s64_at(text: &mut Text<'_>) -> Result<Value, NoText>
    ensures { Reads (values.s64_at text.old) text.new result }
{
    Ok(Value::S64(signed_at(0x7fff_ffff_ffff_ffff, text)?))
}

/// Reads an unsigned 64-bit integer.
pub fn u64_at(text: &mut Text<'_>) -> Result<Value, NoText>
    ensures { Reads (values.u64_at text.old) text.new result }
{
    Ok(Value::U64(unsigned_at(0xffff_ffff_ffff_ffff, text)?))
}
