//! Quotients and remainders (Core 2.0, section 4.3.2).

ghost use Rattle.std.specs.Prelude.{◌≡◌};
ghost use Rattle.std.specs.Int.{w32, w64};
ghost use Rattle.wasm_numbers.specs.Numeric.{div_s, div_u, rem_s, rem_u};

use crate::trap::NumberTrap;

/// The quotient of two i32, as signed ones.
pub(crate) fn i32_div_s(a: u32, b: u32) -> Result<u32, NumberTrap>
    ensures { result ≡ div_s w32 a b }
{
    if b == 0 {
        return Err(NumberTrap::DivideByZero);
    }
    if a == 0x8000_0000 && b == 0xFFFF_FFFF {
        return Err(NumberTrap::DivideOverflow);
    }
    Ok((a.cast_signed() / b.cast_signed()).cast_unsigned())
}

/// The quotient of two i32.
pub(crate) fn i32_div_u(a: u32, b: u32) -> Result<u32, NumberTrap>
    ensures { result ≡ div_u a b }
{
    if b == 0 {
        return Err(NumberTrap::DivideByZero);
    }
    Ok(a / b)
}

/// The remainder of two i32, as signed ones.
pub(crate) fn i32_rem_s(a: u32, b: u32) -> Result<u32, NumberTrap>
    ensures { result ≡ rem_s w32 a b }
{
    if b == 0 {
        return Err(NumberTrap::DivideByZero);
    }
    Ok(
        a.cast_signed()
            .wrapping_rem(b.cast_signed())
            .cast_unsigned(),
    )
}

/// The remainder of two i32.
pub(crate) fn i32_rem_u(a: u32, b: u32) -> Result<u32, NumberTrap>
    ensures { result ≡ rem_u a b }
{
    if b == 0 {
        return Err(NumberTrap::DivideByZero);
    }
    Ok(a % b)
}

/// The quotient of two i64, as signed ones.
pub(crate) fn i64_div_s(a: u64, b: u64) -> Result<u64, NumberTrap>
    ensures { result ≡ div_s w64 a b }
{
    if b == 0 {
        return Err(NumberTrap::DivideByZero);
    }
    if a == 0x8000_0000_0000_0000 && b == 0xFFFF_FFFF_FFFF_FFFF {
        return Err(NumberTrap::DivideOverflow);
    }
    Ok((a.cast_signed() / b.cast_signed()).cast_unsigned())
}

/// The quotient of two i64.
pub(crate) fn i64_div_u(a: u64, b: u64) -> Result<u64, NumberTrap>
    ensures { result ≡ div_u a b }
{
    if b == 0 {
        return Err(NumberTrap::DivideByZero);
    }
    Ok(a / b)
}

/// The remainder of two i64, as signed ones.
pub(crate) fn i64_rem_s(a: u64, b: u64) -> Result<u64, NumberTrap>
    ensures { result ≡ rem_s w64 a b }
{
    if b == 0 {
        return Err(NumberTrap::DivideByZero);
    }
    Ok(
        a.cast_signed()
            .wrapping_rem(b.cast_signed())
            .cast_unsigned(),
    )
}

/// The remainder of two i64.
pub(crate) fn i64_rem_u(a: u64, b: u64) -> Result<u64, NumberTrap>
    ensures { result ≡ rem_u a b }
{
    if b == 0 {
        return Err(NumberTrap::DivideByZero);
    }
    Ok(a % b)
}
