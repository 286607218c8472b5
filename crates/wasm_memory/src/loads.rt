//! Loads (Core 2.0, section 4.4.7).

ghost use Rattle.std.specs.Prelude.{◌≡◌, ◌<◌, ◌^◌, IfSome};
ghost use Rattle.std.specs.Int.{w8, w16, w32, w64};
ghost use mir.Val.{bits};
ghost use Rattle.wasm_memory.specs.Bytes.{number_at};
ghost use Rattle.wasm_memory.specs.Loads.{loaded, extended, result_width};

use crate::bounds::is_inside;
use syntax_trees::LoadOp;

/// The number that the byte at a place is.
#[inline]
fn number8(memory: &[u8], at: u64) -> Option<u8>
    ensures { result ≡ number_at w8 at memory.now }
{
    if !is_inside(memory, at, 1) {
        return None;
    }
    Some(u8::from_le_bytes([memory[at as usize]]))
}

/// The number that two bytes from a place on are.
#[inline]
fn number16(memory: &[u8], at: u64) -> Option<u16>
    ensures { result ≡ number_at w16 at memory.now }
{
    if !is_inside(memory, at, 2) {
        return None;
    }
    let at = at as usize;
    Some(u16::from_le_bytes([memory[at], memory[at + 1]]))
}

/// The number that four bytes from a place on are.
#[inline]
fn number32(memory: &[u8], at: u64) -> Option<u32>
    ensures { result ≡ number_at w32 at memory.now }
{
    if !is_inside(memory, at, 4) {
        return None;
    }
    let at = at as usize;
    Some(u32::from_le_bytes([memory[at], memory[at + 1], memory[at + 2], memory[at + 3]]))
}

/// The number that eight bytes from a place on are.
#[inline]
fn number64(memory: &[u8], at: u64) -> Option<u64>
    ensures { result ≡ number_at w64 at memory.now }
{
    if !is_inside(memory, at, 8) {
        return None;
    }
    let at = at as usize;
    Some(u64::from_le_bytes([
        memory[at],
        memory[at + 1],
        memory[at + 2],
        memory[at + 3],
        memory[at + 4],
        memory[at + 5],
        memory[at + 6],
        memory[at + 7],
    ]))
}

/// The i32 that is the same signed number.
#[inline]
fn i32_from_8(number: u8) -> u64
    ensures value { result ≡ extended w8 w32 number }
    ensures word { result < 2 ^ 32 }
{
    u64::from(i32::from(number.cast_signed()).cast_unsigned())
}

/// The i32 that is the same signed number.
#[inline]
fn i32_from_16(number: u16) -> u64
    ensures value { result ≡ extended w16 w32 number }
    ensures word { result < 2 ^ 32 }
{
    u64::from(i32::from(number.cast_signed()).cast_unsigned())
}

/// The i64 that is the same signed number.
#[inline]
fn i64_from_8(number: u8) -> u64
    ensures { result ≡ extended w8 w64 number }
{
    i64::from(number.cast_signed()).cast_unsigned()
}

/// The i64 that is the same signed number.
#[inline]
fn i64_from_16(number: u16) -> u64
    ensures { result ≡ extended w16 w64 number }
{
    i64::from(number.cast_signed()).cast_unsigned()
}

/// The i64 that is the same signed number.
#[inline]
fn i64_from_32(number: u32) -> u64
    ensures { result ≡ extended w32 w64 number }
{
    i64::from(number.cast_signed()).cast_unsigned()
}

/// What a load gives of the bytes from a place on, or `None` where they are not all inside.
pub(crate) fn load(memory: &[u8], op: LoadOp, at: u64) -> Option<u64>
    ensures value { result ≡ loaded op at memory.now }
    ensures word { IfSome result (λ value. value < 2 ^ bits (result_width op)) }
{
    match op {
        LoadOp::I32Load | LoadOp::I64Load32U => Some(u64::from(number32(memory, at)?)),
        LoadOp::I64Load => number64(memory, at),
        LoadOp::I32Load8S => Some(i32_from_8(number8(memory, at)?)),
        LoadOp::I32Load8U | LoadOp::I64Load8U => Some(u64::from(number8(memory, at)?)),
        LoadOp::I32Load16S => Some(i32_from_16(number16(memory, at)?)),
        LoadOp::I32Load16U | LoadOp::I64Load16U => Some(u64::from(number16(memory, at)?)),
        LoadOp::I64Load8S => Some(i64_from_8(number8(memory, at)?)),
        LoadOp::I64Load16S => Some(i64_from_16(number16(memory, at)?)),
        LoadOp::I64Load32S => Some(i64_from_32(number32(memory, at)?)),
    }
}
