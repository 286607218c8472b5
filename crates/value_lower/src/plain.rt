//! Values without parts, and numbers.

ghost use Rattle.std.specs.Prelude.{◌≡◌, ◌+◌, ◌≤◌, ◌%◌, ◌^◌, ℕ, List, length};
ghost use Rattle.std.specs.Int.{w32, byte_len, to_le_bytes};
ghost use Rattle.syntax_trees.specs.declared.types.ValType.{ValType};
ghost use Rattle.syntax_trees.specs.declared.value.Value.{out-Value};
ghost use Rattle.value_lower.specs.Plan.{Plan, Put};
ghost use Rattle.value_lower.specs.Following.{Leads, rooms_of};
ghost use Rattle.value_lower.specs.Storing.{number_bytes, width_of, bits_of, flags_number, plain_bytes, plain_word, pointed};
ghost use Rattle.value_lower.specs.Fitting.{HasBytes};

use crate::beside::Beside;
use syntax_trees::Value;

/// Puts bytes at a place.
pub(crate) fn put<R, B: Beside<R>>(room: &mut R, beside: &B, place: u64, bytes: &[u8])
    requires some { 1 ≤ length bytes.now }
    requires bytes { HasBytes place (length bytes.now) (length (B.memory (B.state room.old beside.now))) }
    ensures leads { (task : ℕ) (types : List ValType) (k : Plan) → Leads (rooms_of B.memory B.answers B.wrote (B.adds task types)) (Put place bytes.now k) (B.state room.old beside.now) k (B.state room.new beside.now) }
    ensures size { length (B.memory (B.state room.new beside.now)) ≡ length (B.memory (B.state room.old beside.now)) }
{
    beside.put(room, place as u32, bytes);
}

/// Puts a number of 1, 2 or 4 bytes at a place: the lowest of its bytes.
pub(crate) fn put_number<R, B: Beside<R>>(
    room: &mut R,
    beside: &B,
    place: u64,
    size: u32,
    number: u32,
)
    requires { HasBytes place (byte_len (width_of size)) (length (B.memory (B.state room.old beside.now))) }
    ensures leads { (task : ℕ) (types : List ValType) (k : Plan) → Leads (rooms_of B.memory B.answers B.wrote (B.adds task types)) (Put place (number_bytes size number) k) (B.state room.old beside.now) k (B.state room.new beside.now) }
    ensures size { length (B.memory (B.state room.new beside.now)) ≡ length (B.memory (B.state room.old beside.now)) }
{
    if size <= 1 {
        put(room, beside, place, &((number % 256) as u8).to_le_bytes());
    } else if size <= 2 {
        let low = (number % 65_536) as u16;
        put(room, beside, place, &low.to_le_bytes());
    } else {
        put(room, beside, place, &number.to_le_bytes());
    }
}

/// Puts a number of 4 bytes at a place.
pub(crate) fn put32<R, B: Beside<R>>(room: &mut R, beside: &B, place: u64, number: u32)
    requires { HasBytes place 4 (length (B.memory (B.state room.old beside.now))) }
    ensures leads { (task : ℕ) (types : List ValType) (k : Plan) → Leads (rooms_of B.memory B.answers B.wrote (B.adds task types)) (Put place (to_le_bytes w32 number) k) (B.state room.old beside.now) k (B.state room.new beside.now) }
    ensures size { length (B.memory (B.state room.new beside.now)) ≡ length (B.memory (B.state room.old beside.now)) }
{
    put(room, beside, place, &number.to_le_bytes());
}

/// Puts a place and a number of bytes or elements at a place.
pub(crate) fn put_pointed<R, B: Beside<R>>(
    room: &mut R,
    beside: &B,
    place: u64,
    to: u32,
    count: u32,
)
    requires { HasBytes place 8 (length (B.memory (B.state room.old beside.now))) }
    ensures leads { (task : ℕ) (types : List ValType) (k : Plan) → Leads (rooms_of B.memory B.answers B.wrote (B.adds task types)) (pointed place to count k) (B.state room.old beside.now) k (B.state room.new beside.now) }
    ensures size { length (B.memory (B.state room.new beside.now)) ≡ length (B.memory (B.state room.old beside.now)) }
{
    put32(room, beside, place, to);
    put32(room, beside, place + 4, count);
}

/// Puts a value without parts at a place. Of any other value nothing is put.
pub(crate) fn put_plain<R, B: Beside<R>>(room: &mut R, beside: &B, place: u64, value: &Value)
    requires some { 1 ≤ length (plain_bytes (out-Value value.now)) }
    requires bytes { HasBytes place (length (plain_bytes (out-Value value.now))) (length (B.memory (B.state room.old beside.now))) }
    ensures leads { (task : ℕ) (types : List ValType) (k : Plan) → Leads (rooms_of B.memory B.answers B.wrote (B.adds task types)) (Put place (plain_bytes (out-Value value.now)) k) (B.state room.old beside.now) k (B.state room.new beside.now) }
    ensures size { length (B.memory (B.state room.new beside.now)) ≡ length (B.memory (B.state room.old beside.now)) }
{
    match value {
        Value::Bool(value) => put(room, beside, place, &[u8::from(*value)]),
        Value::S8(n) => put(room, beside, place, &n.cast_unsigned().to_le_bytes()),
        Value::U8(n) => put(room, beside, place, &n.to_le_bytes()),
        Value::S16(n) => put(room, beside, place, &n.cast_unsigned().to_le_bytes()),
        Value::U16(n) => put(room, beside, place, &n.to_le_bytes()),
        Value::S32(n) => put(room, beside, place, &n.cast_unsigned().to_le_bytes()),
        Value::U32(n) => put(room, beside, place, &n.to_le_bytes()),
        Value::S64(n) => put(room, beside, place, &n.cast_unsigned().to_le_bytes()),
        Value::U64(n) => put(room, beside, place, &n.to_le_bytes()),
        Value::Char(c) => put(room, beside, place, &u32::from(*c).to_le_bytes()),
        Value::Own(handle) => put(room, beside, place, &handle.rep.to_le_bytes()),
        Value::Borrow(handle) => put(room, beside, place, &handle.rep.to_le_bytes()),
        Value::Stream(number) => put(room, beside, place, &number.to_le_bytes()),
        Value::Future(number) => put(room, beside, place, &number.to_le_bytes()),
        _ => {}
    }
}

/// A value without parts as a core value, 0 for any other.
pub(crate) fn plain_word(value: &Value) -> u64
    ensures { result ≡ plain_word (out-Value value.now) }
{
    match value {
        Value::Bool(value) => u64::from(*value),
        Value::S8(n) => u64::from(i32::from(*n).cast_unsigned()),
        Value::U8(n) => u64::from(*n),
        Value::S16(n) => u64::from(i32::from(*n).cast_unsigned()),
        Value::U16(n) => u64::from(*n),
        Value::S32(n) => u64::from(n.cast_unsigned()),
        Value::U32(n) => u64::from(*n),
        Value::S64(n) => n.cast_unsigned(),
        Value::U64(n) => *n,
        Value::Char(c) => u64::from(u32::from(*c)),
        Value::Own(handle) => u64::from(handle.rep),
        Value::Borrow(handle) => u64::from(handle.rep),
        Value::Stream(number) => u64::from(*number),
        Value::Future(number) => u64::from(*number),
        _ => 0,
    }
}

/// The number whose bits are flags, the first one the lowest.
#[tactic(auto, using(crate::proofs::Flags::none_seen, crate::proofs::Flags::one_seen))]
pub(crate) fn flags_number(flags: &[bool]) -> u32
    ensures { result ≡ flags_number flags.now }
{
    let mut number: u32 = 0;
    for index in 0..flags.len() {
        let flag = flags[flags.len() - 1 - index];
        number = ((u64::from(flag) + 2 * u64::from(number)) % (1 << 32)) as u32;
    }
    number
}
