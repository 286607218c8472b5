//! Numbers and bytes of a memory.

ghost use Rattle.std.specs.Prelude.{◌≡◌, ◌+◌, ◌≤◌, length};
ghost use Rattle.std.specs.Int.{w8, w16, w32, w64, byte_len};
ghost use Rattle.value_lift.specs.Bytes.{number, width_of, is_inside, bytes_at};

/// Whether so many bytes from a place on are inside.
pub(crate) fn is_inside(memory: &[u8], place: u32, count: u128) -> bool
    ensures { result ≡ is_inside place count memory.now }
{
    let len = memory.len() as u128;
    count <= len && u128::from(place) <= len - count
}

/// So many bytes from a place on.
#[tactic(auto, using(crate::proofs::Places::bytes_between))]
pub(crate) fn bytes_at(memory: &[u8], place: usize, count: usize) -> &[u8]
    requires { place + count ≤ length memory.now }
    ensures { result.now ≡ bytes_at place count memory.now }
{
    &memory[place..place + count]
}

/// The number that the byte at a place is.
#[inline]
pub(crate) fn number8(memory: &[u8], place: usize) -> u8
    requires { place + 1 ≤ length memory.now }
    ensures { result ≡ number w8 place memory.now }
{
    u8::from_le_bytes([memory[place]])
}

/// The number that two bytes from a place on are.
#[inline]
pub(crate) fn number16(memory: &[u8], place: usize) -> u16
    requires { place + 2 ≤ length memory.now }
    ensures { result ≡ number w16 place memory.now }
{
    u16::from_le_bytes([memory[place], memory[place + 1]])
}

/// The number that four bytes from a place on are.
#[inline]
pub(crate) fn number32(memory: &[u8], place: usize) -> u32
    requires { place + 4 ≤ length memory.now }
    ensures { result ≡ number w32 place memory.now }
{
    u32::from_le_bytes([
        memory[place],
        memory[place + 1],
        memory[place + 2],
        memory[place + 3],
    ])
}

/// The number that eight bytes from a place on are.
#[inline]
pub(crate) fn number64(memory: &[u8], place: usize) -> u64
    requires { place + 8 ≤ length memory.now }
    ensures { result ≡ number w64 place memory.now }
{
    u64::from_le_bytes([
        memory[place],
        memory[place + 1],
        memory[place + 2],
        memory[place + 3],
        memory[place + 4],
        memory[place + 5],
        memory[place + 6],
        memory[place + 7],
    ])
}

/// The number that so many bytes from a place on are: 1, 2 or 4.
pub(crate) fn number_of(memory: &[u8], place: usize, size: u32) -> u32
    requires { place + byte_len (width_of size) ≤ length memory.now }
    ensures { result ≡ number (width_of size) place memory.now }
{
    if size <= 1 {
        u32::from(number8(memory, place))
    } else if size <= 2 {
        u32::from(number16(memory, place))
    } else {
        number32(memory, place)
    }
}
