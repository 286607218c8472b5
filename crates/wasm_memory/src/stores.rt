//! Stores (Core 2.0, section 4.4.7).

ghost use Rattle.std.specs.Prelude.{◌≡◌, length};
ghost use Rattle.wasm_memory.specs.Bytes.{is_inside, put};
ghost use Rattle.wasm_memory.specs.Stores.{stored_bytes};

use crate::bulk::put;
use syntax_trees::StoreOp;

/// Stores a value from a place on, where its bytes are all inside, and answers whether they are.
pub(crate) fn store(memory: &mut [u8], op: StoreOp, at: u64, value: u64) -> bool
    ensures inside { result ≡ is_inside at (length (stored_bytes op value)) memory.old }
    ensures after { memory.new ≡ put at (stored_bytes op value) memory.old }
{
    match op {
        StoreOp::I64Store => put(memory, at, &value.to_le_bytes()),
        StoreOp::I32Store | StoreOp::I64Store32 => {
            put(memory, at, &((value % 0x1_0000_0000) as u32).to_le_bytes())
        }
        StoreOp::I32Store16 | StoreOp::I64Store16 => {
            put(memory, at, &((value % 65_536) as u16).to_le_bytes())
        }
        StoreOp::I32Store8 | StoreOp::I64Store8 => {
            put(memory, at, &((value % 256) as u8).to_le_bytes())
        }
    }
}
