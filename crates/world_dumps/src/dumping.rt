//! The text of what a run leaves.

ghost use Rattle.std.specs.Prelude.{◌≡◌, IfOk, map};
ghost use Rattle.world_parts.specs.Held.{held};
ghost use Rattle.world_dumps.specs.Tables.{dump_of};

use crate::tables::tables_shown;
use faults::Memory;
use std::alloc::Global;
use syntax_trees::{Bytes, Seq};
use trace_labels::Dump;
use wasm_store::Store;
use world_parts::Parts;

/// The bytes of each memory of a store, which are lent.
#[tactic(auto, using(crate::proofs::Lent::one_more_lent))]
fn memories_of(alloc: Global, store: &Store) -> Result<Seq<&[u8]>, Memory>
    ensures { IfOk result (λ lent. map (λ m. m.now) lent ≡ map (λ m. m.bytes) store.now.memories) }
{
    let mut lent = Seq::new(alloc);
    for address in 0..store.memory_count() {
        lent.push(store.memory(address))?;
    }
    Ok(lent)
}

/// The text of what is kept when a run has ended: for each component instance that has begun the live entries of its table, by their indices, and
/// each memory. It fails for want of memory alone.
pub fn dump_text(alloc: Global, parts: &Parts) -> Result<Bytes, Memory>
    ensures { IfOk result (λ text. text ≡ dump_of (held parts.now)) }
{
    let dump = Dump {
        instances: tables_shown(alloc, parts)?,
        memories: memories_of(alloc, &parts.store)?,
    };
    trace_show::dump_text(alloc, &dump)
}
