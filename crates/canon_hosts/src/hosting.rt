//! The store that has the core functions of the Canonical ABI.

ghost use Rattle.std.specs.Prelude.{◌≡◌, map, IfOk};
ghost use Rattle.wasm_store.specs.Instantiation.{empty};
ghost use Rattle.wasm_store.specs.Store.{Host};
ghost use Rattle.canon_hosts.specs.Hosts.{first_store};

use crate::canon_types::canon_func_types;
use comp_graph::Graph;
use faults::Memory;
use std::alloc::Global;
use syntax_trees::module_types::FuncType;
use wasm_store::Store;

/// The store of a graph before anything is instantiated (Core 2.0, section 4.2.3): it has the core functions that the Canonical ABI makes, each
/// with its number as its address, and nothing else. It fails for want of memory alone.
#[tactic(auto, using(crate::proofs::First::hosts_are))]
pub fn first_store(alloc: Global, graph: &Graph<'_>) -> Result<Store, Memory>
    ensures { IfOk result (λ s. s ≡ first_store graph.now) }
{
    let types = canon_func_types(alloc, graph)?;
    hosts(alloc, types)
}

/// The store with functions of the host of these types, in order, and nothing else.
fn hosts(alloc: Global, func_types: Vec<FuncType>) -> Result<Store, Memory>
    ensures { IfOk result (λ s. s ≡ record empty { funcs = map Host func_types.items }) }
{
    let mut store = Store::new(alloc);
    for func_type in func_types {
        store.host(func_type)?;
    }
    Ok(store)
}
