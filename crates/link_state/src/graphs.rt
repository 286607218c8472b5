//! The graph of what is linked.

ghost use Rattle.std.specs.Prelude.{◌≡◌, ◌<◌, ◌≤◌, length, IfOk};
ghost use Rattle.comp_graph.specs.Graph.{instance_limit, core_instance_limit};
ghost use Rattle.comp_graph.specs.Passed.{AreCanonTypes, AreExportTypes};
ghost use Rattle.link_spec.specs.Spaces.{Linking};
ghost use Rattle.link_spec.specs.Linked as linked;
ghost use Rattle.link_state.specs.State as state;
ghost use Rattle.link_state.specs.State.{type_table, IsLive};

use crate::linker::{Linker, ROOT};
use comp_graph::{Graph, GraphTypes, graph_number};
use link_instances::{CallableFuncs, callables};
use std::alloc::{AllocError, Global};
use syntax_trees::Seq;

/// The functions of the graph of what is linked that can be called.
fn graph_funcs(alloc: Global, linker: &Linker<'_>) -> Result<CallableFuncs, AllocError>
    requires root { 0 < length linker.now.scopes.items }
    requires live { IsLive linker.now 0 }
    ensures exports { IfOk result (λ f. (l : Linking) → state.Stands linker.now l → f.exports.items ≡ (linked.graph_of l).exports) }
    ensures lifts { IfOk result (λ f. (l : Linking) → state.Stands linker.now l → f.lifts.items ≡ (linked.graph_of l).lifts) }
    ensures many { IfOk result (λ f. length f.lifts.items ≡ length f.exports.items) }
    ensures typed { IfOk result (λ f. AreExportTypes linker.now.types.funcs f.types.items f.exports.items) }
{
    let entries = linker.scope(ROOT).exports.entries();
    let funcs = callables(alloc, &linker.types, &linker.instances, entries)?;
    Ok(funcs)
}

/// The graph of what is linked.
pub fn graph_of<'a>(alloc: Global, linker: Linker<'a>) -> Result<Graph<'a>, AllocError>
    requires root { 0 < length linker.scopes.items }
    requires live { IsLive linker 0 }
    requires few { length linker.scopes.items ≤ instance_limit }
    requires few_cores { length linker.cores.makes ≤ core_instance_limit }
    requires typed { AreCanonTypes (type_table linker.types) linker.canon_types.items linker.canons.items }
    ensures { IfOk result (λ g. (l : Linking) → state.Stands linker.entry l → g ≡ linked.graph_of l) }
{
    let funcs = graph_funcs(alloc, &linker)?;
    let count = graph_number(linker.scopes.len())?;
    let types = GraphTypes {
        types: linker.types.into_func_types(),
        canons: Seq::from_vec(linker.canon_types),
        exports: Seq::from_vec(funcs.types),
        ends: Seq::from_vec(linker.end_types.into_numbers()),
    };
    Ok(Graph::new(
        Seq::from_vec(linker.plan),
        count,
        linker.cores.into_makes(),
        Seq::from_vec(linker.canons),
        Seq::from_vec(linker.resources),
        Seq::from_vec(funcs.exports),
        Seq::from_vec(funcs.lifts),
        types,
    ))
}
