//! Programs of graphs and scripts.

ghost use Rattle.std.specs.Prelude.{IfOk};
ghost use Rattle.program_maker.specs.Programs.{IsProgram};

use crate::calls::calls_of;
use crate::passed::{canon_numbers, export_numbers, value_numbers};
use crate::resources::resources_of;
use comp_graph::Graph;
use programs::Program;
use script_reader::Script;
use std::alloc::{AllocError, Global};

/// The program of a graph and a script that calls its exports. It fails for want of memory alone.
pub fn program_of<'g, 'a>(
    alloc: Global,
    graph: &'g Graph<'a>,
    script: &'g Script,
) -> Result<Program<'g, 'a>, AllocError>
    ensures { IfOk result (λ program. IsProgram graph.now script.now program) }
{
    let graph_types = graph.types();
    let types = &graph_types.types;
    let numbers = graph_types.canons.as_slice();
    let exports = graph.exports().as_slice();
    Ok(Program {
        graph,
        script,
        types: types.values(),
        exports: export_numbers(alloc, types, graph_types.exports.as_slice(), exports)?,
        canons: canon_numbers(alloc, types, graph.canons(), numbers)?,
        values: value_numbers(alloc, types, graph.canons(), numbers)?,
        ends: numbers,
        calls: calls_of(alloc, exports, script.items())?,
        resources: resources_of(alloc, graph.instance_count(), graph.resources())?,
    })
}
