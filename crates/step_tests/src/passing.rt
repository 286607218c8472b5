//! What functions pass: all of them values of one type.

ghost use Rattle.std.specs.Prelude.{IfOk};
ghost use Rattle.laid_types.specs.SameTypes.{AreDistinct};

use comp_graph::Graph;
use graph_cases::NamedGraph;
use laid_types::LaidTypes;
use programs::{CallNumbers, FuncNumbers, Program};
use script_reader::{Script, read_script};
use std::alloc::{AllocError, Global};
use std::test::Fail;

/// A script with three calls of the graph's functions.
const SCRIPT: &str = "call run ()\ncall run ()\ncall run ()\n";

/// The script.
pub(crate) fn script(alloc: Global, graph: &Graph<'_>) -> Result<Script, Fail> {
    match read_script(alloc, SCRIPT.as_bytes(), graph.exports()) {
        Ok(script) => Ok(script),
        Err(_) => Err(Fail::new("no script")),
    }
}

/// What all functions of a graph pass that are called by canonical functions.
fn all_canons(
    alloc: Global,
    graph: &Graph<'_>,
    numbers: FuncNumbers,
) -> Result<Vec<Option<FuncNumbers>>, AllocError> {
    let mut canons = Vec::new(alloc);
    for _ in graph.canons() {
        canons.push(Some(numbers))?;
    }
    Ok(canons)
}

/// What all built-ins of a graph pass.
fn all_values(
    alloc: Global,
    graph: &Graph<'_>,
    number: Option<usize>,
) -> Result<Vec<Option<usize>>, AllocError> {
    let mut values = Vec::new(alloc);
    for _ in graph.canons() {
        values.push(number)?;
    }
    Ok(values)
}

/// The calls of the script.
fn calls(alloc: Global) -> Result<Vec<CallNumbers>, AllocError> {
    let mut calls = Vec::new(alloc);
    for item in 0..3 {
        calls.push(CallNumbers { item, export: 0 })?;
    }
    Ok(calls)
}

/// The program of a graph, a script and types, all of whose functions have arguments of the first type, and results of the other one, if there
/// is one.
pub(crate) fn program<'g>(
    alloc: Global,
    named: &'g NamedGraph,
    script: &'g Script,
    types: &'g LaidTypes,
    params: usize,
    returned: Option<usize>,
) -> Result<Program<'g, 'static>, Fail>
    requires { AreDistinct types.now }
    ensures { IfOk result (λ program. AreDistinct program.types.now) }
{
    let graph = &named.graph;
    let numbers = FuncNumbers { params, returned };
    let mut exports = Vec::new(alloc);
    exports.push(numbers)?;
    let canons = all_canons(alloc, graph, numbers)?;
    let values = all_values(alloc, graph, returned)?;
    let calls = calls(alloc)?;
    Ok(Program {
        graph,
        script,
        types,
        exports,
        canons,
        values,
        ends: &[],
        calls,
        resources: Vec::new(alloc),
    })
}
