//! The types of streams and futures that graphs tell, as text.
//!
//! A component and its graph are each lent to the function that tells of them as the last step, as in `answers`.

use crate::answers::{component_of, graph_of};
use comp_graph::Graph;
use comp_reader::Component;
use std::alloc::Global;
use std::test::Fail;
use type_texts::type_told;

/// Writes the type of a number, behind others in lines of their own.
fn write_ends(
    alloc: Global,
    text: &mut String,
    graph: &Graph<'_>,
    number: u32,
) -> Result<(), Fail> {
    let ends = graph.types().types.value(Some(number)).ok_or("no type")?;
    if !text.is_empty() {
        text.push('\n')?;
    }
    text.push_str(type_told(alloc, ends.val_type())?.as_str())?;
    Ok(())
}

/// The types of streams and futures of a graph, each in a line, or that there are none.
fn graph_noted(alloc: Global, graph: &Graph<'_>) -> Result<String, Fail> {
    let mut text = String::new(alloc);
    for number in graph.types().ends.as_slice() {
        write_ends(alloc, &mut text, graph, *number)?;
    }
    if text.is_empty() {
        text.push_str("none")?;
    }
    Ok(text)
}

/// Those of a graph that is let go then.
fn noted_of_graph(alloc: Global, graph: Graph<'_>) -> Result<String, Fail> {
    graph_noted(alloc, &graph)
}

/// Those of the graph that a component is linked to.
fn noted(alloc: Global, component: &Component) -> Result<String, Fail> {
    match graph_of(alloc, component).ok() {
        Some(graph) => noted_of_graph(alloc, graph),
        None => Err(Fail::new("not linked")),
    }
}

/// Those of a component that is let go then.
fn noted_of_component(alloc: Global, component: Component) -> Result<String, Fail> {
    noted(alloc, &component)
}

/// The types of streams and futures of the graph of the component of bytes.
pub fn noted_of(alloc: Global, bytes: &[u8]) -> Result<String, Fail> {
    match component_of(alloc, bytes).ok() {
        Some(component) => noted_of_component(alloc, component),
        None => Err(Fail::new("not read")),
    }
}
