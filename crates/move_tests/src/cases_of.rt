//! What a case asks.

use crate::playing::played;
use cases::{Answers, bytes_of_lines};
use comp_graph::Graph;
use comp_link::link;
use comp_reader::{Component, read_component};
use script_reader::read_script;
use std::alloc::Global;
use std::test::Fail;

/// Cases, each with its answer.
pub struct Moved;

impl Answers for Moved {
    fn answer(alloc: Global, given: &str) -> Result<String, Fail> {
        let (_title, rest) = given.split_once('\n').ok_or("no lines")?;
        let (code, script) = rest.split_once("script").ok_or("no script")?;
        let bytes = bytes_of_lines(alloc, code)?;
        component_answer(alloc, &bytes, script)
    }
}

/// The answer for the bytes of a component and a script.
fn component_answer(alloc: Global, bytes: &[u8], script: &str) -> Result<String, Fail> {
    match read_component(alloc, bytes) {
        Ok(component) => linked_answer(alloc, &component, script),
        Err(_) => Err(Fail::new("no component")),
    }
}

/// The answer for a component.
fn linked_answer(alloc: Global, component: &Component, script: &str) -> Result<String, Fail> {
    match link(alloc, component) {
        Ok(graph) => script_answer(alloc, &graph, script),
        Err(_) => Err(Fail::new("not linked")),
    }
}

/// The answer for a graph.
fn script_answer(alloc: Global, graph: &Graph<'_>, script: &str) -> Result<String, Fail> {
    match read_script(alloc, script.as_bytes(), graph.exports()) {
        Ok(script) => played(alloc, graph, &script),
        Err(_) => Err(Fail::new("no script")),
    }
}
