//! The answers to cases.
//!
//! A component, its graph, a script and a run are each lent to the function that tells of them as the last step, so that they are
//! let go in one place.

ghost use Rattle.std.specs.Prelude.{ℕ, List, IfOk};
ghost use Rattle.comp_tree.specs.declared.items.Component.{Component};
ghost use Rattle.comp_reader.specs.Binary.{IsComponent};
ghost use Rattle.link_spec.specs.Linked.{IsLinked};
ghost use Rattle.lowering_laws.specs.Values.{AreBytes};
ghost use Rattle.machine_runs.specs.Fit.{ModulesFit};

use crate::case::{Case, Command, case_of};
use answer_texts::{
    accepted_text, graph_text, link_refused_line, refused_line, script_refused_line,
};
use ca_base::ReadError;
use ca_io::MemSink;
use cases::Answers;
use comp_graph::Graph;
use comp_link::{LinkFault, link};
use comp_reader::{Component, ComponentWhy, read_component};
use faults::MemoryOr;
use graph_laws::laws::{files_are_bytes, read_modules_are_typed};
use link_spec::laws::graphs_are_sound;
use machine_runs::{Ran as RunLeft, RunEnd, run_script, runs_step_on};
use program_maker::program_of;
use script_reader::{Script, ScriptFault, read_script};
use std::alloc::Global;
use std::fmt::Write;
use std::test::Fail;
use syntax_trees::{Bytes, Seq};
use trace_show::Trace;
use value_moves::{ValueMoves, passes_stay_fit};

/// How many bytes the trace of a case may have.
const ROOM: usize = 1024 * 1024;

/// Cases, each with its answer.
pub struct Ran;

impl Answers for Ran {
    fn answer(alloc: Global, given: &str) -> Result<String, Fail> {
        let case = case_of(alloc, given)?;
        answer_of(alloc, &case)
    }
}

/// The number of the status of a run that ends so.
fn status_of(end: RunEnd) -> u8 {
    match end {
        RunEnd::Done => 0,
        RunEnd::Trap => 1,
        RunEnd::Deadlock => 5,
        RunEnd::Fuel => 6,
    }
}

/// An answer: the number of a status, and the text that belongs to it.
fn answer(alloc: Global, status: u8, text: &Bytes) -> Result<String, Fail> {
    let text = str::from_utf8(text.as_slice())?;
    let mut told = String::new(alloc);
    write!(told, "status {status}\n{text}")?;
    Ok(told)
}

/// The answer for a script that is refused.
fn script_refused(alloc: Global, fault: ScriptFault) -> Result<String, Fail> {
    let line = script_refused_line(alloc, fault)?;
    answer(alloc, 4, &line)
}

/// What a run comes to, of which this was written.
fn run_told(alloc: Global, ran: RunLeft, trace: &[u8]) -> Result<String, Fail> {
    let RunLeft { end, dump } = ran;
    let mut text = Seq::from_vec(trace.to_vec(alloc)?);
    if let Some(dump) = dump {
        text.append(dump)?;
    }
    answer(alloc, status_of(end), &text)
}

/// What the run of a script over a graph comes to.
fn script_run(alloc: Global, graph: &Graph, script: &Script, dump: bool) -> Result<String, Fail>
    requires fit { ModulesFit graph.now }
{
    let program = program_of(alloc, graph, script)?;
    passes_stay_fit(&program);
    runs_step_on::<ValueMoves>(&program);
    let mut sink = MemSink::new(alloc, ROOM, ROOM, &[])?;
    let mut kept = Vec::new(alloc);
    let mut last = Vec::new(alloc);
    let mut trace = Trace::new(&mut sink, &mut kept, &mut last);
    match run_script::<ValueMoves, MemSink>(alloc, &program, &mut trace, dump) {
        Ok(ran) => run_told(alloc, ran, sink.taken()),
        Err(_) => Err(Fail::new("no run")),
    }
}

/// What the run of a script that is read comes to for the graph of a component that is read of bytes.
fn read_run(
    alloc: Global,
    component: &Component,
    graph: &Graph,
    script: &Script,
    dump: bool,
) -> Result<String, Fail>
    requires read { (bytes : List ℕ) × AreBytes bytes × IsComponent bytes component.now }
    requires linked { IsLinked component.now graph.now }
{
    graphs_are_sound();
    read_modules_are_typed();
    script_run(alloc, graph, script, dump)
}

/// What a script comes to for the graph of a component that is read of bytes.
fn scripted(
    alloc: Global,
    component: &Component,
    graph: &Graph,
    script: &str,
    dump: bool,
) -> Result<String, Fail>
    requires read { (bytes : List ℕ) × AreBytes bytes × IsComponent bytes component.now }
    requires linked { IsLinked component.now graph.now }
{
    match read_script(alloc, script.as_bytes(), graph.exports()) {
        Ok(script) => read_run(alloc, component, graph, &script, dump),
        Err(MemoryOr::Fault(fault)) => script_refused(alloc, fault),
        Err(MemoryOr::Memory) => Err(Fail::new("memory")),
    }
}

/// The answer of a command for the graph of a component that is read of bytes.
fn graph_answer(
    alloc: Global,
    component: &Component,
    graph: &Graph,
    case: &Case,
) -> Result<String, Fail>
    requires read { (bytes : List ℕ) × AreBytes bytes × IsComponent bytes component.now }
    requires linked { IsLinked component.now graph.now }
{
    match case.command {
        Command::Run { dump } => scripted(alloc, component, graph, case.script.as_str(), dump),
        Command::Check => answer(alloc, 0, &accepted_text(alloc)?),
        Command::Show => answer(alloc, 0, &graph_text(alloc, graph)?),
    }
}

/// The answer for a component that is not linked.
fn link_refused(alloc: Global, fault: &LinkFault) -> Result<String, Fail> {
    let line = link_refused_line(alloc, fault)?;
    answer(alloc, 10, &line)
}

/// The answer for a component that is read of bytes.
fn component_answer(alloc: Global, component: &Component, case: &Case) -> Result<String, Fail>
    requires read { (bytes : List ℕ) × AreBytes bytes × IsComponent bytes component.now }
{
    match link(alloc, component) {
        Ok(graph) => graph_answer(alloc, component, &graph, case),
        Err(MemoryOr::Fault(fault)) => link_refused(alloc, &fault),
        Err(MemoryOr::Memory) => Err(Fail::new("memory")),
    }
}

/// The component of bytes.
fn component_of(alloc: Global, bytes: &[u8]) -> Result<Component, ReadError<ComponentWhy>>
    ensures { IfOk result (λ component. (bytes : List ℕ) × AreBytes bytes × IsComponent bytes component) }
{
    files_are_bytes(bytes);
    read_component(alloc, bytes)
}

/// The answer to a case.
fn answer_of(alloc: Global, case: &Case) -> Result<String, Fail> {
    match component_of(alloc, case.component.as_slice()) {
        Ok(component) => component_answer(alloc, &component, case),
        Err(ReadError::Fault(refusal)) => answer(alloc, 3, &refused_line(alloc, refusal)?),
        Err(ReadError::Memory) => Err(Fail::new("memory")),
    }
}
