//! The pipe of a seed and a count: numbers that go through a stream.

ghost use Rattle.std.specs.Prelude.{◌≡◌, ℕ, List, ◌++◌, IfOk, OnOk};
ghost use Rattle.laid_types.specs.SameTypes.{AreDistinct};
ghost use Rattle.comp_reader.specs.Binary.{IsComponent};
ghost use Rattle.link_spec.specs.Linked.{IsLinked};
ghost use Rattle.script_reader.specs.Script.{IsScript};
ghost use Rattle.trace_labels.specs.declared.label.Label.{Label};
ghost use Rattle.trace_show.specs.Tally.{tally_of, counted, without_feed};
ghost use Rattle.world_parts.specs.Held.{Held};
ghost use Rattle.value_moves.specs.Passing.{Passes};
ghost use Rattle.machine_runs.specs.Worlds.{first_point, StepsOn, IsRun};
ghost use Rattle.wcm.specs.Files.{IsOfComponent, IsOfText, IsRead};
ghost use Rattle.wcm.specs.Piped.{PipeAnswers, number_line, pipe_bytes, pipe_script, tally_text};
ghost use Rattle.wcm.specs.Status.{IsAnswered};

use crate::answer::{Answer, refusal};
use crate::status::{Status, status_of_end};
use answer_texts::{link_refused_line, refused_line, script_refused_line};
use async_graph_laws::laws::read_runs_fit;
use ca_io::NullSink;
use comp_graph::Graph;
use comp_link::link;
use comp_make::pipeline;
use comp_reader::{Component, read_component};
use faults::{Memory, MemoryOr};
use graph_laws::laws::{files_are_bytes, read_modules_are_typed};
use link_spec::laws::graphs_are_sound;
use machine_runs::{RunEnd, run_script, runs_step_on};
use program_maker::program_of;
use programs::Program;
use run_laws::runs_are_of_machine;
use script_reader::{Script, read_script};
use std::alloc::Global;
use syntax_trees::{Bytes, Seq};
use trace_show::{Trace, lines_are_counted};
use value_moves::{ValueMoves, passes_stay_fit};

/// The script of a pipe.
const SCRIPT: &[u8] = b"fuel 1000000000\ncall run ()\n";

/// What is told of a pipe's run, and how it ended.
#[derive(Drop)]
struct Told {
    end: RunEnd,
    text: Bytes,
}

/// Appends a line that tells a number.
fn push_number(alloc: Global, name: &[u8], number: u64, to: &mut Vec<u8>) -> Result<(), Memory>
    ensures { OnOk result (to.new.items ≡ to.old.items ++ number_line name.now number) }
{
    let digits = number.to_string(alloc)?;
    to.extend_from_slice(name)?;
    to.extend_from_slice(digits.as_bytes())?;
    to.push(b'\n')?;
    Ok(())
}

/// The text of what is told.
fn told_text(
    alloc: Global,
    seed: u32,
    elements: u64,
    sum: u64,
    last: &[u8],
) -> Result<Bytes, Memory>
    ensures { IfOk result (λ text. (feed : List ℕ) → last.now ≡ without_feed feed → text ≡ tally_text seed (tally_of elements sum feed)) }
{
    let mut text = Vec::new(alloc);
    push_number(alloc, b"seed ", u64::from(seed), &mut text)?;
    push_number(alloc, b"elements ", elements, &mut text)?;
    push_number(alloc, b"sum ", sum, &mut text)?;
    text.extend_from_slice(last)?;
    text.push(b'\n')?;
    Ok(Seq::from_vec(text))
}

/// The run of a pipe's program. Its lines are counted, and none is kept.
#[tactic(auto, using(crate::proofs::Requests::told_of))]
fn told_run(alloc: Global, program: &Program<'_, '_>, seed: u32) -> Result<Told, Memory>
    requires distinct { AreDistinct program.now.types.now }
    requires goes { StepsOn Passes program.now (first_point program.now.graph.now program.now.script.now) }
    ensures { IfOk result (λ t. (lines : List Label) × (last : Held) × IsRun Passes program.now (first_point program.now.graph.now program.now.script.now) t.end lines last
        × (t.text ≡ tally_text seed (counted lines))) }
{
    lines_are_counted();
    let mut sink = NullSink;
    let mut kept = Vec::new(alloc);
    let mut last = Vec::new(alloc);
    let mut trace = Trace::new(&mut sink, &mut kept, &mut last);
    match run_script::<ValueMoves, NullSink>(alloc, program, &mut trace, false) {
        Ok(ran) => {
            let text = told_text(alloc, seed, trace.elements(), trace.sum(), trace.last())?;
            Ok(Told { end: ran.end, text })
        }
        Err(_) => Err(Memory),
    }
}

/// The answer of the run of a pipe's script over its graph.
fn run_answer(
    alloc: Global,
    component: &Component,
    graph: &Graph,
    script: &Script,
    seed: u32,
) -> Result<Answer, Memory>
    requires linked { IsOfComponent graph.now }
    requires said { IsOfText graph.now.exports script.now }
    ensures answers { IfOk result (λ a. (count : ℕ) → IsComponent (pipe_bytes seed count) component.now → IsLinked component.now graph.now → IsScript graph.now.exports pipe_script script.now
        → PipeAnswers seed count a) }
    ensures status { IfOk result (λ a. IsAnswered a.status) }
{
    let program = program_of(alloc, graph, script)?;
    graphs_are_sound();
    read_modules_are_typed();
    passes_stay_fit(&program);
    runs_step_on::<ValueMoves>(&program);
    read_runs_fit();
    runs_are_of_machine();
    let told = told_run(alloc, &program, seed)?;
    Ok(Answer {
        status: status_of_end(told.end),
        out: told.text,
        err: Seq::new(alloc),
    })
}

/// The text of a pipe's script.
fn script_text() -> &'static [u8]
    ensures { result.now ≡ pipe_script }
{
    SCRIPT
}

/// The answer for a pipe's component and its graph.
fn graph_answer(
    alloc: Global,
    component: &Component,
    graph: &Graph,
    seed: u32,
) -> Result<Answer, Memory>
    requires read { IsRead component.now }
    requires linked { IsLinked component.now graph.now }
    ensures answers { IfOk result (λ a. (count : ℕ) → IsComponent (pipe_bytes seed count) component.now → PipeAnswers seed count a) }
    ensures status { IfOk result (λ a. IsAnswered a.status) }
{
    match read_script(alloc, script_text(), graph.exports()) {
        Ok(script) => run_answer(alloc, component, graph, &script, seed),
        Err(MemoryOr::Memory) => Err(Memory),
        Err(MemoryOr::Fault(fault)) => {
            let line = script_refused_line(alloc, fault)?;
            Ok(refusal(alloc, Status::ScriptRefused, line))
        }
    }
}

/// The answer for a pipe's component.
fn component_answer(alloc: Global, component: &Component, seed: u32) -> Result<Answer, Memory>
    requires read { IsRead component.now }
    ensures answers { IfOk result (λ a. (count : ℕ) → IsComponent (pipe_bytes seed count) component.now → PipeAnswers seed count a) }
    ensures status { IfOk result (λ a. IsAnswered a.status) }
{
    match link(alloc, component) {
        Ok(graph) => graph_answer(alloc, component, &graph, seed),
        Err(MemoryOr::Memory) => Err(Memory),
        Err(MemoryOr::Fault(fault)) => {
            let line = link_refused_line(alloc, &fault)?;
            Ok(refusal(alloc, Status::LinkRefused, line))
        }
    }
}

/// The bytes of a pipe's component.
fn pipe_file(alloc: Global, seed: u32, count: u32) -> Result<Bytes, Memory>
    ensures { IfOk result (λ bytes. bytes ≡ pipe_bytes seed count) }
{
    let build = pipeline(alloc, seed, count)?;
    build.bytes(alloc)
}

/// What `pipe` answers for a seed and a count. It fails for want of memory, or where the run comes to no end.
pub fn pipe_answer(alloc: Global, seed: u32, count: u32) -> Result<Answer, Memory>
    ensures answers { IfOk result (PipeAnswers seed count) }
    ensures status { IfOk result (λ a. IsAnswered a.status) }
{
    let bytes = pipe_file(alloc, seed, count)?;
    let file = bytes.as_slice();
    files_are_bytes(file);
    match read_component(alloc, file) {
        Ok(component) => component_answer(alloc, &component, seed),
        Err(MemoryOr::Memory) => Err(Memory),
        Err(MemoryOr::Fault(refused)) => {
            let line = refused_line(alloc, refused)?;
            Ok(refusal(alloc, Status::Refused, line))
        }
    }
}
