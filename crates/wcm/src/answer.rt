//! What a call of the program answers, from the files that it names.

ghost use Rattle.std.specs.Prelude.{◌≡◌, ℕ, [], List, Some, IfOk};
ghost use Rattle.link_spec.specs.Linked.{IsLinked};
ghost use Rattle.wcm.specs.Answers.{accepted_answer, shown_answer};
ghost use Rattle.wcm.specs.Coming.{Comes};
ghost use Rattle.wcm.specs.Files.{IsRead, IsOfComponent, IsFileRead, IsFileLinked};
ghost use Rattle.wcm.specs.Stops.{StopsFor, WritesFor};
ghost use Rattle.wcm.specs.Status.{IsAnswered};
ghost use Rattle.command_words.specs.Words as commands;
ghost use Rattle.command_words.specs.Words.{component_file, said};

use crate::files::{NotRead, component_of, script_of};
use crate::running::run_answer;
use crate::status::Status;
use answer_texts::{
    accepted_text, graph_text, link_refused_line, refused_line, script_refused_line,
};
use ca_io::{Files, Sink};
use command_words::Command;
use comp_graph::Graph;
use comp_link::link;
use comp_reader::Component;
use faults::{Memory, MemoryOr};
use machine_runs::RunFault;
use std::alloc::{AllocError, Global};
use syntax_trees::{Bytes, Seq};

/// What a call of the program answers, but for what of the text for the output has gone out while its run went.
#[derive(Drop)]
pub struct Answer {
    /// How it ends.
    pub status: Status,
    /// The text for the output.
    pub out: Bytes,
    /// The text for the error output.
    pub err: Bytes,
}

/// Why there is no answer.
#[derive(Clone, Copy)]
pub enum Stop {
    /// A file was not read.
    Fault,
    /// A write of the trace to the output failed.
    Write,
    /// Memory ran out; or the run comes to no end (`Status::Memory`).
    Memory,
}

impl From<AllocError> for Stop {
    ghost use Rattle.wcm.specs.declared.answer.Stop.TheVariants as stop;

    ghost from_gives = { λ _ e. e ≡ stop.Memory };

    fn from(_e: AllocError) -> Stop {
        Stop::Memory
    }
}

impl From<Memory> for Stop {
    ghost use Rattle.wcm.specs.declared.answer.Stop.TheVariants as stop;

    ghost from_gives = { λ _ e. e ≡ stop.Memory };

    fn from(_e: Memory) -> Stop {
        Stop::Memory
    }
}

/// An answer without a run, that has this text for the error output.
pub fn refusal(alloc: Global, status: Status, err: Bytes) -> Answer
    ensures { result ≡ record { status = status; out = []; err = err } }
{
    Answer {
        status,
        out: Seq::new(alloc),
        err,
    }
}

/// The answer that a component is linked.
fn accepted_answer(alloc: Global) -> Result<Answer, Memory>
    ensures { IfOk result (λ a. a ≡ accepted_answer) }
{
    Ok(Answer {
        status: Status::Done,
        out: accepted_text(alloc)?,
        err: Seq::new(alloc),
    })
}

/// The answer that tells of a graph.
fn shown_answer(alloc: Global, graph: &Graph) -> Result<Answer, Memory>
    ensures { IfOk result (λ a. a ≡ shown_answer graph.now) }
{
    Ok(Answer {
        status: Status::Done,
        out: graph_text(alloc, graph)?,
        err: Seq::new(alloc),
    })
}

/// The answer for a graph and the script file of this name; `dump` asks for what the run leaves. The trace of the run goes out as it goes.
#[tactic(auto, using(crate::proofs::Coming::sent_none, crate::proofs::Coming::comes_whole))]
fn script_answer<F: Files, K: Sink>(
    alloc: Global,
    graph: &Graph,
    script: &str,
    dump: bool,
    files: &mut F,
    out: &mut K,
) -> Result<Answer, Stop>
    requires linked { IsOfComponent graph.now }
    ensures comes { (file : List ℕ) → IsFileLinked (F.held files.old) file graph.now
        → Comes (F.held files.old) (Some (commands.OfFile (commands.Run file script.now dump))) (K.taken out.old) (K.taken out.new) result }
    ensures same { (other : List ℕ) → F.held files.new other ≡ F.held files.old other }
    ensures cause { StopsFor (F.faults files.old) (F.faults files.new) result }
    ensures writes { WritesFor (K.faults out.old) (K.faults out.new) result }
{
    match script_of(alloc, script, files, graph.exports()) {
        Ok(Ok(script)) => match run_answer(alloc, graph, &script, dump, out) {
            Ok(answer) => Ok(answer),
            Err(RunFault::Write) => Err(Stop::Write),
            Err(RunFault::Memory) => Err(Stop::Memory),
            Err(RunFault::Beyond) => Err(Stop::Memory),
        },
        Ok(Err(fault)) => {
            let line = script_refused_line(alloc, fault)?;
            Ok(refusal(alloc, Status::ScriptRefused, line))
        }
        Err(NotRead::Fault) => Err(Stop::Fault),
        Err(NotRead::Memory) => Err(Stop::Memory),
    }
}

/// The answer for a component, its graph, and the script file of this name; `dump` asks for what the run leaves.
fn linked_answer<F: Files, K: Sink>(
    alloc: Global,
    component: &Component,
    graph: &Graph,
    script: &str,
    dump: bool,
    files: &mut F,
    out: &mut K,
) -> Result<Answer, Stop>
    requires read { IsRead component.now }
    requires linked { IsLinked component.now graph.now }
    ensures comes { (file : List ℕ) → IsFileRead (F.held files.old) file component.now
        → Comes (F.held files.old) (Some (commands.OfFile (commands.Run file script.now dump))) (K.taken out.old) (K.taken out.new) result }
    ensures same { (other : List ℕ) → F.held files.new other ≡ F.held files.old other }
    ensures cause { StopsFor (F.faults files.old) (F.faults files.new) result }
    ensures writes { WritesFor (K.faults out.old) (K.faults out.new) result }
{
    script_answer(alloc, graph, script, dump, files, out)
}

/// The answer of a command for its component and the graph of that.
#[tactic(auto, using(crate::proofs::Coming::sent_none, crate::proofs::Coming::comes_whole))]
fn graph_answer<F: Files, K: Sink>(
    alloc: Global,
    command: Command,
    component: &Component,
    graph: &Graph,
    files: &mut F,
    out: &mut K,
) -> Result<Answer, Stop>
    requires read { IsRead component.now }
    requires linked { IsLinked component.now graph.now }
    ensures comes { IsFileRead (F.held files.old) (component_file (said command.entry)) component.now
        → Comes (F.held files.old) (Some (commands.OfFile (said command.entry))) (K.taken out.old) (K.taken out.new) result }
    ensures same { (other : List ℕ) → F.held files.new other ≡ F.held files.old other }
    ensures cause { StopsFor (F.faults files.old) (F.faults files.new) result }
    ensures writes { WritesFor (K.faults out.old) (K.faults out.new) result }
{
    match command {
        Command::Run { script, dump, .. } => {
            linked_answer(alloc, component, graph, script, dump, files, out)
        }
        Command::Check { .. } => Ok(accepted_answer(alloc)?),
        Command::Show { .. } => Ok(shown_answer(alloc, graph)?),
    }
}

/// The answer of a command for its component, which is linked.
#[tactic(auto, using(crate::proofs::Coming::sent_none, crate::proofs::Coming::comes_whole))]
fn link_answer<F: Files, K: Sink>(
    alloc: Global,
    command: Command,
    component: &Component,
    files: &mut F,
    out: &mut K,
) -> Result<Answer, Stop>
    requires read { IsRead component.now }
    ensures comes { IsFileRead (F.held files.old) (component_file (said command.entry)) component.now
        → Comes (F.held files.old) (Some (commands.OfFile (said command.entry))) (K.taken out.old) (K.taken out.new) result }
    ensures same { (other : List ℕ) → F.held files.new other ≡ F.held files.old other }
    ensures cause { StopsFor (F.faults files.old) (F.faults files.new) result }
    ensures writes { WritesFor (K.faults out.old) (K.faults out.new) result }
{
    match link(alloc, component) {
        Ok(graph) => graph_answer(alloc, command, component, &graph, files, out),
        Err(MemoryOr::Memory) => Err(Stop::Memory),
        Err(MemoryOr::Fault(fault)) => {
            let line = link_refused_line(alloc, &fault)?;
            Ok(refusal(alloc, Status::LinkRefused, line))
        }
    }
}

/// The answer of a command: the component file is read first, and what the command asks for behind it where that is a
/// component that is linked. The trace of a run goes out as the run goes, and the answer has what is left.
#[tactic(auto, using(crate::proofs::Coming::sent_none, crate::proofs::Coming::comes_whole))]
pub fn answer_of<F: Files, K: Sink>(
    alloc: Global,
    command: Command,
    files: &mut F,
    out: &mut K,
) -> Result<Answer, Stop>
    ensures comes { Comes (F.held files.old) (Some (commands.OfFile (said command.entry))) (K.taken out.old) (K.taken out.new) result }
    ensures status { IfOk result (λ a. IsAnswered a.status) }
    ensures same { (other : List ℕ) → F.held files.new other ≡ F.held files.old other }
    ensures cause { StopsFor (F.faults files.old) (F.faults files.new) result }
    ensures writes { WritesFor (K.faults out.old) (K.faults out.new) result }
{
    match component_of(alloc, command.file(), files) {
        Ok(Ok(component)) => link_answer(alloc, command, &component, files, out),
        Ok(Err(refused)) => {
            let line = refused_line(alloc, refused)?;
            Ok(refusal(alloc, Status::Refused, line))
        }
        Err(NotRead::Fault) => Err(Stop::Fault),
        Err(NotRead::Memory) => Err(Stop::Memory),
    }
}
