//! Runs of scripts over graphs.

ghost use Rattle.std.specs.Prelude.{◌≡◌, ℕ, List, [], Option, Some};
ghost use Rattle.laid_types.specs.SameTypes.{AreDistinct};
ghost use Rattle.trace_show.specs.Tally.{Tally};
ghost use Rattle.value_moves.specs.Passing.{Passes};
ghost use Rattle.machine_runs.specs.Worlds.{first_point, StepsOn};
ghost use Rattle.machine_runs.specs.Playing.{ScriptRuns, RunTold};
ghost use Rattle.wcm.specs.Coming.{RunComes};
ghost use Rattle.wcm.specs.Leaving.{dumped};
ghost use Rattle.wcm.specs.Files.{IsOfComponent, IsOfText, IsFileLinked, IsScriptFile};
ghost use Rattle.wcm.specs.Status.{status_of_run};
ghost use Rattle.command_words.specs.Words as commands;

use crate::answer::Answer;
use crate::status::status_of_end;
use async_graph_laws::laws::{read_runs_fit, read_runs_have_one_next};
use ca_io::Sink;
use comp_graph::Graph;
use graph_laws::laws::read_modules_are_typed;
use link_spec::laws::graphs_are_sound;
use machine_runs::{Ran, RunFault, run_script, runs_step_on};
use program_maker::program_of;
use programs::Program;
use run_laws::{runs_are_of_machine, so_far_is_of_machine};
use script_reader::Script;
use std::alloc::Global;
use syntax_trees::Seq;
use trace_show::Trace;
use value_moves::{ValueMoves, passes_stay_fit};

/// The run of a program, whose trace goes out as the run goes. What is counted of its lines is not told.
#[tactic(auto, using(crate::proofs::RunRows::uncounted))]
fn run_program<K: Sink>(
    alloc: Global,
    program: &Program<'_, '_>,
    dump: bool,
    out: &mut K,
) -> Result<Ran, RunFault>
    requires distinct { AreDistinct program.now.types.now }
    requires goes { StepsOn Passes program.now (first_point program.now.graph.now program.now.script.now) }
    ensures runs { (t : Tally) × (u : Tally) × ScriptRuns Passes program.now (first_point program.now.graph.now program.now.script.now) dump (K.taken out.old) [] t result (K.taken out.new) u }
    ensures writes { RunTold (K.faults out.old) (K.faults out.new) result }
{
    let mut kept = Vec::new(alloc);
    let mut last = Vec::new(alloc);
    let mut trace = Trace::new(out, &mut kept, &mut last);
    run_script::<ValueMoves, K>(alloc, program, &mut trace, dump)
}

/// What is left to be written of the answer of a run: what the run left, where that was asked for.
fn answer_behind(alloc: Global, ran: Ran) -> Answer
    ensures { result ≡ record { status = status_of_run ran.end; out = dumped ran.dump; err = [] } }
{
    let Ran { end, dump } = ran;
    let out = match dump {
        Some(dump) => dump,
        None => Seq::new(alloc),
    };
    Answer {
        status: status_of_end(end),
        out,
        err: Seq::new(alloc),
    }
}

/// The answer of the run of a graph under a script, whose trace goes out as the run goes; `dump` asks for what the run leaves.
#[tactic(auto, using(crate::proofs::Coming::sent_none))]
pub fn run_answer<K: Sink>(
    alloc: Global,
    graph: &Graph,
    script: &Script,
    dump: bool,
    out: &mut K,
) -> Result<Answer, RunFault>
    requires linked { IsOfComponent graph.now }
    requires said { IsOfText graph.now.exports script.now }
    ensures comes { (held : List ℕ → Option (List ℕ)) (file name : List ℕ) → IsFileLinked held file graph.now → IsScriptFile held name graph.now.exports script.now
        → RunComes held (Some (commands.OfFile (commands.Run file name dump))) (K.taken out.old) (K.taken out.new) result }
    ensures writes { RunTold (K.faults out.old) (K.faults out.new) result }
{
    let program = program_of(alloc, graph, script)?;
    graphs_are_sound();
    read_modules_are_typed();
    passes_stay_fit(&program);
    runs_step_on::<ValueMoves>(&program);
    read_runs_fit();
    read_runs_have_one_next();
    runs_are_of_machine();
    so_far_is_of_machine();
    let ran = run_program(alloc, &program, dump, out)?;
    Ok(answer_behind(alloc, ran))
}
