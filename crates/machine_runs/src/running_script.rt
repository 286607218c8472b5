//! Runs of scripts, whose trace goes out as they go.

ghost use Rattle.std.specs.Prelude.{◌≡◌, IfOk, OnOk, OnErr};
ghost use Rattle.std.specs.Option.{option_map};
ghost use Rattle.machine_runs.specs.declared.ending.LastLine.{LastLine};
ghost use Rattle.laid_types.specs.SameTypes.{AreDistinct};
ghost use Rattle.ca_io.specs.Bytes.{grown};
ghost use Rattle.trace_show.specs.Trace.{put_so_far, HasPutCause};
ghost use Rattle.trace_show.specs.LabelText.{label_text, trace_text};
ghost use Rattle.trace_show.specs.Tally.{tally_of, with_line, with_lines};
ghost use Rattle.world_parts.specs.Held.{held};
ghost use Rattle.machine_runs.specs.Stepping.{CanStep};
ghost use Rattle.machine_runs.specs.Worlds.{point_of, first_point, with_last, StepsOn};
ghost use Rattle.machine_runs.specs.Playing.{dump_if, Took, Grew, Puts, TellsAll, StepComes, Plays, PlaysOn, WorldRuns, ScriptRuns, HasRunCause};

use crate::ending::{LastLine, RunEnd, free_line, fuel_line, trap_line};
use crate::fault::{RunFault, put_fault};
use crate::stepping::Step;
use crate::world::World;
use ca_io::{Failed, Sink};
use faults::{Memory, MemoryOr};
use programs::Program;
use std::alloc::Global;
use syntax_trees::Bytes;
use trace_labels::Label;
use trace_show::Trace;
use value_parts::PassesValues;
use world_dumps::dump_text;
use world_parts::{Parts, Stop};

/// A run that came to its end.
#[derive(Drop)]
pub struct Ran {
    /// How it ended.
    pub end: RunEnd,
    /// The text of what it left, where that was asked for.
    pub dump: Option<Bytes>,
}

/// Puts lines, in order.
#[tactic(auto, using(crate::proofs::Played::puts_more, crate::proofs::Played::puts_end, crate::proofs::Played::grew_none, crate::proofs::Played::grew_front, crate::proofs::Played::grew_then))]
fn put_lines<K: Sink>(
    alloc: Global,
    lines: &[Label],
    trace: &mut Trace<'_, K>,
) -> Result<(), MemoryOr<Failed>>
    ensures same_sink { trace.new.sink.ghost_name ≡ trace.old.sink.ghost_name }
    ensures puts { Puts (put_so_far (K.taken trace.old.sink.now) trace.old.kept.now.items) lines.now result (put_so_far (K.taken trace.new.sink.now) trace.new.kept.now.items) (K.taken trace.new.sink.now) }
    ensures tally { OnOk result (tally_of trace.new.elements trace.new.sum trace.new.last.now.items ≡ with_lines (tally_of trace.old.elements trace.old.sum trace.old.last.now.items) lines.now) }
    ensures grows { Grew (K.taken trace.old.sink.now) (K.taken trace.new.sink.now) }
    ensures cause { HasPutCause (K.faults trace.old.sink.now) (K.faults trace.new.sink.now) result }
{
    for line in lines {
        trace.put(alloc, line)?;
    }
    Ok(())
}

/// How many steps are made at most. A script's fuel may pay for more of them where nearly all cost nothing; such a run goes beyond what is run.
const MOST_STEPS: u64 = 34_359_738_368;

/// Makes a step. The answer is the last line, where that ends the run.
///
/// # Errors
///
/// `Memory`, and `Beyond` where no rule applies, or a task traps and none acts.
#[tactic(auto, using(crate::proofs::Played::next_goes, crate::proofs::Played::next_ends, crate::proofs::Played::next_traps, crate::proofs::Played::next_wants, crate::proofs::Played::next_lost, crate::proofs::Played::next_lost_trap))]
fn next<V: PassesValues>(
    alloc: Global,
    program: &Program<'_, '_>,
    world: &mut World,
) -> Result<Option<LastLine>, RunFault>
    requires distinct { AreDistinct program.now.types.now }
    requires can { CanStep world.old.passing world.old.stacks.piles.items (held world.old.parts) }
    ensures { StepComes V.may_pass program.now (point_of world.old) result (point_of world.new) }
{
    match world.step::<V>(alloc, program) {
        Ok(Step::GoesOn(passing)) => {
            world.passing = passing;
            Ok(None)
        }
        Ok(Step::Ends) => {
            let last = free_line(alloc, &world.parts.tasks.live)?;
            Ok(Some(last))
        }
        Err(Stop::Trap(name)) => match trap_line(&world.parts, name) {
            Some(last) => Ok(Some(last)),
            None => Err(RunFault::Beyond),
        },
        Err(Stop::NoFuel) => Ok(Some(fuel_line())),
        Err(Stop::Stuck) => Err(RunFault::Beyond),
        Err(Stop::Memory) => Err(RunFault::Memory),
    }
}

/// Puts lines, and the last line of a run, if it is there. Behind that one all is written.
#[tactic(auto, using(crate::proofs::Played::told_end, crate::proofs::Played::told_last, crate::proofs::Played::tally_last, crate::proofs::Played::cause_then, crate::proofs::Played::grew_then))]
fn tell<K: Sink>(
    alloc: Global,
    lines: &[Label],
    last: &Option<LastLine>,
    trace: &mut Trace<'_, K>,
) -> Result<(), MemoryOr<Failed>>
    ensures same_sink { trace.new.sink.ghost_name ≡ trace.old.sink.ghost_name }
    ensures tells { TellsAll (put_so_far (K.taken trace.old.sink.now) trace.old.kept.now.items) lines.now last.now result (put_so_far (K.taken trace.new.sink.now) trace.new.kept.now.items) (K.taken trace.new.sink.now) }
    ensures tally { OnOk result (tally_of trace.new.elements trace.new.sum trace.new.last.now.items ≡ with_lines (tally_of trace.old.elements trace.old.sum trace.old.last.now.items) (with_last lines.now last.now)) }
    ensures grows { Grew (K.taken trace.old.sink.now) (K.taken trace.new.sink.now) }
    ensures cause { HasPutCause (K.faults trace.old.sink.now) (K.faults trace.new.sink.now) result }
{
    put_lines(alloc, lines, trace)?;
    match last {
        Some(last) => put_last(alloc, &last.line, trace),
        None => Ok(()),
    }
}

/// Puts a line, and writes all out.
#[tactic(auto, using(crate::proofs::Played::put_fails, crate::proofs::Played::flush_fails, crate::proofs::Played::grew_front))]
fn put_last<K: Sink>(
    alloc: Global,
    line: &Label,
    trace: &mut Trace<'_, K>,
) -> Result<(), MemoryOr<Failed>>
    ensures same_sink { trace.new.sink.ghost_name ≡ trace.old.sink.ghost_name }
    ensures ok { OnOk result (K.taken trace.new.sink.now ≡ grown (put_so_far (K.taken trace.old.sink.now) trace.old.kept.now.items) (label_text line.now)) }
    ensures tally { OnOk result (tally_of trace.new.elements trace.new.sum trace.new.last.now.items ≡ with_line (tally_of trace.old.elements trace.old.sum trace.old.last.now.items) line.now) }
    ensures failed { OnErr result (Took (K.taken trace.new.sink.now) (grown (put_so_far (K.taken trace.old.sink.now) trace.old.kept.now.items) (label_text line.now))) }
    ensures grows { Grew (K.taken trace.old.sink.now) (K.taken trace.new.sink.now) }
    ensures cause { HasPutCause (K.faults trace.old.sink.now) (K.faults trace.new.sink.now) result }
{
    trace.put(alloc, line)?;
    match trace.flush() {
        Ok(()) => Ok(()),
        Err(failed) => Err(MemoryOr::Fault(failed)),
    }
}

/// Makes a step, whose lines go out. The answer is how the run ends, where it does.
#[tactic(auto, using(crate::proofs::Played::plays_none, crate::proofs::Played::plays_end, crate::proofs::Played::plays_ok, crate::proofs::Played::grew_none, crate::proofs::Played::put_caused))]
fn play<V: PassesValues, K: Sink>(
    alloc: Global,
    program: &Program<'_, '_>,
    world: &mut World,
    trace: &mut Trace<'_, K>,
) -> Result<Option<RunEnd>, RunFault>
    requires distinct { AreDistinct program.now.types.now }
    requires can { CanStep world.old.passing world.old.stacks.piles.items (held world.old.parts) }
    ensures same_sink { trace.new.sink.ghost_name ≡ trace.old.sink.ghost_name }
    ensures plays { Plays V.may_pass program.now (point_of world.old) (put_so_far (K.taken trace.old.sink.now) trace.old.kept.now.items) (tally_of trace.old.elements trace.old.sum trace.old.last.now.items) result (point_of world.new) (put_so_far (K.taken trace.new.sink.now) trace.new.kept.now.items) (K.taken trace.new.sink.now) (tally_of trace.new.elements trace.new.sum trace.new.last.now.items) }
    ensures grows { Grew (K.taken trace.old.sink.now) (K.taken trace.new.sink.now) }
    ensures cause { HasRunCause (K.faults trace.old.sink.now) (K.faults trace.new.sink.now) result }
{
    let last = next::<V>(alloc, program, world)?;
    let lines = world.take_lines(alloc);
    let told = tell(alloc, lines.as_slice(), &last, trace);
    let end = end_of(&last);
    drop(lines);
    drop(last);
    match told {
        Ok(()) => Ok(end),
        Err(fault) => Err(put_fault(fault)),
    }
}

/// How the run ends, where it does.
fn end_of(last: &Option<LastLine>) -> Option<RunEnd>
    ensures { result ≡ option_map (λ (l : LastLine). l.end) last.now }
{
    match last {
        Some(last) => Some(last.end),
        None => None,
    }
}

/// Makes steps up to where the run ends, and no more than `MOST_STEPS`.
#[tactic(auto, using(crate::proofs::Played::on_first, crate::proofs::Played::on_ends, crate::proofs::Played::on_fails, crate::proofs::Played::on_out, crate::proofs::Played::grew_none, crate::proofs::Played::grew_then))]
fn play_on<V: PassesValues, K: Sink>(
    alloc: Global,
    program: &Program<'_, '_>,
    world: &mut World,
    trace: &mut Trace<'_, K>,
) -> Result<RunEnd, RunFault>
    requires distinct { AreDistinct program.now.types.now }
    requires sound { StepsOn V.may_pass program.now (point_of world.old) }
    ensures same_sink { trace.new.sink.ghost_name ≡ trace.old.sink.ghost_name }
    ensures plays { PlaysOn V.may_pass program.now (point_of world.old) (put_so_far (K.taken trace.old.sink.now) trace.old.kept.now.items) (tally_of trace.old.elements trace.old.sum trace.old.last.now.items) result (point_of world.new) (K.taken trace.new.sink.now) (tally_of trace.new.elements trace.new.sum trace.new.last.now.items) }
    ensures grows { Grew (K.taken trace.old.sink.now) (K.taken trace.new.sink.now) }
    ensures cause { HasRunCause (K.faults trace.old.sink.now) (K.faults trace.new.sink.now) result }
{
    for _step in 0..MOST_STEPS {
        match play::<V, K>(alloc, program, world, trace)? {
            Some(end) => return Ok(end),
            None => {}
        }
    }
    Err(RunFault::Beyond)
}

/// The text of what a run left, where that is asked for.
fn dump_if(alloc: Global, parts: &Parts, dumps: bool) -> Result<Option<Bytes>, Memory>
    ensures { IfOk result (λ dump. dump ≡ dump_if dumps (held parts.now)) }
{
    if dumps {
        let text = dump_text(alloc, parts)?;
        Ok(Some(text))
    } else {
        Ok(None)
    }
}

/// The run of a script from a world on.
#[tactic(auto, using(crate::proofs::Played::no_dump))]
fn run_world<V: PassesValues, K: Sink>(
    alloc: Global,
    program: &Program<'_, '_>,
    world: &mut World,
    trace: &mut Trace<'_, K>,
    dumps: bool,
) -> Result<Ran, RunFault>
    requires distinct { AreDistinct program.now.types.now }
    requires sound { StepsOn V.may_pass program.now (point_of world.old) }
    ensures same_sink { trace.new.sink.ghost_name ≡ trace.old.sink.ghost_name }
    ensures runs { WorldRuns V.may_pass program.now (point_of world.old) dumps (put_so_far (K.taken trace.old.sink.now) trace.old.kept.now.items) (tally_of trace.old.elements trace.old.sum trace.old.last.now.items) result (K.taken trace.new.sink.now) (tally_of trace.new.elements trace.new.sum trace.new.last.now.items) }
    ensures grows { Grew (K.taken trace.old.sink.now) (K.taken trace.new.sink.now) }
    ensures cause { HasRunCause (K.faults trace.old.sink.now) (K.faults trace.new.sink.now) result }
{
    let end = play_on::<V, K>(alloc, program, world, trace)?;
    let dump = dump_if(alloc, &world.parts, dumps)?;
    Ok(Ran { end, dump })
}

/// Runs a script over a graph: the graph is instantiated, and then what the script says happens (Component Model, Concurrency.md, "Summary"). The
/// trace goes out as the run goes. Behind its last line all of it is written; the text of what the run left is the caller's to write.
///
/// # Errors
///
/// `Write` where a write of the trace failed, and `Memory` where memory, or numbers, ran out. `Beyond` where the run comes to a world from which no rule
/// applies, or from which a step is a trap while no task acts, or where it has made 2^35 steps. The sink has then taken some front of the text of the
/// lines up to there, and nothing else.
#[tactic(auto, using(crate::proofs::Played::sound_at, crate::proofs::Played::no_world, crate::proofs::Played::grew_none))]
pub fn run_script<V: PassesValues, K: Sink>(
    alloc: Global,
    program: &Program<'_, '_>,
    trace: &mut Trace<'_, K>,
    dumps: bool,
) -> Result<Ran, RunFault>
    requires distinct { AreDistinct program.now.types.now }
    requires sound { StepsOn V.may_pass program.now (first_point program.now.graph.now program.now.script.now) }
    ensures same_sink { trace.new.sink.ghost_name ≡ trace.old.sink.ghost_name }
    ensures runs { ScriptRuns V.may_pass program.now (first_point program.now.graph.now program.now.script.now) dumps (K.taken trace.old.sink.now) trace.old.kept.now.items (tally_of trace.old.elements trace.old.sum trace.old.last.now.items) result (K.taken trace.new.sink.now) (tally_of trace.new.elements trace.new.sum trace.new.last.now.items) }
    ensures grows { Grew (K.taken trace.old.sink.now) (K.taken trace.new.sink.now) }
    ensures cause { HasRunCause (K.faults trace.old.sink.now) (K.faults trace.new.sink.now) result }
{
    let mut world = World::new(alloc, program.graph, program.script)?;
    let ran = run_world::<V, K>(alloc, program, &mut world, trace, dumps);
    world.give_up();
    ran
}
