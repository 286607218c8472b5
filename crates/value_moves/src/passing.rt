//! What a move leaves to be passed is passed.

ghost use Rattle.std.specs.Prelude.{◌≡◌};
ghost use Rattle.laid_types.specs.SameTypes.{AreDistinct};
ghost use Rattle.world_parts.specs.Held.{held, Does, Tells};
ghost use Rattle.value_parts.specs.Lifting.{FewLent};
ghost use Rattle.value_parts.specs.Coming.{May};
ghost use Rattle.value_moves.specs.Passing.{lift_at, async_ended, SyncEnds, KindEnds, FuncEnds, call_at, ReturnsBy, PassesFor, Passes};

use crate::entering::enter_with;
use crate::resolving::{end_sync, return_with};
use crate::transferring::transfer;
use comp_graph::Lift;
use entry_gate::Kind;
use graph_views::lift_of;
use programs::Program;
use std::alloc::Global;
use task_turns::{end, loop_word};
use value_parts::{PassesValues, Passing};
use world_parts::{Flow, Part, Parts, Rest, Stop, word_in};

/// How the function is lifted that a task runs.
fn lift_at(program: &Program<'_, '_>, parts: &Parts, task: u32) -> Part<Lift>
    ensures { Tells (lift_at program.now task) parts.now result }
{
    let callee = parts.callee_of(task)?;
    match lift_of(program.graph, callee) {
        Some(lift) => Ok(lift),
        None => Err(Stop::Stuck),
    }
}

/// The core function or the callback of a task that is lifted with `async` has ended with these words: it exits, or blocks in its loop
/// (Component Model, CanonicalABI.md, `canon lift`, `unpack_callback_result`).
fn end_async(parts: &mut Parts, task: u32, kind: Kind, words: &[u64]) -> Part<Flow>
    ensures { Does (async_ended task kind words.now) parts.old result parts.new }
{
    match kind {
        Kind::Sync => Err(Stop::Stuck),
        Kind::Callback => {
            let Some(word) = word_in(words, 0) else {
                return Err(Stop::Stuck);
            };
            loop_word(parts, task, word)
        }
        Kind::Stackful => end(parts, task),
    }
}

/// The core function of a task that is lifted without `async` has ended with these words.
fn end_sync_by(
    alloc: Global,
    program: &Program<'_, '_>,
    parts: &mut Parts,
    task: u32,
    words: &[u64],
) -> Part<Flow>
    requires distinct { AreDistinct program.now.types.now }
    requires lends { FewLent (held parts.old) }
    ensures { May (SyncEnds program.now task words.now (held parts.old)) result parts.new }
{
    let lift = lift_at(program, parts, task)?;
    end_sync(alloc, program, parts, task, lift.options.post_return, words)?;
    Ok(Flow::Rests)
}

/// The core function or the callback of a task of this kind has ended with these words.
fn end_kind(
    alloc: Global,
    program: &Program<'_, '_>,
    parts: &mut Parts,
    task: u32,
    kind: Kind,
    words: &[u64],
) -> Part<Flow>
    requires distinct { AreDistinct program.now.types.now }
    requires lends { FewLent (held parts.old) }
    ensures { May (KindEnds program.now task words.now kind (held parts.old)) result parts.new }
{
    match kind {
        Kind::Sync => end_sync_by(alloc, program, parts, task, words),
        Kind::Callback => end_async(parts, task, Kind::Callback, words),
        Kind::Stackful => end_async(parts, task, Kind::Stackful, words),
    }
}

/// The core function or the callback of a task has ended with these words.
fn end_func(
    alloc: Global,
    program: &Program<'_, '_>,
    parts: &mut Parts,
    task: u32,
    words: &[u64],
) -> Part<Flow>
    requires distinct { AreDistinct program.now.types.now }
    requires lends { FewLent (held parts.old) }
    ensures { May (FuncEnds program.now task words.now (held parts.old)) result parts.new }
{
    let kind = parts.kind_of(task)?;
    end_kind(alloc, program, parts, task, kind, words)
}

/// The canonical function at whose call the acting task is.
fn call_at(rest: Rest) -> Option<u32>
    ensures { result ≡ call_at rest }
{
    match rest {
        Rest::Calls(number) => Some(number),
        Rest::Instantiates(_) => None,
        Rest::Free => None,
        Rest::Arrives => None,
        Rest::Goes => None,
        Rest::Resumes => None,
        Rest::Back => None,
        Rest::Runs => None,
        Rest::Leaves => None,
    }
}

/// A task returns by the canonical function of a number.
fn return_by(
    alloc: Global,
    program: &Program<'_, '_>,
    parts: &mut Parts,
    task: u32,
    canon: Option<u32>,
) -> Part<Flow>
    requires distinct { AreDistinct program.now.types.now }
    requires lends { FewLent (held parts.old) }
    ensures { May (ReturnsBy program.now task canon (held parts.old)) result parts.new }
{
    match canon {
        Some(canon) => return_with(alloc, program, parts, task, canon),
        None => Err(Stop::Stuck),
    }
}

/// Passes what is to be passed for a task.
fn pass_for(
    alloc: Global,
    program: &Program<'_, '_>,
    parts: &mut Parts,
    task: u32,
    passing: Passing,
) -> Part<Flow>
    requires distinct { AreDistinct program.now.types.now }
    requires lends { FewLent (held parts.old) }
    ensures { May (PassesFor program.now task passing (held parts.old)) result parts.new }
{
    match passing {
        Passing::Nothing => Ok(Flow::Rests),
        Passing::Arguments => enter_with(alloc, program, parts, task),
        Passing::Returned => return_by(alloc, program, parts, task, call_at(parts.rest)),
        Passing::Ended(words) => end_func(alloc, program, parts, task, words.as_slice()),
        Passing::Elements(copying) => transfer(alloc, program, parts, task, copying),
    }
}

/// What passes values by lifting and lowering them.
pub struct ValueMoves;

impl PassesValues for ValueMoves {
    ghost may_pass = { Passes };

    fn pass(
        alloc: Global,
        program: &Program<'_, '_>,
        parts: &mut Parts,
        passing: Passing,
    ) -> Part<Flow> {
        let task = parts.acting()?;
        pass_for(alloc, program, parts, task, passing)
    }
}
