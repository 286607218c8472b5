//! Tasks enter with their arguments.

ghost use Rattle.laid_types.specs.SameTypes.{AreDistinct};
ghost use Rattle.world_parts.specs.Held.{held, Does};
ghost use Rattle.value_parts.specs.Lifting.{FewLent};
ghost use Rattle.value_parts.specs.Coming.{May};
ghost use Rattle.value_moves.specs.Entering.{words_passed, ValuesCome, ArgumentsCome, entered, started_by, Enters};

use crate::lowered::lower_arguments;
use graph_views::lift_of;
use programs::Program;
use std::alloc::Global;
use task_table::{Callee, Words};
use value_parts::lift_arguments;
use world_parts::{Flow, Part, Parts, Rest, Stop, same_words};

/// The words that a task was called with, where a task called it.
fn passed_words(alloc: Global, parts: &Parts, task: u32) -> Part<Words>
    ensures { Does (words_passed task) parts.now result parts.now }
{
    let Some(slot) = parts.tasks.slots.get(task as usize) else {
        return Err(Stop::Stuck);
    };
    let Some(called) = slot.called() else {
        return Err(Stop::Stuck);
    };
    match same_words(alloc, called.words.as_slice()) {
        Ok(words) => Ok(words),
        Err(_) => Err(Stop::Memory),
    }
}

/// The words of the arguments of a task, which are lowered into its instance.
fn values_of(alloc: Global, program: &Program<'_, '_>, parts: &mut Parts, task: u32) -> Part<Words>
    requires distinct { AreDistinct program.now.types.now }
    requires lends { FewLent (held parts.old) }
    ensures { May (ValuesCome program.now task (held parts.old)) result parts.new }
{
    let value = lift_arguments(alloc, program, parts, task)?;
    lower_arguments(alloc, program, parts, task, &value)
}

/// The words with which the core function of a task starts.
fn arguments_of(
    alloc: Global,
    program: &Program<'_, '_>,
    parts: &mut Parts,
    task: u32,
    callee: Callee,
) -> Part<Words>
    requires distinct { AreDistinct program.now.types.now }
    requires lends { FewLent (held parts.old) }
    ensures { May (ArgumentsCome program.now task callee (held parts.old)) result parts.new }
{
    match callee {
        Callee::Destroys(_) => passed_words(alloc, parts, task),
        Callee::Init => values_of(alloc, program, parts, task),
        Callee::Export(_) => values_of(alloc, program, parts, task),
        Callee::Lowered(_) => values_of(alloc, program, parts, task),
    }
}

/// A task enters, by its line, and is what it runs.
fn enter_callee(parts: &mut Parts, task: u32) -> Part<Callee>
    ensures { Does (entered task) parts.old result parts.new }
{
    task_turns::enter(parts, task)?;
    parts.callee_of(task)
}

/// The core function of a task is to start with words.
fn start_by(
    program: &Program<'_, '_>,
    parts: &mut Parts,
    callee: Callee,
    words: Words,
) -> Part<Flow>
    ensures { Does (started_by program.now callee words) parts.old result parts.new }
{
    let Some(lift) = lift_of(program.graph, callee) else {
        return Err(Stop::Stuck);
    };
    parts.rest = Rest::Runs;
    Ok(Flow::Starts(lift.core, words))
}

/// A task enters, by its line: its arguments are lifted from its caller as they are now and lowered into its own instance, and its core function is
/// to start with them (Component Model, CanonicalABI.md, `canon lift`). A destructor is passed the words of its call.
///
/// # Errors
///
/// The traps of lifting and of lowering, `NoFuel` and `Memory`; and `Stuck` where something is not there.
pub(crate) fn enter_with(
    alloc: Global,
    program: &Program<'_, '_>,
    parts: &mut Parts,
    task: u32,
) -> Part<Flow>
    requires distinct { AreDistinct program.now.types.now }
    requires lends { FewLent (held parts.old) }
    ensures { May (Enters program.now task (held parts.old)) result parts.new }
{
    let callee = enter_callee(parts, task)?;
    let words = arguments_of(alloc, program, parts, task, callee)?;
    start_by(program, parts, callee, words)
}
