//! Arguments and results that are lowered.

ghost use Rattle.std.specs.Prelude.{◌≡◌, ◌≤◌, length, Some};
ghost use Rattle.syntax_trees.specs.Flat.{flat};
ghost use Rattle.copy_engine.specs.declared.lower_values.Target.TheVariants as targets;
ghost use Rattle.world_parts.specs.Held.{Does, held};
ghost use Rattle.value_parts.specs.Coming.{May};
ghost use Rattle.value_moves.specs.Lowering.{destination_of};
ghost use Rattle.value_moves.specs.Lowered.{arguments_target, LowersPassed, arguments_entered, LowersArguments, place_in, last_place, result_target, LowersBack, LowersKept, LowersResult};

use crate::borrowing::count_borrows;
use crate::lowering::{Destination, destination_at, lower_into};
use comp_graph::Options;
use copy_engine::Target;
use graph_views::{canon_at, instance_of, lift_of, options_of};
use laid_types::NumberedType;
use programs::Program;
use std::alloc::Global;
use syntax_trees::Value;
use task_table::{Callee, Caller, Words};
use value_parts::takes_more;
use world_parts::{Part, Parts, Stop, same_words};

/// Where values go that are lowered into an instance with these options for a task.
fn destination_of(parts: &Parts, instance: u32, task: u32, options: &Options) -> Destination
    ensures { result ≡ destination_of instance task options.now (held parts.now) }
{
    let memory = parts.memory_of(options);
    destination_at(&parts.store, instance, task, memory, options)
}

/// Where arguments of a type go: into core values, of which there are at most 16, or to a new place.
fn arguments_target(t: &NumberedType<'_>) -> Target
    ensures value { result ≡ arguments_target t.now.val_type }
    ensures few { result ≡ targets.Flat → length (flat t.now.val_type) ≤ 16 }
{
    if takes_more(t, 16) {
        Target::NewPlace
    } else {
        Target::Flat
    }
}

/// Lowers the arguments of a task into the instance of the function that it runs.
fn lower_passed(
    alloc: Global,
    program: &Program<'_, '_>,
    parts: &mut Parts,
    task: u32,
    value: &Value,
) -> Part<Words>
    ensures { May (LowersPassed program.now task value.now (held parts.old)) result parts.new }
{
    let callee = parts.callee_of(task)?;
    let Some(lift) = lift_of(program.graph, callee) else {
        return Err(Stop::Stuck);
    };
    let Some(t) = program.params_of(callee) else {
        return Err(Stop::Stuck);
    };
    let to = destination_of(parts, lift.instance, task, &lift.options);
    let target = arguments_target(&t);
    lower_into(alloc, program, parts, to, value, &t, target)
}

/// Counts the borrow handles of arguments that are lowered to these words.
fn enter_arguments(
    program: &Program<'_, '_>,
    parts: &mut Parts,
    task: u32,
    value: &Value,
    words: Words,
) -> Part<Words>
    ensures { Does (arguments_entered program.now task value.now words) parts.old result parts.new }
{
    let at = parts.instance_of(task)?;
    let Some(home) = program.resources_of(at) else {
        return Err(Stop::Stuck);
    };
    count_borrows(parts, home, task, value)?;
    Ok(words)
}

/// Lowers the arguments of a task into the instance of the function that it runs (Component Model, CanonicalABI.md, `canon lift`), and answers the
/// words with which its core function starts. The borrow handles that it gets count for it.
///
/// # Errors
///
/// The traps of lowering, `NoFuel` and `Memory`; and `Stuck` where the task runs no function that is called with values, has not entered, or
/// something is not there.
pub(crate) fn lower_arguments(
    alloc: Global,
    program: &Program<'_, '_>,
    parts: &mut Parts,
    task: u32,
    value: &Value,
) -> Part<Words>
    ensures { May (LowersArguments program.now task value.now (held parts.old)) result parts.new }
{
    let words = lower_passed(alloc, program, parts, task, value)?;
    enter_arguments(program, parts, task, value, words)
}

/// The place that a word is, where it is a 32-bit one.
fn place_in(word: u64) -> Option<Target>
    ensures { result ≡ place_in word }
{
    if word < 4_294_967_296 {
        Some(Target::Place(word as u32))
    } else {
        None
    }
}

/// The place that is the last of some words.
fn last_place(words: &[u64]) -> Option<Target>
    ensures { result ≡ last_place words.now }
{
    match words.last() {
        Some(word) => place_in(*word),
        None => None,
    }
}

/// Where a result of a type goes, by the words of the call: into core values, of which there is one at most, or to the place that is the last word,
/// where the caller does not wait or more core values stand for the type.
fn result_target(is_async: bool, t: &NumberedType<'_>, words: &[u64]) -> Option<Target>
    ensures value { result ≡ result_target is_async t.now.val_type words.now }
    ensures few { result ≡ Some targets.Flat → length (flat t.now.val_type) ≤ 16 }
{
    if is_async || takes_more(t, 1) {
        last_place(words)
    } else {
        Some(Target::Flat)
    }
}

/// Lowers the result of a task that runs this into the instance of the task that called it, by the canonical function of this number with these
/// words.
fn lower_back(
    alloc: Global,
    program: &Program<'_, '_>,
    parts: &mut Parts,
    value: &Value,
    callee: Callee,
    by: u32,
    number: u32,
    words: &[u64],
) -> Part<Words>
    ensures { May (LowersBack program.now value.now callee by number words.now (held parts.old)) result parts.new }
{
    let Some(canon) = canon_at(program.graph, number) else {
        return Err(Stop::Stuck);
    };
    let Some(number) = program.returned_of(callee) else {
        return Err(Stop::Stuck);
    };
    let Some(t) = program.types.numbered(number) else {
        return Err(Stop::Stuck);
    };
    let options = options_of(canon);
    let Some(target) = result_target(options.is_async, &t, words) else {
        return Err(Stop::Stuck);
    };
    let to = destination_of(parts, instance_of(canon), by, &options);
    lower_into(alloc, program, parts, to, value, &t, target)
}

/// The same, where the core values are kept for the caller.
fn lower_kept(
    alloc: Global,
    program: &Program<'_, '_>,
    parts: &mut Parts,
    task: u32,
    value: &Value,
    callee: Callee,
    by: u32,
    number: u32,
    words: &[u64],
) -> Part<()>
    ensures { May (LowersKept program.now task value.now callee by number words.now (held parts.old)) result parts.new }
{
    let results = lower_back(alloc, program, parts, value, callee, by, number, words)?;
    parts.keep_result(task, results)
}

/// Lowers the result of a task into the instance of its caller, where that is a task, for which its core values are kept (Component Model,
/// CanonicalABI.md, `canon lower`). The script takes a result by its line.
///
/// # Errors
///
/// The traps of lowering, `NoFuel` and `Memory`; and `Stuck` where the function of the task has no result, or something is not there.
pub(crate) fn lower_result(
    alloc: Global,
    program: &Program<'_, '_>,
    parts: &mut Parts,
    task: u32,
    value: &Value,
) -> Part<()>
    ensures { May (LowersResult program.now task value.now (held parts.old)) result parts.new }
{
    let Some(slot) = parts.tasks.slots.get(task as usize) else {
        return Err(Stop::Stuck);
    };
    let callee = slot.callee;
    match &slot.caller {
        Caller::Nobody => Ok(()),
        Caller::Host(_) => Ok(()),
        Caller::Guest(called) => {
            let by = called.by;
            let canon = called.canon;
            let Ok(words) = same_words(alloc, called.words.as_slice()) else {
                return Err(Stop::Memory);
            };
            lower_kept(
                alloc,
                program,
                parts,
                task,
                value,
                callee,
                by,
                canon,
                words.as_slice(),
            )
        }
    }
}
