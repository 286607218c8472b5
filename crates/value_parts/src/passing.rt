//! Arguments and results.

ghost use Rattle.std.specs.Prelude.{◌≡◌, ◌≤◌};
ghost use Rattle.laid_types.specs.SameTypes.{AreDistinct};
ghost use Rattle.syntax_trees.specs.declared.types.ValType.{out-ValType};
ghost use Rattle.value_lift.specs.Lifting.{tuple_case};
ghost use Rattle.world_parts.specs.Held.{Does, held};
ghost use Rattle.value_parts.specs.Lifting.{FewLent};
ghost use Rattle.value_parts.specs.Passing.{passed_limit, host_arguments, arguments_passed, guest_arguments, arguments_lifted, typed_result, result_of_type, result_lifted, ended_lifted, returned_lifted};

use crate::lifting::{Origin, lift_passed};
use comp_graph::CanonFunc;
use graph_views::{canon_at, instance_of, lift_of, options_at, options_of};
use laid_types::NumberedType;
use programs::{Program, same_values};
use std::alloc::Global;
use syntax_trees::{ValType, Value};
use task_table::Caller;
use trace_labels::TypedValue;
use value_lift::LiftOf;
use world_parts::{Part, Parts, Stop, same_words};

/// How many core values arguments have at most that are passed as such: fewer where the caller does not wait.
fn passed_limit(is_async: bool) -> usize
    ensures value { result ≡ passed_limit is_async }
    ensures limit { result ≤ 16 }
{
    if is_async { 4 } else { 16 }
}

/// Whether a type is one of tuples.
fn is_tuple(t: &NumberedType<'_>) -> bool
    ensures { result ≡ tuple_case (out-ValType t.now.val_type) }
{
    match t.laid().val_type() {
        ValType::Tuple(_) => true,
        _ => false,
    }
}

/// The arguments of the script's call of a number.
fn host_arguments(alloc: Global, program: &Program<'_, '_>, parts: &Parts, call: u32) -> Part<Value>
    ensures { Does (host_arguments program.now call) parts.now result parts.now }
{
    let Some(values) = program.host_values(call) else {
        return Err(Stop::Stuck);
    };
    match same_values(alloc, values) {
        Ok(values) => Ok(Value::Record(values)),
        Err(_) => Err(Stop::Memory),
    }
}

/// The arguments of a task, of this type, that another one called by a canonical function with these words.
#[tactic(auto, unfolding(crate::specs::Passing::arguments_passed), using(world_parts::proofs::Thens::thens))]
fn pass_arguments(
    alloc: Global,
    parts: &mut Parts,
    task: u32,
    canon: &CanonFunc,
    t: &NumberedType<'_>,
    words: &[u64],
) -> Part<Value>
    requires distinct { AreDistinct t.now.types }
    requires lends { FewLent (held parts.old) }
    ensures { Does (arguments_passed task canon.now t.now words.now) parts.old result parts.new }
{
    if !is_tuple(t) {
        return Err(Stop::Stuck);
    }
    let options = options_of(canon);
    let from = Origin {
        at: instance_of(canon) as usize,
        callee: task,
        memory: parts.memory_of(&options),
    };
    let limit = passed_limit(options.is_async);
    lift_passed(alloc, parts, from, LiftOf::Arguments, limit, t, words)
}

/// The arguments of a task that another one called by the canonical function of a number with these words.
fn guest_arguments(
    alloc: Global,
    program: &Program<'_, '_>,
    parts: &mut Parts,
    task: u32,
    number: u32,
    t: &NumberedType<'_>,
    words: &[u64],
) -> Part<Value>
    requires distinct { AreDistinct t.now.types }
    requires lends { FewLent (held parts.old) }
    ensures { Does (guest_arguments program.now.graph.now task number t.now words.now) parts.old result parts.new }
{
    let Some(canon) = canon_at(program.graph, number) else {
        return Err(Stop::Stuck);
    };
    pass_arguments(alloc, parts, task, canon, t, words)
}

/// The arguments of a task as one tuple (Component Model, CanonicalABI.md, `canon lift`): those that the script gives; or those that the task
/// passed that called it, lifted from its instance and its memory as they are now. Borrows are lent for the call.
///
/// # Errors
///
/// The traps of lifting, behind what was lent and has left the table before. `Stuck` where nobody called the task, where it runs no function
/// that is called with values, as a destructor, or where something is not there. `Memory`.
#[tactic(auto, unfolding(crate::specs::Passing::arguments_lifted), using(world_parts::proofs::Thens::thens, crate::proofs::Types::params_distinct))]
pub fn lift_arguments(
    alloc: Global,
    program: &Program<'_, '_>,
    parts: &mut Parts,
    task: u32,
) -> Part<Value>
    requires distinct { AreDistinct program.now.types.now }
    requires lends { FewLent (held parts.old) }
    ensures { Does (arguments_lifted program.now task) parts.old result parts.new }
{
    let Some(slot) = parts.tasks.slots.get(task as usize) else {
        return Err(Stop::Stuck);
    };
    let Some(t) = program.params_of(slot.callee) else {
        return Err(Stop::Stuck);
    };
    match &slot.caller {
        Caller::Nobody => Err(Stop::Stuck),
        Caller::Host(call) => host_arguments(alloc, program, parts, *call),
        Caller::Guest(called) => {
            let canon = called.canon;
            let Ok(words) = same_words(alloc, called.words.as_slice()) else {
                return Err(Stop::Memory);
            };
            guest_arguments(alloc, program, parts, task, canon, &t, words.as_slice())
        }
    }
}

/// The result of a task, of this type, with its type.
#[tactic(auto, unfolding(crate::specs::Passing::result_of_type), using(world_parts::proofs::Thens::thens))]
fn lift_typed(
    alloc: Global,
    parts: &mut Parts,
    from: Origin,
    limit: usize,
    t: &NumberedType<'_>,
    words: &[u64],
) -> Part<Option<TypedValue>>
    requires distinct { AreDistinct t.now.types }
    requires lends { FewLent (held parts.old) }
    requires limit { limit ≤ 16 }
    ensures { Does (result_of_type from limit t.now words.now) parts.old result parts.new }
{
    let value = lift_passed(alloc, parts, from, LiftOf::Value, limit, t, words)?;
    match t.laid().share() {
        Ok(val_type) => Ok(Some(TypedValue { value, val_type })),
        Err(_) => Err(Stop::Memory),
    }
}

/// The result of a task, of the type of this number, if it has one, by words.
#[tactic(auto, unfolding(crate::specs::Passing::result_lifted), using(world_parts::proofs::Thens::thens, crate::proofs::Types::type_distinct))]
fn lift_result(
    alloc: Global,
    program: &Program<'_, '_>,
    parts: &mut Parts,
    task: u32,
    number: Option<usize>,
    memory: Option<usize>,
    limit: usize,
    words: &[u64],
) -> Part<Option<TypedValue>>
    requires distinct { AreDistinct program.now.types.now }
    requires lends { FewLent (held parts.old) }
    requires limit { limit ≤ 16 }
    ensures { Does (result_lifted program.now task number memory limit words.now) parts.old result parts.new }
{
    let Some(number) = number else {
        return Ok(None);
    };
    let Some(t) = program.types.numbered(number) else {
        return Err(Stop::Stuck);
    };
    let at = parts.instance_of(task)?;
    let from = Origin {
        at,
        callee: task,
        memory,
    };
    lift_typed(alloc, parts, from, limit, &t, words)
}

/// The result of a task that is lifted without `async`, with its type, where its function has one (Component Model, CanonicalABI.md, `canon lift`):
/// of the words with which its core function ended.
///
/// # Errors
///
/// The traps of lifting. `Stuck` where something is not there. `Memory`.
#[tactic(auto, unfolding(crate::specs::Passing::ended_lifted), using(world_parts::proofs::Thens::thens))]
pub fn lift_ended(
    alloc: Global,
    program: &Program<'_, '_>,
    parts: &mut Parts,
    task: u32,
    words: &[u64],
) -> Part<Option<TypedValue>>
    requires distinct { AreDistinct program.now.types.now }
    requires lends { FewLent (held parts.old) }
    ensures { Does (ended_lifted program.now task words.now) parts.old result parts.new }
{
    let callee = parts.callee_of(task)?;
    let Some(lift) = lift_of(program.graph, callee) else {
        return Err(Stop::Stuck);
    };
    let memory = parts.memory_of(&lift.options);
    let number = program.returned_of(callee);
    lift_result(alloc, program, parts, task, number, memory, 1, words)
}

/// The result that a task gives `task.return`, with its type, if that is of one (Component Model, CanonicalABI.md, `canon task.return`): of the
/// words of the call of the canonical function of this number.
///
/// # Errors
///
/// Those of `lift_ended`.
#[tactic(auto, unfolding(crate::specs::Passing::returned_lifted), using(world_parts::proofs::Thens::thens))]
pub fn lift_returned(
    alloc: Global,
    program: &Program<'_, '_>,
    parts: &mut Parts,
    task: u32,
    canon: u32,
) -> Part<Option<TypedValue>>
    requires distinct { AreDistinct program.now.types.now }
    requires lends { FewLent (held parts.old) }
    ensures { Does (returned_lifted program.now task canon) parts.old result parts.new }
{
    let words = parts.words(alloc, task)?;
    let memory = parts.memory_of(&options_at(program.graph, canon));
    let number = program.value_of(canon);
    lift_result(
        alloc,
        program,
        parts,
        task,
        number,
        memory,
        16,
        words.as_slice(),
    )
}
