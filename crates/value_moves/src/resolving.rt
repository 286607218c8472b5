//! Tasks resolve with their results.

ghost use Rattle.std.specs.Prelude.{◌≡◌, IfOk};
ghost use Rattle.laid_types.specs.SameTypes.{AreDistinct};
ghost use Rattle.world_parts.specs.Held.{held, Tells};
ghost use Rattle.value_parts.specs.Lifting.{FewLent};
ghost use Rattle.value_parts.specs.Coming.{May};
ghost use Rattle.value_moves.specs.Resolving.{PassesOn, Resolves, ResolvesEnded, PostReturnsTo, Ends, type_by, return_tested, ReturnResolves, TestedResolves, Returns};

use crate::lowered::lower_result;
use comp_graph::FuncRef;
use faults::Memory;
use graph_views::options_at;
use laid_types::NumberedType;
use programs::{Program, same_value};
use replies::return_value;
use return_replies::check_return;
use std::alloc::Global;
use trace_labels::TypedValue;
use value_parts::{lift_ended, lift_returned};
use world_parts::{Flow, Part, Parts, Stop};
use world_stacks::post_return;

/// The same result.
fn same_result(alloc: Global, value: &Option<TypedValue>) -> Result<Option<TypedValue>, Memory>
    ensures { IfOk result (λ same. same ≡ value.now) }
{
    match value {
        Some(value) => Ok(Some(TypedValue {
            value: same_value(alloc, &value.value)?,
            val_type: value.val_type.share()?,
        })),
        None => Ok(None),
    }
}

/// Lowers a result into the caller of a task, where there is one and a task called.
fn pass_on(
    alloc: Global,
    program: &Program<'_, '_>,
    parts: &mut Parts,
    task: u32,
    value: &Option<TypedValue>,
) -> Part<()>
    ensures { May (PassesOn program.now task value.now (held parts.old)) result parts.new }
{
    match value {
        Some(value) => lower_result(alloc, program, parts, task, &value.value),
        None => Ok(()),
    }
}

/// A task resolves with a result, by its line.
fn resolve(
    alloc: Global,
    program: &Program<'_, '_>,
    parts: &mut Parts,
    task: u32,
    value: Option<TypedValue>,
) -> Part<()>
    ensures { May (Resolves program.now task value (held parts.old)) result parts.new }
{
    let Ok(told) = same_result(alloc, &value) else {
        return Err(Stop::Memory);
    };
    return_value(parts, task, told)?;
    pass_on(alloc, program, parts, task, &value)
}

/// A task resolves that is lifted without `async`, whose core function has ended with these words.
fn resolve_ended(
    alloc: Global,
    program: &Program<'_, '_>,
    parts: &mut Parts,
    task: u32,
    words: &[u64],
) -> Part<()>
    requires distinct { AreDistinct program.now.types.now }
    requires lends { FewLent (held parts.old) }
    ensures { May (ResolvesEnded program.now task words.now (held parts.old)) result parts.new }
{
    let value = lift_ended(alloc, program, parts, task, words)?;
    resolve(alloc, program, parts, task, value)
}

/// The post-return of a task's function runs, where it has one.
#[tactic(auto, using(crate::proofs::Settling::settled))]
fn settle(
    alloc: Global,
    program: &Program<'_, '_>,
    parts: &mut Parts,
    task: u32,
    post: Option<FuncRef>,
    words: &[u64],
) -> Part<()>
    ensures { May (PostReturnsTo program.now task post words.now (held parts.old)) result parts.new }
{
    post_return(alloc, program.graph, parts, task, post, words)
}

/// The core function of a task that is lifted without `async` has ended with these words: its result is lifted, it has returned by its line, the
/// result is lowered into the task that called it, its post-return runs, and it is to exit (Component Model, CanonicalABI.md, `canon lift`).
///
/// # Errors
///
/// The traps of lifting and of lowering, `BorrowLives`, and those of core code; `NoFuel` and `Memory`; and `Stuck` where something is not there.
pub(crate) fn end_sync(
    alloc: Global,
    program: &Program<'_, '_>,
    parts: &mut Parts,
    task: u32,
    post: Option<FuncRef>,
    words: &[u64],
) -> Part<()>
    requires distinct { AreDistinct program.now.types.now }
    requires lends { FewLent (held parts.old) }
    ensures { May (Ends program.now task post words.now (held parts.old)) result parts.new }
{
    resolve_ended(alloc, program, parts, task, words)?;
    settle(alloc, program, parts, task, post, words)
}

/// The type of a number, where it is there.
fn type_by<'g>(program: &Program<'g, '_>, number: Option<usize>) -> Option<NumberedType<'g>>
    ensures { result ≡ type_by program.now number }
{
    let types = program.types;
    match number {
        Some(number) => types.numbered(number),
        None => None,
    }
}

/// Tests what `task.return` by the canonical function of a number returns.
#[tactic(auto, using(world_parts::proofs::Thens::thens, crate::proofs::Types::are_told))]
fn test_return(program: &Program<'_, '_>, parts: &Parts, task: u32, canon: u32) -> Part<()>
    requires distinct { AreDistinct program.now.types.now }
    ensures { Tells (return_tested program.now task canon) parts.now result }
{
    let callee = parts.callee_of(task)?;
    let given = type_by(program, program.value_of(canon));
    let wanted = type_by(program, program.returned_of(callee));
    check_return(
        program.graph,
        parts,
        task,
        &options_at(program.graph, canon),
        given,
        wanted,
    )
}

/// A task resolves by `task.return`, once that is tested.
fn resolve_returned(
    alloc: Global,
    program: &Program<'_, '_>,
    parts: &mut Parts,
    task: u32,
    canon: u32,
) -> Part<()>
    requires distinct { AreDistinct program.now.types.now }
    requires lends { FewLent (held parts.old) }
    ensures { May (ReturnResolves program.now task canon (held parts.old)) result parts.new }
{
    let value = lift_returned(alloc, program, parts, task, canon)?;
    resolve(alloc, program, parts, task, value)
}

/// A task resolves by `task.return`.
fn resolve_tested(
    alloc: Global,
    program: &Program<'_, '_>,
    parts: &mut Parts,
    task: u32,
    canon: u32,
) -> Part<()>
    requires distinct { AreDistinct program.now.types.now }
    requires lends { FewLent (held parts.old) }
    ensures { May (TestedResolves program.now task canon (held parts.old)) result parts.new }
{
    test_return(program, parts, task, canon)?;
    resolve_returned(alloc, program, parts, task, canon)
}

/// A task returns the result of the words that it keeps, by the canonical function of a number: type and options are tested, the result is lifted,
/// the task has returned by its line, the result is lowered into the task that called it, and the call is answered (Component Model,
/// CanonicalABI.md, `canon task.return`).
///
/// # Errors
///
/// The traps `WrongResult` and `WrongOptions`, those of lifting, `Resolved` and `BorrowLives`, and those of lowering; `NoFuel` and `Memory`; and
/// `Stuck` where something is not there.
pub(crate) fn return_with(
    alloc: Global,
    program: &Program<'_, '_>,
    parts: &mut Parts,
    task: u32,
    canon: u32,
) -> Part<Flow>
    requires distinct { AreDistinct program.now.types.now }
    requires lends { FewLent (held parts.old) }
    ensures { May (Returns program.now task canon (held parts.old)) result parts.new }
{
    resolve_tested(alloc, program, parts, task, canon)?;
    parts.answer_none(alloc, task)
}
