//! The items of a script.

ghost use Rattle.world_parts.specs.Held.{Does};
ghost use Rattle.world_parts.specs.Turning.{call_taken, call_cancelled};

use crate::standing::{count_call, may_cancel, task_of_call};
use crate::subtasks::cancel;
use entry_gate::Kind;
use std::alloc::Global;
use syntax_trees::{Name, Seq};
use task_table::{Callee, Caller, TaskSlot};
use trace_labels::{Label, TypedValue};
use world_parts::{Flow, Part, Parts, Rest, Stop, number_behind};

/// The script's next call makes a task that runs the export of a number, in an instance, with arguments.
#[tactic(auto, unfolding(world_parts::specs::Turning::call_taken), using(world_parts::proofs::Thens::thens))]
pub fn take_call(
    alloc: Global,
    parts: &mut Parts,
    export: usize,
    instance: usize,
    kind: Kind,
    name: Name,
    args: Seq<TypedValue>,
) -> Part<Flow>
    ensures { Does (call_taken export instance kind name args) parts.old result parts.new }
{
    parts.spend()?;
    parts.take_item()?;
    let task = parts.next_task()?;
    let Some(call) = number_behind(parts.tasks.calls.len()) else {
        return Err(Stop::Memory);
    };
    parts.tell(Label::Take {
        call,
        task,
        name,
        args,
    })?;
    let slot = TaskSlot::new(
        alloc,
        instance,
        kind,
        Callee::Export(export),
        Caller::Host(call),
    );
    parts.make_task(slot)?;
    count_call(parts, task)?;
    parts.chain_up(task)?;
    parts.rest = Rest::Arrives;
    Ok(Flow::Rests)
}

/// The script's call of a number is cancelled, unless its task has resolved, or was asked to be before.
#[tactic(auto, unfolding(world_parts::specs::Turning::call_cancelled), using(world_parts::proofs::Thens::thens))]
pub fn cancel_call(parts: &mut Parts, call: u32) -> Part<Flow>
    ensures { Does (call_cancelled call) parts.old result parts.new }
{
    parts.spend()?;
    parts.take_item()?;
    let Some(task) = task_of_call(parts, call) else {
        return Err(Stop::Stuck);
    };
    parts.tell(Label::Cancel { call })?;
    let may = may_cancel(parts, task)?;
    if may {
        cancel(parts, task, Rest::Free)
    } else {
        parts.rest = Rest::Free;
        Ok(Flow::Rests)
    }
}
