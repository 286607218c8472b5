//! How canonical functions are answered, up to where a value is lifted or code runs.

ghost use Rattle.std.specs.Prelude.{◌≡◌};
ghost use Rattle.std.specs.Option.{option_copied};
ghost use Rattle.world_parts.specs.Held.{Does, held};
ghost use Rattle.replies.specs.Replies.{may_leave, slot_has_exited, lowered, resource_reply, context_reply, plain_reply, begun, builtin_reply, answered};

use crate::calls::begin_call;
use crate::handles::{resource_drop, resource_new, resource_rep};
use crate::plain::{
    ask_return, backpressure_dec, backpressure_inc, backpressure_set, context_get, context_put,
    task_cancel, task_yield,
};
use crate::sets::{set_drop, set_new, waitable_join};
use crate::subtasks::{subtask_cancel, subtask_drop};
use builtin_kinds::{ContextOp, PlainBuiltin, ResourceOp};
use comp_graph::{BuiltinKind, CanonFunc, Graph, Lift};
use graph_views::{builtin_of, kind_of};
use std::alloc::Global;
use task_table::{Callee, TaskSlot};
use trace_labels::Label;
use world_parts::{Flow, Part, Parts, Stop, same_words};

/// Whether a task is there and has exited.
fn slot_has_exited(slot: Option<&TaskSlot>) -> bool
    ensures { result ≡ slot_has_exited (option_copied slot.entry) }
{
    match slot {
        Some(slot) => slot.has_exited(),
        None => false,
    }
}

/// Whether all is instantiated, so that a task may call canonical functions.
pub fn may_leave(parts: &Parts) -> bool
    ensures { result ≡ may_leave (held parts.now) }
{
    slot_has_exited(parts.tasks.slot(0))
}

/// A task calls the function that the canonical function of a number lowers. The trap is `Reentrant`.
fn call_lowered(
    alloc: Global,
    parts: &mut Parts,
    task: u32,
    canon: u32,
    lift: &Lift,
    words: &[u64],
) -> Part<Flow>
    ensures { Does (lowered task canon lift.now words.now) parts.old result parts.new }
{
    let Ok(passed) = same_words(alloc, words) else {
        return Err(Stop::Memory);
    };
    begin_call(
        alloc,
        parts,
        task,
        canon,
        Callee::Lowered(canon),
        lift.instance,
        kind_of(&lift.options),
        passed,
    )
}

/// A built-in of a resource.
fn resource_reply(
    alloc: Global,
    graph: &Graph<'_>,
    parts: &mut Parts,
    task: u32,
    at: usize,
    canon: u32,
    op: ResourceOp,
    resource: u32,
    words: &[u64],
) -> Part<Flow>
    ensures { Does (resource_reply graph.now task at canon op resource words.now) parts.old result parts.new }
{
    match op {
        ResourceOp::New => resource_new(alloc, parts, task, at, resource, words),
        ResourceOp::Drop => { resource_drop(alloc, graph, parts, task, at, canon, resource, words) }
        ResourceOp::Rep => resource_rep(alloc, parts, task, at, resource, words),
    }
}

/// A built-in of a word of context.
fn context_reply(
    alloc: Global,
    parts: &mut Parts,
    task: u32,
    op: ContextOp,
    number: u32,
    words: &[u64],
) -> Part<Flow>
    ensures { Does (context_reply task op number words.now) parts.old result parts.new }
{
    match op {
        ContextOp::Get => context_get(alloc, parts, task, number),
        ContextOp::Set => context_put(alloc, parts, task, number, words),
    }
}

/// A built-in that names nothing.
fn plain_reply(
    alloc: Global,
    graph: &Graph<'_>,
    parts: &mut Parts,
    task: u32,
    at: usize,
    canon: u32,
    op: PlainBuiltin,
    words: &[u64],
) -> Part<Flow>
    ensures { Does (plain_reply graph.now task at canon op words.now) parts.old result parts.new }
{
    match op {
        PlainBuiltin::TaskCancel => task_cancel(alloc, parts, task),
        PlainBuiltin::BackpressureSet => backpressure_set(alloc, parts, task, at, words),
        PlainBuiltin::BackpressureInc => backpressure_inc(alloc, parts, task, at),
        PlainBuiltin::BackpressureDec => backpressure_dec(alloc, parts, task, at),
        PlainBuiltin::SubtaskCancel { is_async: _ } => subtask_cancel(
            parts, task, at, canon, words,
        ),
        PlainBuiltin::SubtaskDrop => subtask_drop(alloc, parts, task, at, words),
        PlainBuiltin::Yield { cancellable: _ } => task_yield(alloc, graph, parts, task, canon),
        PlainBuiltin::WaitableSetNew => set_new(alloc, parts, task, at),
        PlainBuiltin::WaitableSetDrop => set_drop(alloc, parts, task, at, words),
        PlainBuiltin::WaitableJoin => waitable_join(alloc, parts, task, at, words),
    }
}

/// A built-in. Those that ask for an event of a set, and those of the ends of streams and futures, are answered elsewhere.
fn builtin_reply(
    alloc: Global,
    graph: &Graph<'_>,
    parts: &mut Parts,
    task: u32,
    at: usize,
    canon: u32,
    kind: &BuiltinKind,
    words: &[u64],
) -> Part<Flow>
    ensures { Does (builtin_reply graph.now task at canon kind.now words.now) parts.old result parts.new }
{
    match kind {
        BuiltinKind::Resource { op, resource } => {
            resource_reply(alloc, graph, parts, task, at, canon, *op, *resource, words)
        }
        BuiltinKind::TaskReturn {
            result: _,
            options: _,
        } => ask_return(parts, task),
        BuiltinKind::Plain(op) => plain_reply(alloc, graph, parts, task, at, canon, *op, words),
        BuiltinKind::Context { op, slot } => context_reply(alloc, parts, task, *op, *slot, words),
        BuiltinKind::Wait {
            op: _,
            cancellable: _,
            memory: _,
        } => Err(Stop::Stuck),
        BuiltinKind::End {
            kind: _,
            element: _,
            op: _,
        } => Err(Stop::Stuck),
    }
}

/// A canonical function is called with words by code that runs for a task: its line.
pub fn begin(
    alloc: Global,
    parts: &mut Parts,
    task: u32,
    canon: &CanonFunc,
    words: &[u64],
) -> Part<()>
    ensures { Does (begun task canon.now words.now) parts.old result parts.new }
{
    let Ok(words) = same_words(alloc, words) else {
        return Err(Stop::Memory);
    };
    parts.tell(Label::Do {
        task,
        builtin: builtin_of(canon),
        words,
    })
}

/// A canonical function of a number is answered, which is called with words and whose line is told.
pub fn reply(
    alloc: Global,
    graph: &Graph<'_>,
    parts: &mut Parts,
    task: u32,
    number: u32,
    canon: &CanonFunc,
    words: &[u64],
) -> Part<Flow>
    ensures { Does (answered graph.now task number canon.now words.now) parts.old result parts.new }
{
    match canon {
        CanonFunc::Lower(lower) => {
            call_lowered(alloc, parts, task, number, &lower.get().lift, words)
        }
        CanonFunc::Builtin(builtin) => builtin_reply(
            alloc,
            graph,
            parts,
            task,
            builtin.instance as usize,
            number,
            &builtin.kind,
            words,
        ),
    }
}
