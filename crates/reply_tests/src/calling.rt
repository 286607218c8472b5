//! Calls of canonical functions, and what comes to tasks that go on.

use crate::setting::let_in;
use comp_graph::{Builtin, BuiltinKind, CanonFunc, Graph};
use copy_replies::end_reply;
use event_replies::{deliver, poll, receive_cancel, receive_none, set_wait};
use graph_views::canon_at;
use replies::reply;
use std::alloc::Global;
use task_turns::resume;
use world_parts::{Flow, Part, Parts, Stop, same_words};

/// A built-in of a number is called by a task.
fn call_builtin(
    alloc: Global,
    graph: &Graph<'_>,
    parts: &mut Parts,
    task: u32,
    number: u32,
    canon: &CanonFunc,
    builtin: &Builtin,
    words: &[u64],
) -> Part<Flow> {
    match &builtin.kind {
        BuiltinKind::Wait { op, .. } => {
            let at = builtin.instance as usize;
            set_wait(alloc, graph, parts, task, at, number, *op, words)
        }
        BuiltinKind::End { .. } => {
            let types = graph.types().canons.as_slice();
            end_reply(alloc, graph, types, parts, task, number, words)
        }
        _ => reply(alloc, graph, parts, task, number, canon, words),
    }
}

/// The canonical function of a number is called by a task, whose slot keeps the words.
pub(crate) fn call(
    alloc: Global,
    graph: &Graph<'_>,
    parts: &mut Parts,
    task: u32,
    number: u32,
    words: &[u64],
) -> Part<Flow> {
    let Ok(kept) = same_words(alloc, words) else {
        return Err(Stop::Memory);
    };
    parts.set_words(task, kept)?;
    let Some(canon) = canon_at(graph, number) else {
        return Err(Stop::Stuck);
    };
    match canon {
        CanonFunc::Lower(_) => reply(alloc, graph, parts, task, number, canon, words),
        CanonFunc::Builtin(builtin) => {
            call_builtin(alloc, graph, parts, task, number, canon, builtin, words)
        }
    }
}

/// The acting task, which was blocked, goes on, and its event comes to it.
pub(crate) fn resumed(alloc: Global, graph: &Graph<'_>, parts: &mut Parts) -> Part<Flow> {
    let task = parts.acting()?;
    let at = parts.instance_of(task)?;
    match resume(alloc, parts)? {
        Flow::Delivers(receiver, set) => deliver(alloc, graph, parts, task, at, receiver, set),
        Flow::Polls(receiver, set) => poll(alloc, graph, parts, task, at, receiver, set),
        Flow::HearsNone(receiver) => receive_none(alloc, graph, parts, task, receiver),
        Flow::HearsCancel(receiver) => receive_cancel(alloc, graph, parts, task, receiver),
        Flow::Enters => let_in(parts, task),
        other => Ok(other),
    }
}
