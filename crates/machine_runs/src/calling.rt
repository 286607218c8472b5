//! Calls of canonical functions by core code.

ghost use Rattle.world_parts.specs.Held.{Does};
ghost use Rattle.machine_runs.specs.Calling.{kind_answered, canon_answered, allowed_by, allowed, calls};

use comp_graph::{BuiltinKind, CanonFunc, Graph};
use copy_replies::end_reply;
use event_replies::set_wait;
use graph_views::canon_at;
use replies::{begin, may_leave, reply};
use std::alloc::Global;
use task_table::Words;
use trace_labels::TrapName;
use world_parts::{Flow, Part, Parts, Stop};
use world_stacks::exempt_answer;

/// What a built-in of this kind answers a task, which an instance made.
fn answer_kind(
    alloc: Global,
    graph: &Graph<'_>,
    end_types: &[Option<u32>],
    parts: &mut Parts,
    task: u32,
    number: u32,
    canon: &CanonFunc,
    at: usize,
    kind: &BuiltinKind,
    words: &[u64],
) -> Part<Flow>
    ensures { Does (kind_answered graph.now end_types.now task number canon.now at kind.now words.now) parts.old result parts.new }
{
    match kind {
        BuiltinKind::Wait {
            op,
            cancellable: _,
            memory: _,
        } => set_wait(alloc, graph, parts, task, at, number, *op, words),
        BuiltinKind::End {
            kind: _,
            element: _,
            op: _,
        } => end_reply(alloc, graph, end_types, parts, task, number, words),
        _ => reply(alloc, graph, parts, task, number, canon, words),
    }
}

/// What a canonical function answers a task.
fn answer(
    alloc: Global,
    graph: &Graph<'_>,
    end_types: &[Option<u32>],
    parts: &mut Parts,
    task: u32,
    number: u32,
    canon: &CanonFunc,
    words: &[u64],
) -> Part<Flow>
    ensures { Does (canon_answered graph.now end_types.now task number canon.now words.now) parts.old result parts.new }
{
    match canon {
        CanonFunc::Lower(_) => reply(alloc, graph, parts, task, number, canon, words),
        CanonFunc::Builtin(builtin) => answer_kind(
            alloc,
            graph,
            end_types,
            parts,
            task,
            number,
            canon,
            builtin.instance as usize,
            &builtin.kind,
            words,
        ),
    }
}

/// What a canonical function answers a task, where the answer is known of one that is answered also where the instance may not be left. The trap
/// is `CannotLeave`.
fn answer_by(
    alloc: Global,
    graph: &Graph<'_>,
    end_types: &[Option<u32>],
    parts: &mut Parts,
    task: u32,
    number: u32,
    canon: &CanonFunc,
    words: &[u64],
    known: Option<Words>,
) -> Part<Flow>
    ensures { Does (allowed_by graph.now end_types.now task number canon.now words.now known) parts.old result parts.new }
{
    match known {
        Some(known) => parts.answer(alloc, task, known),
        None => {
            if may_leave(parts) {
                answer(alloc, graph, end_types, parts, task, number, canon, words)
            } else {
                Err(Stop::Trap(TrapName::CannotLeave))
            }
        }
    }
}

/// What a canonical function answers a task, where it may be called now.
#[tactic(auto, unfolding(crate::specs::Calling::allowed), using(world_parts::proofs::Thens::thens))]
fn answer_allowed(
    alloc: Global,
    graph: &Graph<'_>,
    end_types: &[Option<u32>],
    parts: &mut Parts,
    task: u32,
    number: u32,
    canon: &CanonFunc,
    words: &[u64],
) -> Part<Flow>
    ensures { Does (allowed graph.now end_types.now task number canon.now words.now) parts.old result parts.new }
{
    let known = exempt_answer(alloc, parts, task, canon, words)?;
    answer_by(
        alloc, graph, end_types, parts, task, number, canon, words, known,
    )
}

/// The acting task calls the canonical function of a number with the words that it keeps: the line of the call, and what the function answers
/// (Component Model, CanonicalABI.md, "Canonical Definitions"). Of each canonical function the number of the type of its ends is said, where it
/// has ends: as a graph has it (`GraphTypes::canons`).
///
/// # Errors
///
/// The trap `CannotLeave` before all is instantiated, for all but `context.get`, `context.set` and `resource.rep`, and the traps of the function;
/// `Memory`; and `Stuck` where something is not there.
#[tactic(auto, unfolding(crate::specs::Calling::calls), using(world_parts::proofs::Thens::thens))]
pub fn call(
    alloc: Global,
    graph: &Graph<'_>,
    end_types: &[Option<u32>],
    parts: &mut Parts,
    number: u32,
) -> Part<Flow>
    ensures { Does (calls graph.now end_types.now number) parts.old result parts.new }
{
    let task = parts.acting()?;
    let Some(canon) = canon_at(graph, number) else {
        return Err(Stop::Stuck);
    };
    let words = parts.words(alloc, task)?;
    begin(alloc, parts, task, canon, words.as_slice())?;
    answer_allowed(
        alloc,
        graph,
        end_types,
        parts,
        task,
        number,
        canon,
        words.as_slice(),
    )
}
