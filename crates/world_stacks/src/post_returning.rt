//! Post-returns.

ghost use Rattle.std.specs.Prelude.{◌≡◌, IfOk};
ghost use Rattle.world_parts.specs.Held.{held, Does};
ghost use Rattle.world_stacks.specs.Piles.{RunsTyped};
ghost use Rattle.world_stacks.specs.PostReturns.{answered_by, answered, goes_on_with, answered_in_place, NestedGives, BeginsNested, PostReturns, WaitsTyped, instance_at};
ghost use Rattle.world_stacks.specs.Starting.{call_of};

use crate::exempt::exempt_answer;
use crate::names::core_name;
use crate::starting::{call_of, gives_words, resumed};
use comp_graph::{CanonFunc, FuncRef, Graph};
use graph_views::{builtin_of, canon_at, is_made_in};
use std::alloc::Global;
use task_table::Words;
use trace_labels::{Label, TrapName};
use wasm_execution::{Outcome, Running, Suspended, run};
use world_parts::{Part, Parts, Rest, Stop, same_words};

/// Runs the post-return of the function that the acting task runs, where it has one, with the words with which its core function ended. Behind
/// it the task exits (Component Model, CanonicalABI.md, `canon lift`). Each instruction costs its unit. A call of a canonical function is
/// answered in place or is a trap.
///
/// # Errors
///
/// A trap, `NoFuel` and `Memory`; and `Stuck` where something is not there.
pub fn post_return(
    alloc: Global,
    graph: &Graph<'_>,
    parts: &mut Parts,
    task: u32,
    func: Option<FuncRef>,
    words: &[u64],
) -> Part<()>
    ensures { PostReturns graph.now task func words.now (held parts.old) result parts.new }
{
    match func {
        None => {
            parts.rest = Rest::Leaves;
            Ok(())
        }
        Some(func) => begin(alloc, graph, parts, task, func, words),
    }
}

/// Runs a post-return.
#[tactic(auto, using(crate::proofs::Nested::begins_not))]
fn begin(
    alloc: Global,
    graph: &Graph<'_>,
    parts: &mut Parts,
    task: u32,
    func: FuncRef,
    words: &[u64],
) -> Part<()>
    ensures { BeginsNested graph.now task (instance_at task (held parts.old)) (call_of parts.old.store func words.now) (held parts.old) result parts.new }
{
    let Some(at) = instance_at(parts, task) else {
        return Err(Stop::Stuck);
    };
    match call_of(alloc, &parts.store, func, words) {
        Ok(running) => run_nested(alloc, graph, parts, task, at, running),
        Err(stop) => Err(stop),
    }
}

/// The number of the instance of a task.
fn instance_at(parts: &Parts, task: u32) -> Option<usize>
    ensures { result ≡ instance_at task (held parts.now) }
{
    match parts.tasks.slot(task) {
        Some(slot) => Some(slot.instance),
        None => None,
    }
}

/// Runs nested code of an instance, which acts for a task, up to its end. There are fewer than 2^64 calls that are answered in place.
fn run_nested(
    alloc: Global,
    graph: &Graph<'_>,
    parts: &mut Parts,
    task: u32,
    at: usize,
    running: Running,
) -> Part<()>
    requires typed { RunsTyped parts.old.store running }
    ensures { NestedGives graph.now task at (record { held = held parts.old; stack = running }) result parts.new }
{
    let mut running = running;
    for _call in 0..u64::MAX {
        // Its clause says that the store is typed.
        let _count = parts.store.function_count();
        match run(alloc, running, &mut parts.store, &mut parts.feed.left) {
            Outcome::Done(_words) => {
                parts.rest = Rest::Leaves;
                return Ok(());
            }
            Outcome::Trapped(why) => return Err(Stop::Trap(core_name(why))),
            Outcome::NoFuel(later) => {
                later.give_up();
                return Err(Stop::NoFuel);
            }
            Outcome::Memory => return Err(Stop::Memory),
            Outcome::Calls(address, words, waiting) => {
                match answer_in_place(alloc, graph, parts, task, at, address, words, waiting) {
                    Ok(next) => running = next,
                    Err(stop) => return Err(stop),
                }
            }
        }
    }
    running.give_up();
    Err(Stop::Memory)
}

/// Answers a call of nested code, at which its stack waits, in place: the stack goes on. The function is that at this address.
fn answer_in_place(
    alloc: Global,
    graph: &Graph<'_>,
    parts: &mut Parts,
    task: u32,
    at: usize,
    address: usize,
    words: Words,
    waiting: Suspended,
) -> Part<Running>
    requires waits { WaitsTyped parts.old.store address waiting }
    ensures gives { Does (answered_in_place graph.now task at address words waiting) parts.old result parts.new }
    ensures typed { IfOk result (λ k. RunsTyped parts.new.store k) }
{
    match answer(alloc, graph, parts, task, at, address, words) {
        Ok(answer) => go_on_with(parts, task, address, answer, waiting),
        Err(stop) => {
            waiting.give_up();
            Err(stop)
        }
    }
}

/// A stack that waits at a call of the function at an address goes on with the words of the answer, behind the line of it.
fn go_on_with(
    parts: &mut Parts,
    task: u32,
    address: usize,
    answer: Words,
    waiting: Suspended,
) -> Part<Running>
    requires waits { WaitsTyped parts.old.store address waiting }
    ensures gives { Does (goes_on_with task address answer waiting) parts.old result parts.new }
    ensures typed { IfOk result (λ k. RunsTyped parts.new.store k) }
{
    if gives_words(&parts.store, address, answer.as_slice()) {
        let Some(running) = resumed(waiting, answer.as_slice()) else {
            return Err(Stop::Stuck);
        };
        match parts.tell(Label::Got {
            task,
            words: answer,
        }) {
            Ok(()) => Ok(running),
            Err(stop) => {
                running.give_up();
                Err(stop)
            }
        }
    } else {
        waiting.give_up();
        Err(Stop::Stuck)
    }
}

/// The answer to a call by nested code of an instance, which acts for a task, of the canonical function at this address, which is its number.
/// There are at most 2^32.
fn answer(
    alloc: Global,
    graph: &Graph<'_>,
    parts: &mut Parts,
    task: u32,
    at: usize,
    address: usize,
    words: Words,
) -> Part<Words>
    ensures answers { Does (answered graph.now task at address words) parts.old result parts.new }
    ensures stays { IfOk result (λ _. parts.new.store ≡ parts.old.store) }
{
    let Ok(number) = u32::try_from(address) else {
        return Err(Stop::Memory);
    };
    if is_made_in(graph, number, at) {
        let Some(canon) = canon_at(graph, number) else {
            return Err(Stop::Stuck);
        };
        answer_by(alloc, parts, task, canon, words)
    } else {
        Err(Stop::Stuck)
    }
}

/// The answer of a canonical function, behind the line of the call.
fn answer_by(
    alloc: Global,
    parts: &mut Parts,
    task: u32,
    canon: &CanonFunc,
    words: Words,
) -> Part<Words>
    ensures answers { Does (answered_by task words canon.now) parts.old result parts.new }
    ensures stays { IfOk result (λ _. parts.new.store ≡ parts.old.store) }
{
    let Ok(same) = same_words(alloc, words.as_slice()) else {
        return Err(Stop::Memory);
    };
    parts.tell(Label::Do {
        task,
        builtin: builtin_of(canon),
        words: same,
    })?;
    match exempt_answer(alloc, parts, task, canon, words.as_slice())? {
        Some(answer) => Ok(answer),
        None => Err(Stop::Trap(TrapName::CannotLeave)),
    }
}
