//! The world in which a line lifts: two component instances, with a memory of a page for each of two core instances, a task of each, and task 0,
//! which is over.

ghost use Rattle.std.specs.Prelude.{◌≡◌, ◌^◌, IfOk};
ghost use Rattle.instances.specs.Entries.{seen_as};
ghost use Rattle.value_lift.specs.Tables.{MostLends};
ghost use Rattle.value_parts.specs.Lifting.{FewLent};
ghost use Rattle.world_parts.specs.Held.{held};

use crate::entries::{count_ends, instance_of};
use crate::given::{given, indices_of, words_of};
use ca_base::Fuel;
use cases::bytes_of;
use choices::Picks;
use entry_gate::Kind;
use graph_cases::NamedGraph;
use instances::Instance;
use module_reading::valid_of;
use std::alloc::Global;
use std::test::Fail;
use syntax_trees::Seq;
use table_texts::number;
use task_table::{Called, Callee, Caller, TaskSlot, Tasks};
use tasks::{SubtaskState, TaskEvent};
use wasm_store::Store;
use wasm_typing::Valid;
use world_parts::{Feed, Parts, Rest};

/// A core module that has a memory of a page, and nothing else.
const MODULE: &str = "0061736d01000000 0503010001";

/// Adds an instance of a core module without imports to a store.
fn add_core(alloc: Global, store: &mut Store, valid: &Valid) -> Result<(), Fail> {
    if !store.matches(valid, &[]) {
        return Err(Fail::new("imports"));
    }
    store.add(alloc, valid, &[])?;
    Ok(())
}

/// Puts the bytes of digits at the begin of a memory.
fn put_bytes(alloc: Global, store: &mut Store, memory: usize, digits: &str) -> Result<(), Fail> {
    let bytes = bytes_of(alloc, digits)?;
    if memory >= store.memory_count() {
        return Err(Fail::new("no memory"));
    }
    let to = store.memory_mut(memory);
    if bytes.len() > to.len() {
        return Err(Fail::new("too many bytes"));
    }
    to[..bytes.len()].copy_from_slice(&bytes);
    Ok(())
}

/// Adds two memories of a module to a store, and what stands in them.
fn add_memories(alloc: Global, store: &mut Store, valid: &Valid, line: &str) -> Result<(), Fail> {
    add_core(alloc, store, valid)?;
    add_core(alloc, store, valid)?;
    put_bytes(alloc, store, 0, given(line, "first", ""))?;
    put_bytes(alloc, store, 1, given(line, "second", ""))
}

/// Fills a store with two memories.
fn fill_store(alloc: Global, store: &mut Store, line: &str) -> Result<(), Fail> {
    let module = bytes_of(alloc, MODULE)?;
    let valid = valid_of(alloc, &module)?;
    add_memories(alloc, store, &valid, line)
}

/// The memories that the core instances have.
fn memories_of(alloc: Global, words: &str) -> Result<Vec<Option<usize>>, Fail> {
    let mut memories = Vec::new(alloc);
    for word in words.split_whitespace() {
        match word {
            "-" => memories.push(None)?,
            _ => memories.push(Some(number(word)? as usize))?,
        }
    }
    Ok(memories)
}

/// How task 2 was called by task 1.
fn called_of(alloc: Global, named: &NamedGraph, line: &str) -> Result<(u32, Caller), Fail> {
    let name = given(line, "by", "lower/2/sync");
    let canon = named.canon(0, name).ok_or("no such function")?;
    let words = Seq::from_vec(words_of(alloc, given(line, "words", ""))?);
    let mut called = Called::new(alloc, 1, canon, words, 2);
    called.subtask.advance(SubtaskState::Started);
    if given(line, "resolved", "") != "" {
        called.subtask.advance(SubtaskState::Returned);
    }
    Ok((canon, Caller::Guest(called)))
}

/// What task 2 runs.
fn callee_of(line: &str, canon: u32) -> Callee {
    match given(line, "by", "") {
        "resource.drop/3" => Callee::Destroys(3),
        _ => Callee::Lowered(canon),
    }
}

/// Task 2, which has entered the second instance and keeps these words.
fn second_slot(alloc: Global, callee: Callee, caller: Caller, words: Vec<u64>) -> TaskSlot {
    let mut slot = TaskSlot::new(alloc, 1, Kind::Callback, callee, caller);
    let _entered = slot.advance(TaskEvent::Enter);
    slot.set_words(Seq::from_vec(words));
    slot
}

/// Adds task 2.
fn add_second(
    alloc: Global,
    tasks: &mut Tasks,
    named: &NamedGraph,
    line: &str,
) -> Result<(), Fail> {
    let words = words_of(alloc, given(line, "words", ""))?;
    let (canon, caller) = called_of(alloc, named, line)?;
    let callee = callee_of(line, canon);
    let _second = tasks.add(second_slot(alloc, callee, caller, words))?;
    Ok(())
}

/// The tasks.
fn add_tasks(alloc: Global, tasks: &mut Tasks, named: &NamedGraph, line: &str) -> Result<(), Fail> {
    let host = Caller::Host(number(given(line, "host", "1"))?);
    let init = Caller::Nobody;
    let _init = tasks.add(TaskSlot::new(alloc, 0, Kind::Sync, Callee::Init, init))?;
    let _first = tasks.add(TaskSlot::new(alloc, 0, Kind::Stackful, Callee::Export(0), host))?;
    add_second(alloc, tasks, named, line)
}

/// A world without instances, tasks and memories.
pub(crate) fn nothing(alloc: Global) -> Parts {
    Parts {
        store: Store::new(alloc),
        memories: Vec::new(alloc),
        instances: Vec::new(alloc),
        tasks: Tasks::new(alloc),
        streams: Vec::new(alloc),
        futures: Vec::new(alloc),
        chain: Vec::new(alloc),
        rest: Rest::Runs,
        feed: Feed {
            left: Fuel::new(100),
            picks: Picks::new(alloc),
            taken: 0,
            moves: 0,
            labels: Seq::new(alloc),
        },
    }
}

/// Fills a world with all but instances.
fn fill(alloc: Global, parts: &mut Parts, named: &NamedGraph, line: &str) -> Result<(), Fail> {
    fill_store(alloc, &mut parts.store, line)?;
    add_tasks(alloc, &mut parts.tasks, named, line)?;
    parts.memories = memories_of(alloc, given(line, "memories", "0 1"))?;
    parts.chain.push(1)?;
    parts.chain.push(2)?;
    Ok(())
}

/// A world has these instances.
#[tactic(auto, using(crate::proofs::Few::few_of_two))]
fn set_instances(
    alloc: Global,
    parts: &mut Parts,
    first: Instance,
    second: Instance,
) -> Result<(), Fail>
    requires first { MostLends seen_as (2 ^ 63) first.slots }
    requires second { MostLends seen_as (2 ^ 63) second.slots }
    ensures { IfOk result (λ _. FewLent (held parts.new)) }
{
    let mut instances = Vec::new(alloc);
    instances.reserve(2)?;
    instances.push_reserved(first);
    instances.push_reserved(second);
    parts.instances = instances;
    Ok(())
}

/// Adds the instances of a line, whose ends have types of these numbers.
fn add_instances(alloc: Global, parts: &mut Parts, types: &[usize], line: &str) -> Result<(), Fail>
    ensures { IfOk result (λ _. FewLent (held parts.new)) }
{
    let words = given(line, "in", "");
    let joined = indices_of(alloc, given(line, "joined", ""))?;
    let first = instance_of(alloc, words, types, &joined)?;
    let others = types.get(count_ends(words)..).unwrap_or(&[]);
    let joined = indices_of(alloc, given(line, "joined-out", ""))?;
    let second = instance_of(alloc, given(line, "out", ""), others, &joined)?;
    set_instances(alloc, parts, first, second)
}

/// Fills a world as a line says, whose ends have types of these numbers.
pub(crate) fn fill_world(
    alloc: Global,
    parts: &mut Parts,
    named: &NamedGraph,
    types: &[usize],
    line: &str,
) -> Result<(), Fail>
    ensures { IfOk result (λ _. FewLent (held parts.new)) }
{
    fill(alloc, parts, named, line)?;
    add_instances(alloc, parts, types, line)
}

/// Lets a world go.
pub(crate) fn let_go(parts: Parts) {
    drop(parts)
}
