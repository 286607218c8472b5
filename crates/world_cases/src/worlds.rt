//! Worlds in which cases begin.

use ca_base::Fuel;
use cases::bytes_of;
use choices::Picks;
use entry_gate::Kind;
use instances::Instance;
use module_reading::valid_of;
use std::alloc::Global;
use std::test::Fail;
use syntax_trees::Seq;
use task_table::{Callee, Caller, TaskSlot, Tasks};
use tasks::TaskEvent;
use wasm_store::Store;
use wasm_typing::Valid;
use world_parts::{Feed, Parts, Rest};

/// A core module that has a memory of a page, and nothing else.
const MODULE: &str = "0061736d01000000 0503010001";

/// What a script gives that has no items, with 100 units of fuel.
fn feed(alloc: Global) -> Feed {
    Feed {
        left: Fuel::new(100),
        picks: Picks::new(alloc),
        taken: 0,
        moves: 0,
        labels: Seq::new(alloc),
    }
}

/// A world without instances and tasks.
pub fn nothing(alloc: Global) -> Parts {
    Parts {
        store: Store::new(alloc),
        memories: Vec::new(alloc),
        instances: Vec::new(alloc),
        tasks: Tasks::new(alloc),
        streams: Vec::new(alloc),
        futures: Vec::new(alloc),
        chain: Vec::new(alloc),
        rest: Rest::Free,
        feed: feed(alloc),
    }
}

/// Adds an instance of a core module without imports to a store.
fn add_core(alloc: Global, store: &mut Store, valid: &Valid) -> Result<(), Fail> {
    if !store.matches(valid, &[]) {
        return Err(Fail::new("imports"));
    }
    store.add(alloc, valid, &[])?;
    Ok(())
}

/// Adds three component instances, each with a core instance of the same number.
fn add_instances(alloc: Global, parts: &mut Parts, valid: &Valid) -> Result<(), Fail> {
    for number in 0..3 {
        add_core(alloc, &mut parts.store, valid)?;
        parts.memories.push(Some(number))?;
        parts.instances.push(Instance::new(alloc))?;
    }
    Ok(())
}

/// Adds component instances of the module of bytes.
fn add_of(alloc: Global, parts: &mut Parts, module: &[u8]) -> Result<(), Fail> {
    let valid = valid_of(alloc, module)?;
    add_instances(alloc, parts, &valid)
}

/// Makes task 0, which instantiates.
fn add_first(alloc: Global, parts: &mut Parts) {
    let first = TaskSlot::new(alloc, 0, Kind::Sync, Callee::Init, Caller::Nobody);
    let _made = parts.make_task(first);
    let _entered = parts.advance(0, TaskEvent::Enter);
}

/// Lets task 0 exit.
fn end_first(parts: &mut Parts) {
    let _exited = parts.advance(0, TaskEvent::Exit);
    let _closed = parts.close(0);
}

/// Adds three component instances to a world without anything, each with a memory of a page, a fourth core instance that has the first one's
/// memory, and task 0, which is over or instantiates.
pub fn add_all(alloc: Global, parts: &mut Parts, is_made: bool) -> Result<(), Fail> {
    let module = bytes_of(alloc, MODULE)?;
    add_of(alloc, parts, &module)?;
    parts.memories.push(Some(0))?;
    add_first(alloc, parts);
    if is_made {
        end_first(parts);
    }
    Ok(())
}

/// Lets a world go.
pub fn let_go(parts: Parts) {
    drop(parts)
}
