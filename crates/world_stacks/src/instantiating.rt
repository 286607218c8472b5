//! The instantiation of a graph: component instances that begin, and core instances that are made.

ghost use Rattle.std.specs.Prelude.{◌≡◌, ◌<◌, true, length, map, IfOk, Some};
ghost use Rattle.std.specs.List.{slice_get};
ghost use Rattle.wasm_store.specs.Instantiation.{ImportsMatch};
ghost use Rattle.wasm_store.specs.Matching.{imports_fit};
ghost use Rattle.wasm_store.specs.Store as core;
ghost use Rattle.wasm_store.specs.Views.{address_of};
ghost use Rattle.world_parts.specs.Held.{held, Does};
ghost use Rattle.world_stacks.specs.Over.{Leads};
ghost use Rattle.world_stacks.specs.Instantiating.{init_exits, begun, memory_kept, core_added, start_of, started_by, started_up, made, instantiates};

use crate::externals::externals_of;
use crate::stacks::Stacks;
use crate::starting::start_with;
use comp_graph::{Action, CoreMake, Graph};
use instances::Instance;
use std::alloc::Global;
use task_table::Errand;
use tasks::TaskEvent;
use trace_labels::TrapName;
use wasm_code::External;
use wasm_store::{AddFault, Store};
use wasm_typing::Valid;
use world_parts::{Part, Parts, Rest, Stop};

/// Does the action of this number of the graph's plan (Component Model, Explainer.md, "Instance Definitions"; Core 2.0, section 4.5.4). Behind the
/// last one the instantiation has ended. Where a module has a start function, its stack is to run, as one of task 0.
///
/// # Errors
///
/// The trap `SegmentBounds`, and `Memory`; and `Stuck` where something is not there, or an import is of another type.
pub fn instantiate(
    alloc: Global,
    graph: &Graph<'_>,
    parts: &mut Parts,
    stacks: &mut Stacks,
    number: usize,
) -> Part<()>
    ensures { Leads (instantiates graph.now number stacks.old.piles.items (held parts.old)) result parts.new stacks.new.piles.items }
{
    let plan = graph.plan();
    if number >= plan.len() {
        init_exits(parts)?;
        return Ok(());
    }
    match plan[number] {
        Action::Begin(_instance) => {
            begin(alloc, parts, number + 1)?;
            Ok(())
        }
        Action::Make(core) => {
            let Some(core) = graph.cores().get(core as usize) else {
                return Err(Stop::Stuck);
            };
            make(alloc, parts, stacks, core, number + 1)
        }
    }
}

/// Ends the instantiation.
fn init_exits(parts: &mut Parts) -> Part<()>
    ensures { Does init_exits parts.old result parts.new }
{
    parts.advance(0, TaskEvent::Exit)?;
    parts.close(0)?;
    let _flow = parts.leave_chain()?;
    parts.rest = Rest::Free;
    Ok(())
}

/// Lets a component instance begin. The next action has this number.
fn begin(alloc: Global, parts: &mut Parts, next: usize) -> Part<()>
    ensures { Does (begun next) parts.old result parts.new }
{
    match parts.instances.push(Instance::new(alloc)) {
        Ok(()) => {}
        Err(_) => return Err(Stop::Memory),
    }
    parts.rest = Rest::Instantiates(next);
    Ok(())
}

/// Makes a core instance. The next action has this number.
fn make(
    alloc: Global,
    parts: &mut Parts,
    stacks: &mut Stacks,
    core: &CoreMake<'_>,
    next: usize,
) -> Part<()>
    ensures { Leads (made next core.now stacks.old.piles.items (held parts.old)) result parts.new stacks.new.piles.items }
{
    let imports = externals_of(alloc, &parts.store, core.imports())?;
    let number = add_core(alloc, parts, core.valid(), imports.as_slice())?;
    start_up(alloc, parts, stacks, core.valid(), number, next)
}

/// Adds a core instance of a module with these imports, and answers its number.
fn add_core(alloc: Global, parts: &mut Parts, valid: &Valid, imports: &[External]) -> Part<usize>
    ensures { Does (core_added valid.now (map address_of imports.now)) parts.old result parts.new }
{
    if fits(&parts.store, valid, imports) {
        match parts.store.add(alloc, valid, imports) {
            Ok(number) => {
                keep_memory(parts, number)?;
                Ok(number)
            }
            Err(AddFault::SegmentBounds) => Err(Stop::Trap(TrapName::SegmentBounds)),
            Err(AddFault::Memory) => Err(Stop::Memory),
        }
    } else {
        Err(Stop::Stuck)
    }
}

/// Whether imports are of the types that a module asks for.
fn fits(store: &Store, valid: &Valid, imports: &[External]) -> bool
    ensures fits { result ≡ imports_fit store.now valid.now.types valid.now.imports (map address_of imports.now) }
    ensures sound { result ≡ true → ImportsMatch store.now valid.now (map address_of imports.now) }
{
    store.matches(valid, imports)
}

/// Keeps the address of the memory of the core instance of this number, where it has one.
fn keep_memory(parts: &mut Parts, number: usize) -> Part<()>
    ensures { Does (memory_kept number) parts.old result parts.new }
{
    if number >= parts.store.instance_count() {
        return Err(Stop::Stuck);
    }
    let memory = parts
        .store
        .instance(number)
        .memories
        .as_slice()
        .first()
        .copied();
    match parts.memories.push(memory) {
        Ok(()) => Ok(()),
        Err(_) => Err(Stop::Memory),
    }
}

/// Starts the start function of the core instance of this number, where its module has one. The next action has this number.
fn start_up(
    alloc: Global,
    parts: &mut Parts,
    stacks: &mut Stacks,
    valid: &Valid,
    number: usize,
    next: usize,
) -> Part<()>
    ensures { Leads (started_up next valid.now number stacks.old.piles.items (held parts.old)) result parts.new stacks.new.piles.items }
{
    if number >= parts.store.instance_count() {
        return Err(Stop::Stuck);
    }
    let start = start_of(&parts.store, valid, number);
    start_by(alloc, parts, stacks, start, next)
}

/// The address of the start function of the core instance of this number, where its module has one.
fn start_of(store: &Store, valid: &Valid, number: usize) -> Option<usize>
    requires there { number < length store.now.instances }
    ensures { (i : core.Instance) → slice_get store.now.instances number ≡ Some i → result ≡ start_of valid.now i }
{
    store.start_of(valid, number)
}

/// Starts the start function at this address, where there is one. The next action has this number.
fn start_by(
    alloc: Global,
    parts: &mut Parts,
    stacks: &mut Stacks,
    start: Option<usize>,
    next: usize,
) -> Part<()>
    ensures { Leads (started_by next start stacks.old.piles.items (held parts.old)) result parts.new stacks.new.piles.items }
{
    let Some(address) = start else {
        parts.rest = Rest::Instantiates(next);
        return Ok(());
    };
    let running = start_with(alloc, &parts.store, address, &[])?;
    stacks.stack(0, running)?;
    parts.set_errand(0, Errand::Begins(next))?;
    parts.rest = Rest::Runs;
    Ok(())
}
