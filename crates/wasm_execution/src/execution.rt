//! Runs of stacks.

ghost use Rattle.std.specs.Prelude.{◌≡◌, ℕ, List, Some};
ghost use Rattle.std.specs.List.{slice_get, AllByRecursion};
ghost use Rattle.wasm_store.specs.Store.{Function};
ghost use Rattle.syntax_trees.specs.declared.module_types.ValType.{ValType};
ghost use Rattle.wasm_store.specs.Stack as stack;
ghost use Rattle.wasm_store.specs.Typed.{StoreTyped, StackTyped};
ghost use Rattle.wasm_execution.specs.Places.{frame_of, IsPlaced};
ghost use Rattle.wasm_execution.specs.Stacks.{frames_of};
ghost use Rattle.wasm_execution.specs.Run.{RunGives};

use crate::frame::Frame;
use crate::invoking::{Invoked, give_back, invoke};
use crate::running::{Frames, Outcome, Running, State, Suspended};
use crate::turn::{Pause, run_function};
use ca_base::Fuel;
use std::alloc::Global;
use syntax_trees::Seq;
use wasm_store::{FunctionInstance, Store, Trap};

/// Runs a stack until it ends, calls a function of the host, traps, or fuel is wanting (Core 2.0, section 4.4). Each
/// instruction costs one unit of fuel, also one that traps or calls; ends of blocks and functions cost nothing.
///
/// Where memory runs out, the store is as the steps that were made left it. Each was paid, and at most one unit more is gone.
pub fn run(alloc: Global, running: Running, store: &mut Store, fuel: &mut Fuel) -> Outcome
    requires typed { (results : List ValType) × StackTyped store.old results running }
    ensures gives { RunGives store.old running fuel.old result store.new fuel.new }
{
    // Its clause says that the store is typed.
    let _count = store.function_count();
    let Running { state } = running;
    match state {
        State::Given(words) => Outcome::Done(Seq::from_vec(words)),
        State::AtHost(address, words) => call_alone(alloc, address, words, store),
        State::Active(Frames { top, callers }) => run_frames(alloc, top, callers, store, fuel),
    }
}

/// Calls a function of the host alone.
fn call_alone(alloc: Global, address: usize, words: Vec<u64>, store: &Store) -> Outcome
    requires there { (f : Function) × (slice_get store.now.funcs address ≡ Some f) }
    ensures gives { (fuel : ℕ) → RunGives store.now (stack.AtHost address words.items) fuel result store.now fuel }
{
    let count = match store.function(address) {
        FunctionInstance::Own(function) => function.result_count(),
        FunctionInstance::Host(func_type) => func_type.results.len(),
    };
    let mut given = Vec::new(alloc);
    if given.reserve(count).is_err() {
        return Outcome::Memory;
    }
    Outcome::Calls(
        address,
        Seq::from_vec(words),
        Suspended {
            state: State::Given(given),
            count,
        },
    )
}

/// Runs functions of instances.
fn run_frames(
    alloc: Global,
    mut top: Frame,
    mut callers: Vec<Frame>,
    store: &mut Store,
    fuel: &mut Fuel,
) -> Outcome
    requires placed { IsPlaced top }
    requires callers { AllByRecursion IsPlaced callers.items }
    requires store { StoreTyped store.old }
    requires typed { (results : List ValType) × StackTyped store.old results (stack.Running (frame_of top) (frames_of callers.items)) }
    ensures gives { RunGives store.old (stack.Running (frame_of top) (frames_of callers.items)) fuel.old result store.new fuel.new }
{
    loop {
        let Ok(pause) = run_function(&mut top, store, fuel) else {
            return Outcome::Memory;
        };
        match pause {
            Pause::NoFuel => {
                return Outcome::NoFuel(Running {
                    state: State::Active(Frames { top, callers }),
                });
            }
            Pause::Traps(why) => return Outcome::Trapped(why),
            Pause::Ended => {
                let Some(caller) = callers.pop() else {
                    let Frame { operands, .. } = top;
                    return Outcome::Done(Seq::from_vec(operands));
                };
                match give_back(top, caller) {
                    Ok(frame) => top = frame,
                    Err(_) => return Outcome::Memory,
                }
            }
            Pause::Calls(address) => match invoke(alloc, top, &mut callers, store, address) {
                Ok(Invoked::Began(frame)) => top = frame,
                Ok(Invoked::Asked(words, waiting, count)) => {
                    return Outcome::Calls(
                        address,
                        Seq::from_vec(words),
                        Suspended {
                            state: State::Active(Frames {
                                top: waiting,
                                callers,
                            }),
                            count,
                        },
                    );
                }
                Ok(Invoked::Limit) => return Outcome::Trapped(Trap::StackLimit),
                Err(_) => return Outcome::Memory,
            },
        }
    }
}
