//! Frames of functions that are called, and ends of functions.

ghost use Rattle.std.specs.Prelude.{◌≡◌, IfOk, Some, length, ℕ, List};
ghost use Rattle.std.specs.List.{slice_get, AllByRecursion};
ghost use Rattle.wasm_store.specs.Store.{Function, Own, Host, type_of, Store};
ghost use Rattle.wasm_typing.specs.Context.{found_type};
ghost use Rattle.wasm_execution.specs.declared.frame.Frame.{Frame};
ghost use Rattle.wasm_store.specs.Step.{with_more};
ghost use Rattle.wasm_execution.specs.Places.{frame_of, IsPlaced};
ghost use Rattle.wasm_execution.specs.Shape.{HasOver};
ghost use Rattle.wasm_execution.specs.Invoking.{InvokeGives};

use crate::frame::Frame;
use crate::starting::begin;
use faults::Memory;
use std::alloc::{AllocError, Global};
use syntax_trees::module_types::FuncType;
use wasm_store::{FunctionInstance, OwnFunction, Store};

/// How many frames a stack may have.
const FRAME_LIMIT: usize = 512;

/// What a call of a function made of the frames.
#[derive(Drop)]
pub(crate) enum Invoked {
    /// A function of an instance begins, in this frame.
    Began(Frame),
    /// A function of the host is called with these words, and this frame waits for so many.
    Asked(Vec<u64>, Frame, usize),
    /// The stack has as many frames as it may have.
    Limit,
}

/// Calls the function at an address with the last operands of the frame that runs.
pub(crate) fn invoke(
    alloc: Global,
    top: Frame,
    callers: &mut Vec<Frame>,
    store: &Store,
    address: usize,
) -> Result<Invoked, Memory>
    requires placed { IsPlaced top }
    requires callers { AllByRecursion IsPlaced callers.old.items }
    requires over { (function : Function) × (slice_get store.now.funcs address ≡ Some function) × HasOver (length (type_of function).params) (frame_of top).labels (frame_of top).values }
    ensures gives { IfOk result (λ i. (function : Function) × (slice_get store.now.funcs address ≡ Some function) × InvokeGives store.now (frame_of top) callers.old.items address function i callers.new.items) }
{
    match store.function(address) {
        FunctionInstance::Own(function) => begin_over(alloc, top, callers, function),
        FunctionInstance::Host(func_type) => ask(top, func_type),
    }
}

/// Begins a function of an instance over the frame that runs.
fn begin_over(
    alloc: Global,
    mut top: Frame,
    callers: &mut Vec<Frame>,
    function: &OwnFunction,
) -> Result<Invoked, Memory>
    requires placed { IsPlaced top }
    requires callers { AllByRecursion IsPlaced callers.old.items }
    requires over { HasOver (length (found_type (slice_get function.now.types.value function.now.type_index)).params) (frame_of top).labels (frame_of top).values }
    ensures gives { IfOk result (λ i. (s : Store) (address : ℕ) → InvokeGives s (frame_of top) callers.old.items address (Own (found_type (slice_get function.now.types.value function.now.type_index)) function.now.instance function.now.locals function.now.code.value) i callers.new.items) }
{
    if FRAME_LIMIT <= callers.len() + 1 {
        return Ok(Invoked::Limit);
    }
    let args = top.take(function.param_count())?;
    callers.push(top)?;
    let frame = begin(alloc, function, args)?;
    Ok(Invoked::Began(frame))
}

/// Takes the words of a function of the host from the frame that runs, and makes room for those that it gives.
fn ask(mut top: Frame, func_type: &FuncType) -> Result<Invoked, Memory>
    requires placed { IsPlaced top }
    requires over { HasOver (length func_type.now.params) (frame_of top).labels (frame_of top).values }
    ensures gives { IfOk result (λ i. (s : Store) (old : List Frame) (address : ℕ) → InvokeGives s (frame_of top) old address (Host func_type.now) i old) }
{
    let words = top.take(func_type.params.len())?;
    let count = func_type.results.len();
    top.operands.reserve(count)?;
    Ok(Invoked::Asked(words, top, count))
}

/// Hands the values of a function that has ended to the one that called it.
pub(crate) fn give_back(ended: Frame, mut caller: Frame) -> Result<Frame, AllocError>
    requires placed { IsPlaced caller }
    ensures placed { IfOk result (λ f. IsPlaced f) }
    ensures frame { IfOk result (λ f. frame_of f ≡ with_more (frame_of ended).values (frame_of caller)) }
{
    caller.give(&ended.operands)?;
    Ok(caller)
}
