//! Calls from outside: how a stack begins, and how one goes on with a host function's words.

ghost use Rattle.std.specs.Prelude.{◌≡◌, ◌≤◌, ◌+◌, ◌<◌, ◌++◌, length, replicate, reverse, IfOk, Some, vec_capacity};
ghost use Rattle.std.specs.List.{slice_get};
ghost use Rattle.wasm_typing.specs.Context.{found_type};
ghost use Rattle.wasm_store.specs.Store.{Function};
ghost use Rattle.wasm_store.specs.Step.{start, resume, first_frame, with_more};
ghost use Rattle.wasm_execution.specs.Places.{frame_of, IsPlaced};
ghost use Rattle.wasm_execution.specs.Zeros.{zeros};

use crate::frame::Frame;
use crate::running::{Frames, Running, State, Suspended};
use faults::Memory;
use std::alloc::{AllocError, Global};
use std::rc::Rc;
use syntax_trees::Locals;
use wasm_store::{FunctionInstance, OwnFunction, Store};

/// A call of the function at an address of the store, with these arguments. It fails for want of memory alone.
pub fn start(alloc: Global, store: &Store, address: usize, args: &[u64]) -> Result<Running, Memory>
    requires there { address < length store.now.funcs }
    ensures { IfOk result (λ r. (f : Function) × (slice_get store.now.funcs address ≡ Some f) × (r ≡ start f address args.now)) }
{
    let args = Vec::from_slice(alloc, args)?;
    match store.function(address) {
        FunctionInstance::Host(_) => Ok(Running {
            state: State::AtHost(address, args),
        }),
        FunctionInstance::Own(function) => {
            let top = begin(alloc, function, args)?;
            Ok(Running {
                state: State::Active(Frames {
                    top,
                    callers: Vec::new(alloc),
                }),
            })
        }
    }
}

/// The frame of a function that begins with these arguments, which are its first locals.
pub(crate) fn begin(
    alloc: Global,
    function: &OwnFunction,
    args: Vec<u64>,
) -> Result<Frame, AllocError>
    ensures placed { IfOk result (λ f. IsPlaced f) }
    ensures frame { IfOk result (λ f. frame_of f ≡ first_frame (found_type (slice_get function.now.types.value function.now.type_index)) function.now.instance function.now.locals function.now.code.value args.items) }
{
    let mut locals = args;
    push_locals(&mut locals, function.locals.as_slice())?;
    let code = Rc::clone(&function.code)?;
    Frame::begin(
        alloc,
        code,
        function.instance,
        function.result_count(),
        locals,
    )
}

/// Puts a 0 for each declared local behind the others.
fn push_locals(locals: &mut Vec<u64>, groups: &[Locals]) -> Result<(), AllocError>
    ensures { IfOk result (λ _. locals.new.items ≡ locals.old.items ++ zeros groups.now) }
{
    for group in groups {
        push_zeros(locals, group.count)?;
    }
    Ok(())
}

/// Puts so many zeros behind the locals.
fn push_zeros(locals: &mut Vec<u64>, count: u32) -> Result<(), AllocError>
    ensures { IfOk result (λ _. locals.new.items ≡ locals.old.items ++ replicate count 0) }
{
    for _index in 0..count {
        locals.push(0)?;
    }
    Ok(())
}

impl Suspended {
    /// The stack that goes on with the words that the host function gave. It takes no memory.
    pub fn resume(self, words: &[u64]) -> Running
        requires count { length words.now ≡ self.count }
        ensures { result ≡ resume words.now self.stack }
    {
        let Suspended { state, count: _ } = self;
        match state {
            State::Active(Frames { mut top, callers }) => {
                top.give_reserved(words);
                Running {
                    state: State::Active(Frames { top, callers }),
                }
            }
            State::Given(mut given) => {
                push_reserved(&mut given, words);
                Running {
                    state: State::Given(given),
                }
            }
            State::AtHost(address, args) => Running {
                state: State::AtHost(address, args),
            },
        }
    }
}

impl Frame {
    /// Puts words on top, for which there is room, the last one last.
    pub(crate) fn give_reserved(&mut self, words: &[u64])
        requires placed { IsPlaced self.old }
        requires room { length self.old.operands.items + length words.now ≤ vec_capacity self.old.operands }
        ensures placed { IsPlaced self.new }
        ensures frame { frame_of self.new ≡ with_more (reverse words.now) (frame_of self.old) }
    {
        push_reserved(&mut self.operands, words);
    }
}

/// Puts words behind the others, for which there is room.
fn push_reserved(list: &mut Vec<u64>, words: &[u64])
    requires room { length list.old.items + length words.now ≤ vec_capacity list.old }
    ensures { list.new.items ≡ list.old.items ++ words.now }
{
    for word in words {
        list.push_reserved(*word);
    }
}
