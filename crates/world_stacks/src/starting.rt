//! Stacks that begin, and that go on with the words of an answer. What words are to be is tested.

ghost use Rattle.std.specs.Prelude.{◌≡◌, ◌<◌, ◌^◌, IfOk};
ghost use Rattle.wasm_store.specs.Typed.{StoreTyped};
ghost use Rattle.world_stacks.specs.Piles.{resumed, RunsTyped, Finds};
ghost use Rattle.world_stacks.specs.Starting.{is_word, are_words, started, call_of, gives_words};

use crate::addresses::func_address;
use comp_graph::FuncRef;
use std::alloc::Global;
use syntax_trees::module_types::ValType;
use wasm_execution::{Running, Suspended, start};
use wasm_store::Store;
use world_parts::{Part, Stop};

/// Whether these are values of these types, one of each (Core 2.0, section 4.2.1): an i32 is below 2^32.
#[tactic(auto, using(crate::proofs::Words::lists_differ))]
pub fn are_words(types: &[ValType], words: &[u64]) -> bool
    ensures { result ≡ are_words types.now words.now }
{
    if types.len() != words.len() {
        return false;
    }
    for at in 0..types.len() {
        if !is_word(types[at], words[at]) {
            return false;
        }
    }
    true
}

/// Whether a word is a value of a type.
fn is_word(val_type: ValType, word: u64) -> bool
    ensures { result ≡ is_word val_type word }
{
    match val_type {
        ValType::I32 => word < 4_294_967_296,
        ValType::I64 => true,
    }
}

/// A call of the function at an address of the store, where one is there that takes these words.
///
/// # Errors
///
/// `Stuck` where there is none or it takes others, and `Memory`.
pub fn start_with(alloc: Global, store: &Store, address: usize, words: &[u64]) -> Part<Running>
    ensures gives { Finds (started store.now address words.now) result }
    ensures typed { IfOk result (λ k. RunsTyped store.now k) }
{
    if address >= store.function_count() {
        return Err(Stop::Stuck);
    }
    if are_words(store.function(address).params(), words) {
        match start(alloc, store, address, words) {
            Ok(running) => Ok(running),
            Err(_) => Err(Stop::Memory),
        }
    } else {
        Err(Stop::Stuck)
    }
}

/// A call of a core function, where it is there and takes these words.
///
/// # Errors
///
/// `Stuck` where it is not there or takes others, and `Memory`.
pub fn call_of(alloc: Global, store: &Store, func: FuncRef, words: &[u64]) -> Part<Running>
    ensures gives { Finds (call_of store.now func words.now) result }
    ensures typed { IfOk result (λ k. RunsTyped store.now k) }
{
    let Some(address) = func_address(store, func) else {
        return Err(Stop::Stuck);
    };
    start_with(alloc, store, address, words)
}

/// Whether these are words that the function at an address of the store gives.
pub(crate) fn gives_words(store: &Store, address: usize, words: &[u64]) -> bool
    ensures { result ≡ gives_words store.now address words.now }
{
    if address >= store.function_count() {
        return false;
    }
    are_words(store.function(address).results(), words)
}

/// The stack that goes on with these words, where it waits for so many. Else it is given up.
pub(crate) fn resumed(waiting: Suspended, words: &[u64]) -> Option<Running>
    ensures { result ≡ resumed words.now waiting }
{
    if waiting.count() == words.len() {
        Some(waiting.resume(words))
    } else {
        waiting.give_up();
        None
    }
}
