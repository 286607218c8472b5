//! Code of the guest that runs on a stack of its own, while values are lowered.

ghost use Rattle.std.specs.Prelude.{◌≡◌, ◌<◌, ◌≤◌, ◌^◌, ◌∷◌, [], true, ℕ, length, Some, None, MatchOption};
ghost use Rattle.std.specs.List.{slice_get};
ghost use Rattle.syntax_trees.specs.declared.module_types.ValType.TheVariants.{I32};
ghost use Rattle.wasm_numbers.specs.Types.{AreWords};
ghost use Rattle.wasm_store.specs.Store.{Function};
ghost use Rattle.wasm_store.specs.Step.{start};
ghost use Rattle.wasm_store.specs.Views.{function_of};
ghost use Rattle.copy_engine.specs.Nested.{is_realloc, realloc_in, bytes_in, NestedGives};

use ca_base::Fuel;
use std::alloc::Global;
use syntax_trees::are_same;
use syntax_trees::module_types::ValType;
use thiserror::Error;
use value_lower::RoomEnd;
use wasm_execution::{Outcome, Words, run, start};
use wasm_store::{FunctionInstance, Store, Trap};

/// A function of the host that nested code calls.
#[derive(Drop)]
pub struct HostCall {
    /// Its address in the store.
    pub address: usize,
    /// The words that it is called with.
    pub words: Words,
}

/// Why nested code gives no answer.
#[derive(Clone, Copy, Debug, Error)]
pub enum NestedTrap {
    /// A trap of core code.
    #[error("core code trapped: {0}")]
    Core(Trap),
    /// A function of the host is called.
    #[error("a function of the host is called")]
    CannotLeave,
    /// There is no function to call of four i32 that gives one. Linking asks for one where a value of the types may need a place.
    #[error("there is no function that gives places")]
    NoRealloc,
}

/// Whether a function takes four i32 and gives one.
fn is_realloc(function: &FunctionInstance) -> bool
    ensures { result ≡ is_realloc (function_of function.now) }
{
    let params = [ValType::I32, ValType::I32, ValType::I32, ValType::I32];
    let results = [ValType::I32];
    are_same(function.params(), &params) && are_same(function.results(), &results)
}

/// The address of the function that a realloc calls, where there is one.
pub(crate) fn realloc_in(store: &Store, realloc: Option<usize>) -> Option<usize>
    ensures { MatchOption result (realloc_in realloc store.now ≡ None) (λ address. (f : Function) × (realloc_in realloc store.now ≡ Some (address, f))) }
{
    let address = realloc?;
    if address < store.function_count() && is_realloc(store.function(address)) {
        Some(address)
    } else {
        None
    }
}

/// The one word of a list.
pub(crate) fn only_word(words: &Words) -> u32
    requires { (word : ℕ) × (words.now ≡ word ∷ []) × (word < 2 ^ 32) }
    ensures { words.now ≡ result ∷ [] }
{
    words.as_slice()[0] as u32
}

/// Runs a realloc: the function at this address, with these words, on a stack of its own. A function of the host that it calls is kept,
/// and the stack that waits for it is given up.
pub(crate) fn run_realloc(
    alloc: Global,
    store: &mut Store,
    fuel: &mut Fuel,
    call: &mut Option<HostCall>,
    address: usize,
    words: &[u64],
) -> Result<u32, RoomEnd<NestedTrap>>
    requires there { (f : Function) × (slice_get store.old.funcs address ≡ Some f) × (is_realloc f ≡ true) }
    requires words { AreWords (I32 ∷ I32 ∷ I32 ∷ I32 ∷ []) words.now }
    ensures gives { (f : Function) → slice_get store.old.funcs address ≡ Some f → NestedGives (record { store = store.old; units = fuel.old; call = call.old }) (start f address words.now) result (record { store = store.new; units = fuel.new; call = call.new }) }
    ensures grows { (memory : ℕ) → length (bytes_in memory store.old) ≤ length (bytes_in memory store.new) }
{
    // Its clause says that the store is typed.
    let _count = store.function_count();
    let Ok(running) = start(alloc, store, address, words) else {
        return Err(RoomEnd::Memory);
    };
    match run(alloc, running, store, fuel) {
        Outcome::Done(words) => Ok(only_word(&words)),
        Outcome::Calls(address, words, waiting) => {
            waiting.give_up();
            *call = Some(HostCall { address, words });
            Err(RoomEnd::Trapped(NestedTrap::CannotLeave))
        }
        Outcome::Trapped(why) => Err(RoomEnd::Trapped(NestedTrap::Core(why))),
        Outcome::NoFuel(later) => {
            later.give_up();
            Err(RoomEnd::NoFuel)
        }
        Outcome::Memory => Err(RoomEnd::Memory),
    }
}
