//! Calls of functions of the host, at which stacks wait.

ghost use Rattle.std.specs.Prelude.{◌≡◌};
ghost use Rattle.world_stacks.specs.Piles.{resumed_at};

use crate::starting::{gives_words, resumed};
use wasm_execution::{Running, Suspended};
use wasm_store::Store;

/// A call of a function of the host, at which a stack waits (Core 2.0, section 4.5.5).
pub struct HostCall {
    /// The address of the function.
    pub address: usize,
    /// The stack that waits.
    pub waiting: Suspended,
}

impl HostCall {
    /// The stack that goes on with these words, where they are such as the function gives. Else it is given up.
    pub(crate) fn resumed(self, store: &Store, words: &[u64]) -> Option<Running>
        ensures { result ≡ resumed_at store.now words.now self }
    {
        let HostCall { address, waiting } = self;
        if gives_words(store, address, words) {
            resumed(waiting, words)
        } else {
            waiting.give_up();
            None
        }
    }

    /// Lets the stack go.
    pub(crate) fn give_up(self) {
        let HostCall {
            address: _,
            waiting,
        } = self;
        waiting.give_up();
    }
}
