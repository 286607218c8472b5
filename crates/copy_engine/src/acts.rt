//! What code that gives out places does beside.

use syntax_trees::Seq;
use wasm_execution::Words;

/// A call of a canonical function.
#[derive(Drop)]
pub struct Act {
    /// The number of the function, which is its address in the store.
    pub canon: usize,
    /// The words that it is called with.
    pub words: Words,
    /// The words of the answer; none where the call is refused.
    pub got: Option<Words>,
}

/// What code that gives out places has of the task for which it acts, and which canonical functions it called.
#[derive(Drop)]
pub struct Acts {
    /// The two words of context of the task.
    pub context: (u32, u32),
    /// The calls, in order. Each but the last one has an answer.
    pub calls: Seq<Act>,
}
