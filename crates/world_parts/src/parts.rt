//! What is kept of a world, and what a part of a step comes to.

use ca_base::Fuel;
use channels::Channel;
use choices::Picks;
use comp_graph::FuncRef;
use instances::Instance;
use syntax_trees::Seq;
use task_table::{Tasks, Words};
use trace_labels::{Label, TrapName};
use wasm_store::Store;

/// Where a run is between its steps.
#[derive(Clone, Copy)]
pub enum Rest {
    /// Task 0 is at this action of the graph's plan.
    Instantiates(usize),
    /// No task runs.
    Free,
    /// The acting task is new.
    Arrives,
    /// The acting task was blocked, and is to go on.
    Goes,
    /// It goes on, by what it was blocked at.
    Resumes,
    /// Control is back at the acting task, which called or cancelled another one.
    Back,
    /// The acting task's stack makes moves.
    Runs,
    /// It waits at a call of the canonical function of this number, with the words that its slot keeps.
    Calls(u32),
    /// The acting task exits.
    Leaves,
}

/// What a script gives, and what a run tells.
#[derive(Drop)]
pub struct Feed {
    /// The units of fuel that are left.
    pub left: Fuel,
    /// The picks that are left.
    pub picks: Picks,
    /// How many items are taken.
    pub taken: u32,
    /// How many moves were made.
    pub moves: u64,
    /// The lines that were not handed on.
    pub labels: Seq<Label>,
}

/// What is kept of a world.
#[derive(Drop)]
pub struct Parts {
    /// The store of all core instances.
    pub store: Store,
    /// The address of the memory of each core instance, by its number, where it has one.
    pub memories: Vec<Option<usize>>,
    /// The component instances that have begun.
    pub instances: Vec<Instance>,
    /// The tasks.
    pub tasks: Tasks,
    /// The streams, counted from 1.
    pub streams: Vec<Channel>,
    /// The futures, counted from 1.
    pub futures: Vec<Channel>,
    /// The running tasks. Each called the next one, or cancelled it, and the last one acts.
    pub chain: Vec<u32>,
    /// Where the run is.
    pub rest: Rest,
    /// What the script gives.
    pub feed: Feed,
}

/// Why a part of a step answers nothing.
#[derive(Clone, Copy)]
pub enum Stop {
    /// The task that acts comes to a trap.
    Trap(TrapName),
    /// The next step costs a unit of fuel, and none is left.
    NoFuel,
    /// No rule of the machine applies.
    Stuck,
    /// There is no memory, or no more can be counted.
    Memory,
}

/// What a part of a step comes to.
pub type Part<T> = Result<T, Stop>;

/// A read or write that meets an offer: elements are to go over.
#[derive(Clone, Copy)]
pub struct Copying {
    /// The canonical function that reads or writes.
    pub canon: u32,
    /// The index of its end.
    pub index: u32,
    /// Its place in memory.
    pub place: u32,
    /// How many elements it has room for or offers.
    pub length: u32,
    /// How many elements go over.
    pub count: u32,
}

/// What gets an event.
#[derive(Clone, Copy)]
pub enum Receiver {
    /// The wait of a task, at a call of this canonical function with this place for the event.
    InWait {
        /// The canonical function.
        canon: u32,
        /// The place in memory.
        place: u32,
    },
    /// The task's callback.
    InCallback,
}

/// What is to be done behind a part of a step. Where the run is then stands in `Parts::rest`.
#[derive(Drop)]
pub enum Flow {
    /// The acting task's stack goes on with these words, which the built-in answers.
    Now(Words),
    /// Nothing.
    Rests,
    /// A core function starts with these words, on a further stack of the acting task.
    Starts(FuncRef, Words),
    /// The acting task enters: its arguments are lifted.
    Enters,
    /// The acting task's result is lifted from the words of the call.
    Returns,
    /// Elements are copied.
    Copies(Copying),
    /// The event of a ready member of the set of this number comes to the acting task.
    Delivers(Receiver, u64),
    /// The same, where a member is ready; else no event comes.
    Polls(Receiver, u64),
    /// No event comes to the acting task.
    HearsNone(Receiver),
    /// The event comes to the acting task that its cancellation is asked.
    HearsCancel(Receiver),
}

/// What comes of a turn.
#[derive(Clone, Copy)]
pub enum Turned {
    /// Nothing may be done.
    Ends,
    /// An item of the script is taken.
    TakesItem,
    /// A task goes on.
    GoesOn,
}
