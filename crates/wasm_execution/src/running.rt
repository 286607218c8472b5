//! Stacks that run, that wait for a host function, and what comes of them.

ghost use Rattle.std.specs.Prelude.{◌≡◌, length};
ghost use Rattle.wasm_store.specs.Step.{resume};

use crate::frame::Frame;
use std::marker::Model;
use syntax_trees::Seq;
use wasm_store::Trap;

/// A list of values.
pub type Words = Seq<u64>;

/// The function that runs, and those that called it.
#[derive(Drop)]
pub(crate) struct Frames {
    /// The one that runs.
    pub(crate) top: Frame,
    /// Those that wait, the innermost at the end.
    pub(crate) callers: Vec<Frame>,
}

/// What a stack consists of.
#[derive(Drop)]
pub(crate) enum State {
    /// Functions of instances.
    Active(Frames),
    /// A function of the host that is to be called, by its address, with these words.
    AtHost(usize, Vec<u64>),
    /// The words that a function of the host gave.
    Given(Vec<u64>),
}

/// A stack that runs and has not ended (Core 2.0, section 4.2.14). It is spent by `run` or given up. Contracts see it as the
/// stack of wasm_store.
pub struct Running {
    pub(crate) state: State,
}

impl Model for Running {
    ghost use Rattle.wasm_store.specs.Stack.{Stack};
    ghost use Rattle.wasm_store.specs.Codes.{stack_code};
    ghost use Rattle.wasm_execution.specs.Stacks.{stack_of, ArePlaced};

    ghost Value = { Stack };

    ghost coded = { stack_code };

    ghost view = { λ r. stack_of r.state };

    ghost invariant = { λ r. ArePlaced r.state };
}

impl Running {
    /// Lets the stack go before its end.
    pub fn give_up(self) {
        let Running { state: _ } = self;
    }
}

/// A stack that waits for the words of a host function that it called. It is spent by `resume` or given up. Contracts see it as the
/// stack of wasm_store, and for how many words it waits.
pub struct Suspended {
    pub(crate) state: State,
    pub(crate) count: usize,
}

impl Model for Suspended {
    ghost use Rattle.wasm_execution.specs.Waiting.{Waiting, waiting_code};
    ghost use Rattle.wasm_execution.specs.Stacks.{stack_of, ArePlaced, HasRoom};

    ghost Value = { Waiting };

    ghost coded = { waiting_code };

    ghost view = { λ w. record { stack = stack_of w.state; count = w.count } };

    ghost invariant = { λ w. ArePlaced w.state × HasRoom w.count w.state };
}

impl Suspended {
    /// For how many words it waits.
    pub fn count(&self) -> usize
        ensures { result ≡ self.now.count }
    {
        self.count
    }

    /// Lets the stack go before its end.
    pub fn give_up(self) {
        let Suspended { state: _, count: _ } = self;
    }
}

/// What came of a run.
pub enum Outcome {
    /// The stack ended with these words.
    Done(Words),
    /// A function of the host is called, by its address, with these words, and the stack waits for what it gives.
    Calls(usize, Words, Suspended),
    /// The stack ended with a trap.
    Trapped(Trap),
    /// The next instruction came while no fuel was left. The stack can run on.
    NoFuel(Running),
    /// No memory was left for a step, and the stack is given up. The store is as the steps before it left it; of fuel the unit of that
    /// step may be spent too.
    Memory,
}
