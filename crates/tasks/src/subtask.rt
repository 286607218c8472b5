//! A subtask.

ghost use Rattle.std.specs.Prelude.{◌≡◌, ◌∷◌, [], OnOk, OnErr, IsTrue, not};
ghost use Rattle.tasks.specs.Subtasks.{code_of, is_over, follows, new_subtask, has_event, raised, delivered, with_lend};
ghost use Rattle.tasks.specs.SubtaskHistory.{SubtaskHistory, SubtaskStandsFor, and_step, Rises, IsTold, Lends};

use crate::Nums;
use crate::subtask_state::SubtaskState;
use faults::Memory;
use std::alloc::Global;
use std::marker::Model;

/// A subtask: a call as its caller sees it.
#[derive(Drop)]
pub struct Subtask {
    alloc: Global,
    callee: u32,
    state: SubtaskState,
    told: SubtaskState,
    lends: Nums,
}

impl Model for Subtask {
    ghost use Rattle.tasks.specs.Views.{SubtaskView};

    ghost Value = { SubtaskView };

    ghost view = { λ s. record { callee = s.callee; state = s.state; told = s.told; lends = s.lends } };
}

impl Subtask {
    /// The subtask of a new call of this task. It takes no memory.
    pub fn new(alloc: Global, callee: u32) -> Subtask
        ensures exact { result ≡ new_subtask callee }
        ensures stands { SubtaskStandsFor (record { callee = callee; steps = [] }) result }
    {
        Subtask {
            alloc,
            callee,
            state: SubtaskState::Starting,
            told: SubtaskState::Starting,
            lends: Nums::new(alloc),
        }
    }

    /// The task that was called.
    pub fn callee(&self) -> u32
        ensures exact { result ≡ self.now.callee }
    {
        self.callee
    }

    /// How far it is.
    pub fn state(&self) -> SubtaskState
        ensures exact { result ≡ self.now.state }
    {
        self.state
    }

    /// The state that its caller was told last. A new subtask counts as told that it starts.
    pub fn told(&self) -> SubtaskState
        ensures exact { result ≡ self.now.told }
    {
        self.told
    }

    /// The caller's handles that are lent for the call, in the order of lending.
    pub fn lends(&self) -> &Nums
        ensures exact { result.now ≡ self.now.lends }
    {
        &self.lends
    }

    /// The number of its state, which is the payload of its event.
    pub fn payload(&self) -> u32
        ensures exact { result ≡ code_of self.now.state }
    {
        self.state.code()
    }

    /// Whether its state isn't the one that its caller was told last.
    pub fn has_event(&self) -> bool
        ensures exact { result ≡ has_event self.now }
    {
        self.state.code() != self.told.code()
    }

    /// Lets its state rise to the next one: from starting to started or cancelled before that, and from started to
    /// returned or cancelled before that.
    pub fn advance(&mut self, state: SubtaskState)
        requires { IsTrue (follows self.old.state state) }
        ensures exact { self.new ≡ raised state self.old }
        ensures stands { (h : SubtaskHistory) → SubtaskStandsFor h self.old → SubtaskStandsFor (and_step (Rises state) h) self.new }
    {
        self.raise(state);
    }

    /// Tells its state, and answers the payload. Once a resolved state is told nothing is lent any more.
    pub fn deliver(&mut self) -> u32
        requires { IsTrue (has_event self.old) }
        ensures payload { result ≡ code_of self.old.state }
        ensures exact { self.new ≡ delivered self.old }
        ensures stands { (h : SubtaskHistory) → SubtaskStandsFor h self.old → SubtaskStandsFor (and_step IsTold h) self.new }
    {
        let payload = self.payload();
        self.tell();
        payload
    }

    /// Counts a handle as lent for the call, which isn't resolved. After `Memory` the subtask is as it was.
    pub fn add_lend(&mut self, handle: u32) -> Result<(), Memory>
        requires { IsTrue (not (is_over self.old.state)) }
        ensures exact { OnOk result (self.new ≡ with_lend handle self.old) }
        ensures stands { OnOk result ((h : SubtaskHistory) → SubtaskStandsFor h self.old → SubtaskStandsFor (and_step (Lends handle) h) self.new) }
        ensures memory { OnErr result (self.new ≡ self.old) }
    {
        self.lends.push(handle)?;
        Ok(())
    }

    /// Sets its state.
    fn raise(&mut self, state: SubtaskState)
        ensures { self.new ≡ raised state self.old }
    {
        self.state = state;
    }

    /// Counts its state as told, and with the last one frees what was lent.
    fn tell(&mut self)
        ensures { self.new ≡ delivered self.old }
    {
        self.told = self.state;
        if self.state.is_over() {
            self.lends = Nums::new(self.alloc);
        }
    }
}
