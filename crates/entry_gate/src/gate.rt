//! The gate of an instance.

ghost use Rattle.std.specs.Prelude.{◌≡◌, ℕ, ◌+◌, ◌-◌, ◌<◌, ◌≤◌, ◌^◌, IsTrue, MatchResult, None, List, count_by, is_none};
ghost use Rattle.entry_gate.specs.declared.kind.Kind.TheVariants.{Callback};
ghost use Rattle.entry_gate.specs.Gates.{GateView, new_gate, is_free, is_open, may_enter, with_wait, without_wait, held_by, entered, given_up, with_pressure, set_pressure};
ghost use Rattle.entry_gate.specs.Stays.{Instance, Stay, Outside, Waiting, Inside, InLoop, with_stay, nobody, waits, holder_of, StandsFor};
ghost use Rattle.entry_gate.specs.Runs.{gate_of};

use crate::kind::Kind;
use std::marker::Model;
use thiserror::Error;

/// The greatest backpressure that `Gate::inc` reaches.
const MAX_PRESSURE: u32 = 65_535;

/// The backpressure of an instance can't grow.
#[derive(Clone, Copy, Debug, Error)]
#[error("the backpressure is at its limit of 65,535")]
pub struct PressureLimit;

/// The backpressure of an instance is 0 already.
#[derive(Clone, Copy, Debug, Error)]
#[error("the backpressure is 0 already")]
pub struct PressureZero;

/// Who may enter an instance: its backpressure, the task that holds its exclusive entry, and the number of tasks that wait
/// to enter. No call takes memory.
#[derive(Drop)]
pub struct Gate {
    pressure: u32,
    holder: Option<u32>,
    waiting: u64,
}

impl Model for Gate {
    ghost use Rattle.std.specs.Prelude.{◌≤◌};
    ghost use Rattle.entry_gate.specs.Gates.{GateView};

    ghost Value = { GateView };

    ghost view = { λ g. record { pressure = g.pressure; holder = g.holder; waiting = g.waiting } };

    ghost invariant = { λ g. g.pressure ≤ 65535 };
}

impl Gate {
    /// The gate of a new instance: no backpressure, no holder, and no task that waits.
    pub fn new() -> Gate
        ensures exact { result ≡ new_gate }
        ensures stands { StandsFor nobody result }
    {
        Gate {
            pressure: 0,
            holder: None,
            waiting: 0,
        }
    }

    /// Whether a task of this kind may enter: one that waits, or a newcomer.
    pub fn may_enter(&self, kind: Kind, newcomer: bool) -> bool
        ensures exact { result ≡ may_enter kind newcomer self.now }
        ensures limit { self.now.pressure ≤ 65535 }
        ensures stands { (i : Instance) → StandsFor i self.now → result ≡ may_enter kind newcomer (gate_of i) }
    {
        let bars = kind.needs_entry() && self.holder.is_some();
        let behind = newcomer && self.waiting > 0;
        self.pressure == 0 && !bars && !behind
    }

    /// Whether no task holds exclusive entry.
    pub fn is_free(&self) -> bool
        ensures exact { result ≡ is_free self.now }
        ensures stands { (i : Instance) → StandsFor i self.now → result ≡ is_none (holder_of i.stays) }
    {
        self.holder.is_none()
    }

    /// How many tasks wait to enter.
    pub fn waiting(&self) -> u64
        ensures exact { result ≡ self.now.waiting }
        ensures stands { (i : Instance) → StandsFor i self.now → result ≡ count_by waits i.stays }
    {
        self.waiting
    }

    /// A task begins to wait to enter.
    pub fn wait(&mut self)
        requires { self.old.waiting + 1 < 2 ^ 64 }
        ensures exact { self.new ≡ with_wait self.old }
        ensures stands { (pressure task : ℕ) (kind : Kind) (before after : List Stay) → StandsFor (with_stay pressure before task kind Outside after) self.old → StandsFor (with_stay pressure before task kind Waiting after) self.new }
    {
        self.waiting += 1;
    }

    /// A task that waited to enter waits no longer: it enters next, or is taken away.
    pub fn unwait(&mut self)
        requires { 0 < self.old.waiting }
        ensures exact { self.new ≡ without_wait self.old }
        ensures stands { (pressure task : ℕ) (kind : Kind) (before after : List Stay) → StandsFor (with_stay pressure before task kind Waiting after) self.old → StandsFor (with_stay pressure before task kind Outside after) self.new }
    {
        self.waiting -= 1;
    }

    /// A task of this kind enters. One that needs exclusive entry holds it from now on.
    pub fn enter(&mut self, task: u32, kind: Kind)
        ensures exact { self.new ≡ entered task kind self.old }
        ensures stands { (pressure : ℕ) (before after : List Stay) → IsTrue (is_open kind self.old) → StandsFor (with_stay pressure before task kind Outside after) self.old → StandsFor (with_stay pressure before task kind Inside after) self.new }
    {
        if kind.needs_entry() {
            self.holder = Some(task);
        }
    }

    /// A task leaves, and gives up exclusive entry where it holds it.
    pub fn leave(&mut self, task: u32)
        ensures exact { self.new ≡ given_up task self.old }
        ensures stands { (pressure : ℕ) (kind : Kind) (before after : List Stay) → StandsFor (with_stay pressure before task kind Inside after) self.old → StandsFor (with_stay pressure before task kind Outside after) self.new }
    {
        if self.holder == Some(task) {
            self.holder = None;
        }
    }

    /// A task with a callback blocks in its loop, and gives up exclusive entry.
    pub fn pause(&mut self, task: u32)
        ensures exact { self.new ≡ given_up task self.old }
        ensures stands { (pressure : ℕ) (kind : Kind) (before after : List Stay) → StandsFor (with_stay pressure before task kind Inside after) self.old → StandsFor (with_stay pressure before task kind InLoop after) self.new }
    {
        self.leave(task);
    }

    /// A task with a callback goes on in its loop, and takes exclusive entry again.
    pub fn take_back(&mut self, task: u32)
        ensures exact { self.new ≡ held_by task self.old }
        ensures stands { (pressure : ℕ) (before after : List Stay) → IsTrue (is_free self.old) → StandsFor (with_stay pressure before task Callback InLoop after) self.old → StandsFor (with_stay pressure before task Callback Inside after) self.new }
    {
        self.holder = Some(task);
    }

    /// Raises the backpressure by one. At 65,535 it is `PressureLimit`, and nothing changes.
    pub fn inc(&mut self) -> Result<(), PressureLimit>
        ensures exact { MatchResult result (λ _. (self.old.pressure < 65535) × (self.new ≡ with_pressure (self.old.pressure + 1) self.old)) (λ _. (self.old.pressure ≡ 65535) × (self.new ≡ self.old)) }
        ensures stands { (i : Instance) → StandsFor i self.old → StandsFor (record i { pressure = self.new.pressure }) self.new }
    {
        if self.pressure == MAX_PRESSURE {
            return Err(PressureLimit);
        }
        self.pressure += 1;
        Ok(())
    }

    /// Lowers the backpressure by one. At 0 it is `PressureZero`, and nothing changes.
    pub fn dec(&mut self) -> Result<(), PressureZero>
        ensures exact { MatchResult result (λ _. (0 < self.old.pressure) × (self.new ≡ with_pressure (self.old.pressure - 1) self.old)) (λ _. (self.old.pressure ≡ 0) × (self.new ≡ self.old)) }
        ensures stands { (i : Instance) → StandsFor i self.old → StandsFor (record i { pressure = self.new.pressure }) self.new }
    {
        if self.pressure == 0 {
            return Err(PressureZero);
        }
        self.pressure -= 1;
        Ok(())
    }

    /// Sets the backpressure to 0 for 0, and else to 1.
    pub fn set(&mut self, enabled: u32)
        ensures exact { self.new ≡ with_pressure (set_pressure enabled) self.old }
        ensures stands { (i : Instance) → StandsFor i self.old → StandsFor (record i { pressure = set_pressure enabled }) self.new }
    {
        self.pressure = if enabled == 0 { 0 } else { 1 };
    }
}
