//! Who enters an instance, and its backpressure (Component Model, CanonicalABI.md, "Task State", `canon backpressure.set` and `canon
//! backpressure.{inc,dec}`).

ghost use Rattle.std.specs.Prelude.{◌≡◌, ◌+◌, ◌-◌, ◌<◌, ◌^◌, nat_lt, if◌then◌else◌, MatchResult};
ghost use Rattle.entry_gate.specs.Gates.{is_free, may_enter, with_wait, without_wait, entered, given_up, held_by, with_pressure, set_pressure};
ghost use Rattle.instances.specs.Instances.{with_gate};

use crate::instance::Instance;
use entry_gate::{Kind, PressureLimit, PressureZero};
use faults::Memory;

impl Instance {
    /// Whether a task of this kind may enter: one that waits, or a newcomer.
    pub fn may_enter(&self, kind: Kind, newcomer: bool) -> bool
        ensures { result ≡ may_enter kind newcomer self.now.gate }
    {
        self.gate.may_enter(kind, newcomer)
    }

    /// Whether no task holds exclusive entry.
    pub fn is_entry_free(&self) -> bool
        ensures { result ≡ is_free self.now.gate }
    {
        self.gate.is_free()
    }

    /// Whether a task waits to enter.
    pub fn has_waiting(&self) -> bool
        ensures { result ≡ nat_lt 0 self.now.gate.waiting }
    {
        self.gate.waiting() > 0
    }

    /// A task begins to wait to enter. `Memory` comes where 2^64 - 1 tasks wait, and the instance is as it was.
    pub fn wait(&mut self) -> Result<(), Memory>
        ensures { MatchResult result (λ _. self.new ≡ with_gate (with_wait self.old.gate) self.old) (λ _. (self.old.gate.waiting + 1 ≡ 2 ^ 64) × (self.new ≡ self.old)) }
    {
        if self.gate.waiting() == u64::MAX {
            return Err(Memory);
        }
        self.gate.wait();
        Ok(())
    }

    /// A task that waited to enter waits no longer. Where none waits nothing changes, and the answer is false.
    pub fn unwait(&mut self) -> bool
        ensures value { result ≡ nat_lt 0 self.old.gate.waiting }
        ensures exact { self.new ≡ (if result then with_gate (without_wait self.old.gate) self.old else self.old) }
    {
        if self.gate.waiting() == 0 {
            return false;
        }
        self.gate.unwait();
        true
    }

    /// A task of this kind enters. One that needs exclusive entry holds it from now on.
    pub fn enter(&mut self, task: u32, kind: Kind)
        ensures { self.new ≡ with_gate (entered task kind self.old.gate) self.old }
    {
        self.gate.enter(task, kind);
    }

    /// A task leaves, and gives up exclusive entry where it holds it.
    pub fn leave(&mut self, task: u32)
        ensures { self.new ≡ with_gate (given_up task self.old.gate) self.old }
    {
        self.gate.leave(task);
    }

    /// A task with a callback blocks in its loop, and gives up exclusive entry.
    pub fn pause(&mut self, task: u32)
        ensures { self.new ≡ with_gate (given_up task self.old.gate) self.old }
    {
        self.gate.pause(task);
    }

    /// A task with a callback goes on in its loop, and takes exclusive entry again.
    pub fn take_back(&mut self, task: u32)
        ensures { self.new ≡ with_gate (held_by task self.old.gate) self.old }
    {
        self.gate.take_back(task);
    }

    /// Raises the backpressure by one. At 65,535 it is `PressureLimit`, and nothing changes.
    pub fn raise_pressure(&mut self) -> Result<(), PressureLimit>
        ensures { MatchResult result (λ _. (self.old.gate.pressure < 65535) × (self.new ≡ with_gate (with_pressure (self.old.gate.pressure + 1) self.old.gate) self.old)) (λ _. (self.old.gate.pressure ≡ 65535) × (self.new ≡ self.old)) }
    {
        self.gate.inc()
    }

    /// Lowers the backpressure by one. At 0 it is `PressureZero`, and nothing changes.
    pub fn lower_pressure(&mut self) -> Result<(), PressureZero>
        ensures { MatchResult result (λ _. (0 < self.old.gate.pressure) × (self.new ≡ with_gate (with_pressure (self.old.gate.pressure - 1) self.old.gate) self.old)) (λ _. (self.old.gate.pressure ≡ 0) × (self.new ≡ self.old)) }
    {
        self.gate.dec()
    }

    /// Sets the backpressure to 0 for 0, and else to 1.
    pub fn set_pressure(&mut self, enabled: u32)
        ensures { self.new ≡ with_gate (with_pressure (set_pressure enabled) self.old.gate) self.old }
    {
        self.gate.set(enabled);
    }
}
