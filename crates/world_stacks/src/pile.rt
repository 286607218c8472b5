//! The stacks of a task.

ghost use Rattle.std.specs.Prelude.{◌≡◌};
ghost use Rattle.world_stacks.specs.declared.top.Top.TheVariants as top;
ghost use Rattle.world_stacks.specs.Piles.{new_pile, with_top, gone_on, stacked, unstacked, Turns};

use crate::host_call::HostCall;
use crate::top::Top;
use std::alloc::Global;
use std::marker::Model;
use std::mem;
use wasm_execution::Running;
use wasm_store::Store;
use world_parts::{Part, Stop};

/// The stacks of a task: the acting one, and under it those whose `resource.drop` runs a destructor, which wait. Contracts see the
/// innermost of these first.
pub struct Pile {
    pub(crate) top: Top,
    /// The innermost one stands last.
    pub(crate) under: Vec<HostCall>,
}

impl Model for Pile {
    ghost use Rattle.std.specs.Coded.{codes};
    ghost use Rattle.std.specs.Prelude.{reverse};
    ghost use Rattle.world_stacks.specs.Views.{PileView};
    ghost use Rattle.world_stacks.specs.contracts.host_call.HostCall as calls;
    ghost use Rattle.world_stacks.specs.contracts.top.Top as tops;

    ghost Value = { PileView };

    ghost coded = { Prim.hlevel (codes, tops.the_row.coded, calls.the_row.coded) };

    ghost view = { λ p. record { top = p.top; under = reverse p.under.items } };
}

impl Pile {
    /// No stack. It takes no memory.
    pub(crate) fn new(alloc: Global) -> Pile
        ensures { result ≡ new_pile }
    {
        Pile {
            top: Top::Empty,
            under: Vec::new(alloc),
        }
    }

    /// Takes the acting stack out.
    pub(crate) fn take(&mut self) -> Top
        ensures taken { result ≡ self.old.top }
        ensures left { self.new ≡ with_top top.Empty self.old }
    {
        mem::replace(&mut self.top, Top::Empty)
    }

    /// Puts an acting stack there. One that was there is given up.
    pub(crate) fn put(&mut self, top: Top)
        ensures { self.new ≡ with_top top self.old }
    {
        let before = mem::replace(&mut self.top, top);
        before.give_up();
    }

    /// The acting stack goes on with words, where it waits for such.
    pub(crate) fn go_on(&mut self, store: &Store, words: &[u64]) -> Part<()>
        ensures { Turns (gone_on store.now words.now self.old) result self.new }
    {
        match self.take() {
            Top::Waits(call) => match call.resumed(store, words) {
                Some(running) => {
                    self.put(Top::Goes(running));
                    Ok(())
                }
                None => Err(Stop::Stuck),
            },
            Top::Goes(running) => {
                running.give_up();
                Err(Stop::Stuck)
            }
            Top::Empty => Err(Stop::Stuck),
        }
    }

    /// A further stack is to run. The acting one, which waits, is put under it.
    pub(crate) fn stack(&mut self, running: Running) -> Part<()>
        ensures { Turns (stacked running self.old) result self.new }
    {
        match self.take() {
            Top::Empty => {
                self.put(Top::Goes(running));
                Ok(())
            }
            Top::Waits(call) => self.push_under(call, running),
            Top::Goes(before) => {
                before.give_up();
                running.give_up();
                Err(Stop::Stuck)
            }
        }
    }

    /// Puts a stack that waits under the acting one, which is to run.
    fn push_under(&mut self, call: HostCall, running: Running) -> Part<()>
        ensures { Turns (stacked running (with_top (top.Waits call) self.old)) result self.new }
    {
        let Ok(()) = self.under.reserve(1) else {
            call.give_up();
            running.give_up();
            return Err(Stop::Memory);
        };
        self.under.push_reserved(call);
        self.put(Top::Goes(running));
        Ok(())
    }

    /// The acting stack has ended, and the one under it goes on with no words. The answer is whether there is one.
    pub(crate) fn unstack(&mut self, store: &Store) -> Part<bool>
        ensures { Turns (unstacked store.now self.old.under self.old) result self.new }
    {
        match self.under.pop() {
            None => Ok(false),
            Some(call) => match call.resumed(store, &[]) {
                Some(running) => {
                    self.put(Top::Goes(running));
                    Ok(true)
                }
                None => Err(Stop::Stuck),
            },
        }
    }

    /// Lets all go.
    pub(crate) fn give_up(self) {
        let Pile { top, mut under } = self;
        top.give_up();
        while let Some(call) = under.pop() {
            call.give_up();
        }
        under.destroy_empty();
    }
}
