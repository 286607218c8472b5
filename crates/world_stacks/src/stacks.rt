//! The stacks of all tasks.

ghost use Rattle.std.specs.Prelude.{◌≡◌, ◌++◌, ◌∷◌, [], OnOk};
ghost use Rattle.world_stacks.specs.Piles.{new_pile, gone_on, stacked, at_pile, Turns};

use crate::pile::Pile;
use std::alloc::Global;
use wasm_execution::Running;
use wasm_store::Store;
use world_parts::{Part, Stop};

/// The stacks of all tasks, by their numbers.
pub struct Stacks {
    /// Those of each task.
    pub piles: Vec<Pile>,
}

impl Stacks {
    /// No task. It takes no memory.
    pub fn new(alloc: Global) -> Stacks
        ensures { result.piles.items ≡ [] }
    {
        Stacks {
            piles: Vec::new(alloc),
        }
    }

    /// The next task is made, which has no stack.
    pub fn add(&mut self, alloc: Global) -> Part<()>
        ensures { OnOk result (self.new.piles.items ≡ self.old.piles.items ++ new_pile ∷ []) }
    {
        let Ok(()) = self.piles.reserve(1) else {
            return Err(Stop::Memory);
        };
        self.piles.push_reserved(Pile::new(alloc));
        Ok(())
    }

    /// The acting stack of a task goes on with words, where it waits for such.
    pub(crate) fn go_on(&mut self, store: &Store, task: u32, words: &[u64]) -> Part<()>
        ensures { Turns (at_pile (gone_on store.now words.now) task self.old.piles.items) result self.new.piles.items }
    {
        let at = task as usize;
        if at >= self.piles.len() {
            return Err(Stop::Stuck);
        }
        self.piles[at].go_on(store, words)?;
        Ok(())
    }

    /// A further stack of a task is to run.
    pub(crate) fn stack(&mut self, task: u32, running: Running) -> Part<()>
        ensures { Turns (at_pile (stacked running) task self.old.piles.items) result self.new.piles.items }
    {
        let at = task as usize;
        if at >= self.piles.len() {
            running.give_up();
            return Err(Stop::Stuck);
        }
        self.piles[at].stack(running)?;
        Ok(())
    }

    /// Lets all go.
    pub fn give_up(self) {
        let Stacks { mut piles } = self;
        while let Some(pile) = piles.pop() {
            pile.give_up();
        }
        piles.destroy_empty();
    }
}
