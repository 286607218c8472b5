//! What a script gives, lines, and the chain of running tasks.

ghost use Rattle.std.specs.Prelude.{◌≡◌, ◌<◌, ◌∷◌, [], IfOk};
ghost use Rattle.world_parts.specs.Held.{Does, Tells};
ghost use Rattle.world_parts.specs.Feed.{told, spent, moved, item_taken, chosen, choice, acting, chained, rest_behind, left_chain, got};

use crate::parts::{Flow, Part, Parts, Rest, Stop};
use faults::Memory;
use std::alloc::Global;
use task_table::Words;
use trace_labels::Label;

/// The same words.
pub fn same_words(alloc: Global, words: &[u64]) -> Result<Words, Memory>
    ensures { IfOk result (λ same. same ≡ words.now) }
{
    match Vec::from_slice(alloc, words) {
        Ok(same) => Ok(Words::from_vec(same)),
        Err(_) => Err(Memory),
    }
}

impl Parts {
    /// Tells a line.
    pub fn tell(&mut self, label: Label) -> Part<()>
        ensures { Does (told label) self.old result self.new }
    {
        match self.feed.labels.push(label) {
            Ok(()) => Ok(()),
            Err(_) => Err(Stop::Memory),
        }
    }

    /// Spends a unit of fuel.
    pub fn spend(&mut self) -> Part<()>
        ensures { Does spent self.old result self.new }
    {
        if self.feed.left.spend() {
            Ok(())
        } else {
            Err(Stop::NoFuel)
        }
    }

    /// Counts a move.
    pub fn count_move(&mut self) -> Part<()>
        ensures { Does moved self.old result self.new }
    {
        let Some(moves) = self.feed.moves.checked_add(1) else {
            return Err(Stop::Memory);
        };
        self.feed.moves = moves;
        Ok(())
    }

    /// Takes an item of the script.
    pub fn take_item(&mut self) -> Part<()>
        ensures { Does item_taken self.old result self.new }
    {
        let Some(taken) = self.feed.taken.checked_add(1) else {
            return Err(Stop::Memory);
        };
        self.feed.taken = taken;
        Ok(())
    }

    /// Picks one of so many alternatives, and answers its number from 0 on. Among two or more that is a line.
    pub fn choose(&mut self, alternatives: usize) -> Part<u32>
        ensures { Does (choice alternatives) self.old result self.new }
    {
        let Ok(alternatives) = u32::try_from(alternatives) else {
            return Err(Stop::Memory);
        };
        if 1 < alternatives {
            self.pick(alternatives)
        } else {
            Ok(0)
        }
    }

    /// Picks one of two or more alternatives.
    fn pick(&mut self, alternatives: u32) -> Part<u32>
        requires { 1 < alternatives }
        ensures { Does (chosen alternatives) self.old result self.new }
    {
        let chosen = self.feed.picks.pick(alternatives);
        self.tell(Label::Choose {
            alternatives,
            chosen,
        })?;
        Ok(chosen)
    }

    /// The acting task.
    pub fn acting(&self) -> Part<u32>
        ensures { Tells acting self.now result }
    {
        match self.chain.last() {
            Some(task) => Ok(*task),
            None => Err(Stop::Stuck),
        }
    }

    /// Lets a task act.
    pub fn chain_up(&mut self, task: u32) -> Part<()>
        ensures { Does (chained task) self.old result self.new }
    {
        match self.chain.push(task) {
            Ok(()) => Ok(()),
            Err(_) => Err(Stop::Memory),
        }
    }

    /// Lets the acting task leave the chain. The task before it acts then, where there is one.
    pub fn leave_chain(&mut self) -> Part<Flow>
        ensures { Does left_chain self.old result self.new }
    {
        match self.chain.pop() {
            Some(_) => {
                self.rest = rest_behind(&self.chain);
                Ok(Flow::Rests)
            }
            None => Err(Stop::Stuck),
        }
    }

    /// Answers words to the acting task.
    pub fn answer(&mut self, alloc: Global, task: u32, words: Words) -> Part<Flow>
        ensures { Does (got task words) self.old result self.new }
    {
        let Ok(same) = same_words(alloc, words.as_slice()) else {
            return Err(Stop::Memory);
        };
        self.tell(Label::Got { task, words: same })?;
        self.rest = Rest::Runs;
        Ok(Flow::Now(words))
    }

    /// Answers nothing.
    pub fn answer_none(&mut self, alloc: Global, task: u32) -> Part<Flow>
        ensures { Does (got task []) self.old result self.new }
    {
        self.answer(alloc, task, Words::new(alloc))
    }

    /// Answers one word.
    pub fn answer_one(&mut self, alloc: Global, task: u32, word: u64) -> Part<Flow>
        ensures { Does (got task (word ∷ [])) self.old result self.new }
    {
        let Ok(words) = Words::of(alloc, word) else {
            return Err(Stop::Memory);
        };
        self.answer(alloc, task, words)
    }
}

/// Where a run is behind a task that left the chain.
fn rest_behind(chain: &[u32]) -> Rest
    ensures { result ≡ rest_behind chain.now }
{
    match chain {
        [] => Rest::Free,
        [_, ..] => Rest::Back,
    }
}
