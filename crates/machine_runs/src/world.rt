//! Worlds in a run.

ghost use Rattle.std.specs.Prelude.{◌≡◌, IfOk};
ghost use Rattle.laid_types.specs.SameTypes.{AreDistinct};
ghost use Rattle.world_parts.specs.Held.{held};
ghost use Rattle.machine_runs.specs.Leading.{MayLead};
ghost use Rattle.machine_runs.specs.Stepping.{Steps, CanStep};
ghost use Rattle.machine_runs.specs.Worlds.{point_of, first_point, handed_on};

use crate::beginning::{first_parts, first_stacks};
use crate::stepping::{Step, make_step};
use comp_graph::Graph;
use faults::Memory;
use programs::Program;
use script_reader::Script;
use std::alloc::Global;
use std::mem;
use syntax_trees::Seq;
use trace_labels::Label;
use value_parts::{PassesValues, Passing};
use world_parts::{Part, Parts};
use world_stacks::Stacks;

/// A world in a run: what is kept of it, the stacks of its tasks, and what is to be passed next.
pub struct World {
    /// What is kept.
    pub parts: Parts,
    /// The stacks.
    pub stacks: Stacks,
    /// What is to be passed next.
    pub passing: Passing,
}

impl World {
    /// The world of a graph before it is instantiated, with what a script gives. It fails for want of memory alone.
    pub fn new(alloc: Global, graph: &Graph<'_>, script: &Script) -> Result<World, Memory>
        ensures { IfOk result (λ world. point_of world ≡ first_point graph.now script.now) }
    {
        let parts = first_parts(alloc, graph, script)?;
        let stacks = first_stacks(alloc)?;
        Ok(World {
            parts,
            stacks,
            passing: Passing::Nothing,
        })
    }

    /// Makes one step. What is to be passed behind it is part of its answer, and not of the world.
    pub(crate) fn step<V: PassesValues>(
        &mut self,
        alloc: Global,
        program: &Program<'_, '_>,
    ) -> Part<Step>
        requires distinct { AreDistinct program.now.types.now }
        requires can { CanStep self.old.passing self.old.stacks.piles.items (held self.old.parts) }
        ensures { MayLead (Steps V.may_pass program.now self.old.passing self.old.stacks.piles.items (held self.old.parts)) result self.new.parts self.new.stacks.piles.items }
    {
        let passing = mem::replace(&mut self.passing, Passing::Nothing);
        make_step::<V>(alloc, program, &mut self.parts, &mut self.stacks, passing)
    }

    /// Takes the lines out that were told.
    pub(crate) fn take_lines(&mut self, alloc: Global) -> Seq<Label>
        ensures lines { result ≡ (held self.old.parts).labels }
        ensures left { point_of self.new ≡ handed_on (point_of self.old) }
    {
        mem::replace(&mut self.parts.feed.labels, Seq::new(alloc))
    }

    /// Lets it go.
    pub fn give_up(self) {
        let World {
            parts: _,
            stacks,
            passing: _,
        } = self;
        stacks.give_up();
    }
}
