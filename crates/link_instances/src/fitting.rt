//! Whether a definition is what is asked for.
//!
//! Instances and their types may stand in one another a million deep, and the same ones may stand in many places. So the pairs
//! of an instance and a type are gone through by a stack, and each pair that was gone through is remembered.

ghost use Rattle.std.specs.Prelude.{◌≡◌, ◌<◌, ◌+◌, ◌^◌, ◌&&◌, ◌||◌, ◌∷◌, ◌++◌, [], IfOk, OnOk};
ghost use Rattle.comp_graph.specs.Closed.{Extern, Externs, OfInstance};
ghost use Rattle.link_spec.specs.Definitions.{Definition, AnInstance, Exports};
ghost use Rattle.link_types.specs.Table.{Table};
ghost use Rattle.link_types.specs.Table.{IsExtern, IsInstanceType};
ghost use Rattle.link_instances.specs.References.{World, Stands, IsInstance};
ghost use Rattle.link_instances.specs.Pairs.{has_pair, IsKnown};
ghost use Rattle.link_instances.specs.Instances.{AreInstances};
ghost use Rattle.link_instances.specs.Fit.{IsFit, fit_of};
ghost use Rattle.link_instances.specs.Fitting as trees;
ghost use Rattle.link_instances.specs.Fitting.{begun_with, pair_of, behind_one, IsFrame, IsStep, IsPassed, HasRoom};
ghost use Rattle.link_instances.specs.Walks.{IsBegun, ArePassed, IsOn, stack_inside, IsBehind, IsTurn};

use crate::comparing::{Comparison, compare};
use crate::instances::Instances;
use crate::pairs::{Pair, add, has};
use crate::references::{DefinitionRef, InstanceRef};
use link_types::{ExternRef, InstanceTypeRef, Types, asked_at};
use std::alloc::{AllocError, Global};
use std::collections::BTreeSet;

/// Whether a definition is what is asked for.
#[derive(Clone, Copy)]
pub enum Fit {
    /// It is.
    Fits,
    /// The export of this name is missing: the first one, in order.
    Missing(usize),
    /// Nothing is missing, and something is of another sort or type.
    Differs,
}

/// A pair that is gone through.
#[derive(Clone, Copy)]
pub(crate) struct Frame {
    given: InstanceRef,
    asked: InstanceTypeRef,
    /// How many exports of the type are done.
    done: usize,
}

/// What comes next of a pair.
#[derive(Clone, Copy)]
pub(crate) enum Step {
    /// Nothing is left.
    Done,
    /// The next export is missing, by its name.
    Missing(usize),
    /// The next export, beside what is asked for.
    Compared(Comparison),
}

/// A walk over pairs.
#[derive(Drop)]
pub(crate) struct Walk {
    /// The pairs that are gone through, the last one at the end.
    stack: Vec<Frame>,
    /// Pairs that were gone through since something differed. They lack nothing.
    passed: BTreeSet<Pair>,
    /// Whether nothing differed so far.
    agrees: bool,
}

/// How a turn of a walk ends.
#[derive(Clone, Copy)]
pub(crate) enum Turn {
    /// The walk goes on.
    GoesOn,
    /// The walk is over.
    Ends(Fit),
}

/// What is answered where nothing is missing.
fn fit_of(agrees: bool) -> Fit
    ensures { result ≡ fit_of agrees }
{
    if agrees { Fit::Fits } else { Fit::Differs }
}

impl Frame {
    fn begun(given: InstanceRef, asked: InstanceTypeRef) -> Frame
        ensures { result ≡ begun_with given asked }
    {
        Frame {
            given,
            asked,
            done: 0,
        }
    }

    fn pair(self) -> Pair
        ensures { result ≡ pair_of self }
    {
        Pair {
            given: self.given,
            asked: self.asked,
        }
    }

    fn behind_one(self) -> Frame
        requires { self.done + 1 < 2 ^ 64 }
        ensures { result ≡ behind_one self }
    {
        Frame {
            given: self.given,
            asked: self.asked,
            done: self.done + 1,
        }
    }
}

impl Walk {
    /// A walk over one pair.
    fn begin(alloc: Global, given: InstanceRef, asked: InstanceTypeRef) -> Result<Walk, AllocError>
        ensures { IfOk result (λ walk. IsBegun given asked walk) }
    {
        let mut stack = Vec::new(alloc);
        stack.push(Frame::begun(given, asked))?;
        Ok(Walk {
            stack,
            passed: BTreeSet::new(alloc),
            agrees: true,
        })
    }

    /// Remembers a pair that was gone through.
    fn pass(&mut self, pair: Pair) -> Result<(), AllocError>
        ensures stack { self.new.stack.items ≡ self.old.stack.items }
        ensures agrees { self.new.agrees ≡ self.old.agrees }
        ensures passed { (t : Table) (w : World) → ArePassed t w self.old → IsPassed t w self.old.agrees pair → ArePassed t w self.new }
    {
        add(&mut self.passed, pair)
    }

    /// Goes behind an export that agrees or differs.
    fn compared(&mut self, frame: Frame, agrees: bool) -> Result<(), AllocError>
        requires { frame.done + 1 < 2 ^ 64 }
        ensures stack { OnOk result (self.new.stack.items ≡ self.old.stack.items ++ behind_one frame ∷ []) }
        ensures agrees { self.new.agrees ≡ (self.old.agrees && agrees) }
        ensures passed { self.new.passed ≡ self.old.passed }
    {
        self.agrees = self.agrees && agrees;
        self.stack.push(frame.behind_one())?;
        Ok(())
    }
}

impl Instances {
    /// What comes next of a pair.
    fn step(&self, types: &Types<'_>, frame: Frame) -> Step
        ensures is { (w : World) (f : trees.Frame) → AreInstances types.now w self.now → IsFrame types.now w frame f → IsStep types.now w frame f result }
        ensures room { HasRoom frame result }
    {
        let Some((name, asked)) = asked_at(types, frame.asked, frame.done) else {
            return Step::Done;
        };
        let Some(given) = self.export_named(types, frame.given, name) else {
            return Step::Missing(name);
        };
        Step::Compared(compare(types, given, asked))
    }

    /// Remembers a pair that fits.
    fn know(&mut self, pair: Pair) -> Result<(), AllocError>
        ensures are { (t : Table) (w : World) → AreInstances t w self.old → IsKnown t w pair → AreInstances t w self.new }
        ensures kept { self.new.of_types ≡ self.old.of_types }
    {
        add(&mut self.known, pair)
    }

    /// Remembers a pair that was gone through.
    fn remember(&mut self, walk: &mut Walk, pair: Pair) -> Result<(), AllocError>
        ensures stack { walk.new.stack.items ≡ walk.old.stack.items }
        ensures agrees { walk.new.agrees ≡ walk.old.agrees }
        ensures kept { self.new.of_types ≡ self.old.of_types }
        ensures instances { (t : Table) (w : World) → AreInstances t w self.old → IsPassed t w walk.old.agrees pair → AreInstances t w self.new }
        ensures passed { (t : Table) (w : World) → ArePassed t w walk.old → IsPassed t w walk.old.agrees pair → ArePassed t w walk.new }
    {
        if walk.agrees {
            self.know(pair)?;
            return Ok(());
        }
        walk.pass(pair)?;
        Ok(())
    }

    /// Whether a pair is remembered.
    fn remembers(&self, walk: &Walk, pair: Pair) -> bool
        ensures { result ≡ (has_pair self.now.known pair || has_pair walk.now.passed pair) }
    {
        has(&self.known, pair) || has(&walk.passed, pair)
    }

    /// Goes to the pair of an instance inside, unless it is remembered.
    fn goes_inside(
        &self,
        walk: &mut Walk,
        frame: Frame,
        given: InstanceRef,
        asked: InstanceTypeRef,
    ) -> Result<(), AllocError>
        requires { frame.done + 1 < 2 ^ 64 }
        ensures stack { OnOk result (walk.new.stack.items ≡ stack_inside (has_pair self.now.known (record { given = given; asked = asked }) || has_pair walk.old.passed (record { given = given; asked = asked })) walk.old.stack.items frame given asked) }
        ensures agrees { walk.new.agrees ≡ walk.old.agrees }
        ensures passed { walk.new.passed ≡ walk.old.passed }
    {
        walk.stack.push(frame.behind_one())?;
        if !self.remembers(walk, Pair { given, asked }) {
            walk.stack.push(Frame::begun(given, asked))?;
        }
        Ok(())
    }

    /// Goes behind an export that was compared.
    fn goes_on(
        &self,
        walk: &mut Walk,
        frame: Frame,
        comparison: Comparison,
    ) -> Result<(), AllocError>
        requires { frame.done + 1 < 2 ^ 64 }
        ensures { OnOk result (IsBehind self.now.known frame comparison walk.old.stack.items walk.old.agrees walk.old.passed walk.new) }
    {
        match comparison {
            Comparison::Agrees(agrees) => walk.compared(frame, agrees)?,
            Comparison::Inside(given, asked) => self.goes_inside(walk, frame, given, asked)?,
        }
        Ok(())
    }

    /// One turn of a walk.
    fn turn(&mut self, types: &Types<'_>, walk: &mut Walk) -> Result<Turn, AllocError>
        ensures is { (w : World) (given : Exports) (asked : Externs) → AreInstances types.now w self.old → IsOn types.now w given asked walk.old → IsTurn types.now w given asked self.new walk.new result }
        ensures kept { self.new.of_types ≡ self.old.of_types }
    {
        types.are_distinct();
        let Some(frame) = walk.stack.pop() else {
            return Ok(Turn::Ends(fit_of(walk.agrees)));
        };
        match self.step(types, frame) {
            Step::Done => {
                self.remember(walk, frame.pair())?;
                Ok(Turn::GoesOn)
            }
            Step::Missing(name) => Ok(Turn::Ends(Fit::Missing(name))),
            Step::Compared(comparison) => {
                self.goes_on(walk, frame, comparison)?;
                Ok(Turn::GoesOn)
            }
        }
    }

    /// Whether an instance is of a type.
    fn walk(
        &mut self,
        alloc: Global,
        types: &Types<'_>,
        given: InstanceRef,
        asked: InstanceTypeRef,
    ) -> Result<Fit, AllocError>
        ensures fits { (w : World) (exports : Exports) (externs : Externs) → AreInstances types.now w self.old → IsInstance types.now w given exports → IsInstanceType types.now asked externs → AreInstances types.now w self.new × IfOk result (IsFit types.now (AnInstance exports) (OfInstance externs)) }
        ensures kept { self.new.of_types ≡ self.old.of_types }
    {
        let mut walk = Walk::begin(alloc, given, asked)?;
        // No walk has so many turns.
        for _turn in 0..usize::MAX {
            match self.turn(types, &mut walk)? {
                Turn::GoesOn => {}
                Turn::Ends(fit) => return Ok(fit),
            }
        }
        Err(AllocError)
    }

    /// Whether an instance is of a type: as it is known, or by a walk.
    fn fit_inside(
        &mut self,
        alloc: Global,
        types: &Types<'_>,
        given: InstanceRef,
        asked: InstanceTypeRef,
    ) -> Result<Fit, AllocError>
        ensures fits { (w : World) (exports : Exports) (externs : Externs) → AreInstances types.now w self.old → IsInstance types.now w given exports → IsInstanceType types.now asked externs → AreInstances types.now w self.new × IfOk result (IsFit types.now (AnInstance exports) (OfInstance externs)) }
        ensures kept { self.new.of_types ≡ self.old.of_types }
    {
        types.are_distinct();
        if has(&self.known, Pair { given, asked }) {
            return Ok(Fit::Fits);
        }
        self.walk(alloc, types, given, asked)
    }

    /// Whether a definition is what is asked for. It fails for want of memory, and in the same way where a walk is not over
    /// behind 2^64 - 1 turns.
    pub fn fit(
        &mut self,
        alloc: Global,
        types: &Types<'_>,
        given: DefinitionRef,
        asked: ExternRef,
    ) -> Result<Fit, AllocError>
        ensures fits { (w : World) (d : Definition) (x : Extern) → AreInstances types.now w self.old → Stands types.now w given d → IsExtern types.now asked x → AreInstances types.now w self.new × IfOk result (IsFit types.now d x) }
        ensures kept { self.new.of_types ≡ self.old.of_types }
    {
        match compare(types, given, asked) {
            Comparison::Agrees(agrees) => Ok(fit_of(agrees)),
            Comparison::Inside(given, asked) => self.fit_inside(alloc, types, given, asked),
        }
    }
}
