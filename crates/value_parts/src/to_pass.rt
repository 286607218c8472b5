//! What is to be passed behind a move, and what passes it.

use programs::Program;
use std::alloc::Global;
use task_table::Words;
use world_parts::{Copying, Flow, Part, Parts};

/// What is to be passed behind a move (Component Model, CanonicalABI.md, "Lifting and Lowering Values").
#[derive(Drop)]
pub enum Passing {
    /// Nothing.
    Nothing,
    /// The arguments of the acting task, which enters.
    Arguments,
    /// The result of the acting task, which calls `task.return` with the words that it keeps.
    Returned,
    /// The core function or the callback of the acting task has ended with these words. One that is lifted without `async` has a result to
    /// pass.
    Ended(Words),
    /// Elements of a stream or of a future, for a call of the acting task.
    Elements(Copying),
}

/// What passes values between tasks (Component Model, CanonicalABI.md, "Lifting and Lowering Values").
///
/// A relation says what passing may come to from what is kept: where core code runs in its midst, it says so by what its run came to.
pub trait PassesValues {
    ghost use Rattle.programs.specs.declared.program.Program.{Program};
    ghost use Rattle.laid_types.specs.SameTypes.{AreDistinct};
    ghost use Rattle.world_parts.specs.declared.parts.Flow.{Flow};
    ghost use Rattle.world_parts.specs.Held.{Held, Done, held};
    ghost use Rattle.value_parts.specs.declared.to_pass.Passing.{Passing};
    ghost use Rattle.value_parts.specs.Coming.{May};
    ghost use Rattle.value_parts.specs.Lifting.{FewLent};

    ghost may_pass: { Program → Passing → Held → Done Flow → Type 0 };

    /// Passes what a move left to be passed for the acting task, and answers what is to be done then.
    ///
    /// # Errors
    ///
    /// The traps of what is passed, `NoFuel` and `Memory`; and `Stuck` where something is not there.
    fn pass(
        alloc: Global,
        program: &Program<'_, '_>,
        parts: &mut Parts,
        passing: Passing,
    ) -> Part<Flow>
        requires distinct { AreDistinct program.now.types.now }
        requires lends { FewLent (held parts.old) }
        ensures { May (may_pass program.now passing (held parts.old)) result parts.new };
}
