//! A program has at most one run.

ghost use Rattle.one_run_laws.specs.Once.{PassingIsOne, RunsAreOne, SoFarAreFronts};

/// What passing values comes to is one thing, told by what is passed and by what is kept, where no type stands twice among the program's types: the
/// code that gives out places, a post-return and all parts between them have one outcome.
pub fn passing_is_one()
    ensures { PassingIsOne }
{}

/// A program has at most one run: two runs from a world end in the same way, with the same lines, and leave the same. What is told of a run so far,
/// also where a write fails or memory is wanting, is a front of the lines of the one run.
pub fn runs_are_one()
    ensures one { RunsAreOne }
    ensures fronts { SoFarAreFronts }
{}
