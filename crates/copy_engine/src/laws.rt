//! What holds of lowerings over a store.

ghost use Rattle.copy_engine.specs.Turns.{FollowsBySteps};

/// What a plan comes to over a store is what its steps come to, made one at a time: each move of a realloc's stack is one, with what
/// it costs. Of want of memory nothing is said.
pub fn lowerings_are_steps()
    ensures { FollowsBySteps }
{}
