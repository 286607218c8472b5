//! What holds of every stack, and of those that are typed in a typed store.

ghost use Rattle.wasm_store.specs.Laws.{MovesTyped, NeverStuck, StartsTyped, StaysTyped, ExtendsFurther, AddsTyped, EmptyTyped, HostsTyped, WritesTyped, FreeMovesEnd, StepsKeepFunctions, EmptyHasNoHosts, AddsNoHosts, NeverCallsHosts, StartsFew, StepsFew, WaitsFew, ResumesFew, OneNext, StepsJoin, FewerAreFront};

/// A stack that is typed in a typed store never gets stuck: what it does next is typed, and so is all that it comes to. A
/// call with words of the function's parameters is such a stack.
pub fn typed_stacks_never_get_stuck()
    ensures moves { MovesTyped }
    ensures never_stuck { NeverStuck }
    ensures starts { StartsTyped }
{}

/// A stack that is typed in a store is typed in each store that extends it, and what extends that one extends the first.
pub fn stacks_stay_typed()
    ensures stays { StaysTyped }
    ensures further { ExtendsFurther }
{}

/// A valid module that is instantiated with imports of its types leaves a typed store, which extends the one before, also
/// where a segment does not fit; and the call of its start function is typed.
pub fn added_modules_are_typed()
    ensures { AddsTyped }
{}

/// The empty store is typed. A store with a further function of the host, or with other bytes in a memory, as many as
/// before, is typed and extends the one before.
pub fn changed_stores_are_typed()
    ensures empty { EmptyTyped }
    ensures hosts { HostsTyped }
    ensures writes { WritesTyped }
{}

/// No step adds, changes or takes away a function. The empty store has no function of the host, and modules that are added
/// bring none, also where a segment does not fit. So a typed stack in such a store never calls one, whatever steps it makes.
pub fn stores_without_hosts()
    ensures steps { StepsKeepFunctions }
    ensures empty { EmptyHasNoHosts }
    ensures adds { AddsNoHosts }
    ensures never { NeverCallsHosts }
{}

/// Moves that cost nothing, the ends of blocks and of functions, come to an end: from each store and stack, finitely many
/// lead to a stack whose next move is no such one.
pub fn free_moves_end()
    ensures { FreeMovesEnd }
{}

/// Stacks have at most 512 frames, typed or not: a call of a function begins with so few, and they stay so few in all steps,
/// where a function of the host is called, and where the stack goes on with its answers.
pub fn frames_stay_few()
    ensures starts { StartsFew }
    ensures steps { StepsFew }
    ensures waits { WaitsFew }
    ensures resumes { ResumesFew }
{}

/// A store and a stack have one next move. So as many moves lead to the same store and stack for the same units of fuel,
/// and fewer moves are a front of more. Steps behind steps are steps for the units of both.
pub fn moves_are_determined()
    ensures one { OneNext }
    ensures join { StepsJoin }
    ensures front { FewerAreFront }
{}
