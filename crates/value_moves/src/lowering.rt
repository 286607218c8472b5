//! Values that are lowered into the memory and the table of an instance.

ghost use Rattle.std.specs.Prelude.{◌≡◌, ◌≤◌, length, true, IfOk};
ghost use Rattle.syntax_trees.specs.Fits.{fits};
ghost use Rattle.syntax_trees.specs.Flat.{flat};
ghost use Rattle.value_lower.specs.Fitting.{AllFit};
ghost use Rattle.value_lower.specs.Tables.{IsEntry};
ghost use Rattle.copy_engine.specs.declared.lower_values.Target.TheVariants as targets;
ghost use Rattle.copy_engine.specs.Answering.{setting_of};
ghost use Rattle.copy_engine.specs.Copying.{all_fit};
ghost use Rattle.copy_engine.specs.Hosted.{plan_to, plan_all, PlanComesTo};
ghost use Rattle.instances.specs.Entries.{seen_as, of_handle, of_end};
ghost use Rattle.instances.specs.Instances.{with_slots};
ghost use Rattle.world_parts.specs.Held.{Does, Tells, held};
ghost use Rattle.value_parts.specs.Coming.{Comes, May};
ghost use Rattle.value_moves.specs.Lowering.{address_or_none, destination_at, act_told, got_told, all_told, lower_name, call_refused, code_trapped, lowered_by, finished, LowersInto, LowersAll};

use ca_base::Fuel;
use ca_types::fits;
use comp_graph::{Graph, Options};
use copy_engine::{
    Act, Acts, CallRefusal, HostedTrap, LowerOptions, Lowered, Lowering, Target, lower, lower_list,
};
use faults::Memory;
use graph_views::{builtin_of, canon_at};
use instances::Instance;
use laid_types::NumberedType;
use programs::Program;
use res_handles::Home;
use std::alloc::Global;
use syntax_trees::{Seq, Value};
use task_table::Words;
use trace_labels::{Label, TrapName};
use value_lower::LowerWhy;
use wasm_store::Store;
use world_parts::{Part, Parts, Stop, refusal_name, same_words};
use world_stacks::{core_name, realloc_of};

/// Where values are lowered.
#[derive(Clone, Copy)]
pub struct Destination {
    /// The number of the instance.
    pub instance: u32,
    /// The task for which they are lowered.
    pub task: u32,
    /// The memory, and the function that gives places in it.
    pub options: LowerOptions,
}

/// The address of a memory; where there is none, one at which no memory is.
fn address_or_none(memory: Option<usize>, store: &Store) -> usize
    ensures { result ≡ address_or_none memory store.now }
{
    match memory {
        Some(address) => address,
        None => store.memory_count(),
    }
}

/// An instance, for a task, with the memory at an address and what else options have.
pub(crate) fn destination_at(
    store: &Store,
    instance: u32,
    task: u32,
    memory: Option<usize>,
    options: &Options,
) -> Destination
    ensures { result ≡ destination_at instance task memory options.now store.now }
{
    Destination {
        instance,
        task,
        options: LowerOptions {
            memory: address_or_none(memory, store),
            realloc: realloc_of(store, options),
        },
    }
}

/// The answer to a call is told, if it has one.
fn tell_got(alloc: Global, parts: &mut Parts, task: u32, got: &Option<Words>) -> Part<()>
    ensures { Does (got_told task got.now) parts.old result parts.new }
{
    match got {
        Some(words) => {
            let Ok(words) = same_words(alloc, words.as_slice()) else {
                return Err(Stop::Memory);
            };
            parts.tell(Label::Got { task, words })
        }
        None => Ok(()),
    }
}

/// A call by code that gives out places is told. There are at most 2^32 canonical functions.
fn tell_act(alloc: Global, graph: &Graph<'_>, parts: &mut Parts, task: u32, act: &Act) -> Part<()>
    ensures { Does (act_told graph.now task act.now) parts.old result parts.new }
{
    let Ok(number) = u32::try_from(act.canon) else {
        return Err(Stop::Memory);
    };
    let Some(canon) = canon_at(graph, number) else {
        return Err(Stop::Stuck);
    };
    let Ok(words) = same_words(alloc, act.words.as_slice()) else {
        return Err(Stop::Memory);
    };
    parts.tell(Label::Do {
        task,
        builtin: builtin_of(canon),
        words,
    })?;
    tell_got(alloc, parts, task, &act.got)
}

/// Calls by code that gives out places are told, in order.
fn tell_acts(
    alloc: Global,
    graph: &Graph<'_>,
    parts: &mut Parts,
    task: u32,
    acts: &[Act],
) -> Part<()>
    ensures { Does (all_told graph.now task acts.now) parts.old result parts.new }
{
    for act in acts {
        tell_act(alloc, graph, parts, task, act)?;
    }
    Ok(())
}

/// The name of the reason why a lowering traps (Component Model, CanonicalABI.md, "Storing").
fn lower_name(why: LowerWhy) -> TrapName
    ensures { result ≡ lower_name why }
{
    match why {
        LowerWhy::Misaligned => TrapName::Misaligned,
        LowerWhy::Bounds => TrapName::Bounds,
        LowerWhy::TableFull => TrapName::TableFull,
    }
}

/// What a call comes to that is refused.
fn call_refused(parts: &Parts, why: CallRefusal) -> Part<Words>
    ensures { Does (call_refused why) parts.now result parts.now }
{
    match why {
        CallRefusal::CannotLeave => Err(Stop::Trap(TrapName::CannotLeave)),
        CallRefusal::Refused(why) => Err(Stop::Trap(refusal_name(why))),
        CallRefusal::NoRule => Err(Stop::Stuck),
    }
}

/// What code that gives out places comes to where it gives none.
fn code_trapped(parts: &Parts, why: HostedTrap) -> Part<Words>
    ensures { Does (code_trapped why) parts.now result parts.now }
{
    match why {
        HostedTrap::Core(why) => Err(Stop::Trap(core_name(why))),
        HostedTrap::Call(why) => call_refused(parts, why),
        HostedTrap::NoRealloc => Err(Stop::Stuck),
    }
}

/// What a lowering comes to: core values, or a trap.
fn lowered_by(parts: &Parts, came: Lowered) -> Part<Words>
    ensures { Does (lowered_by came) parts.now result parts.now }
{
    match came {
        Lowered::Words(words) => Ok(words),
        Lowered::Failed(why) => Err(Stop::Trap(lower_name(why))),
        Lowered::Trapped(why) => code_trapped(parts, why),
        Lowered::NoFuel => Err(Stop::NoFuel),
    }
}

/// What a lowering for a task comes to, behind what its code did: the task's words of context are as the code left them, and its calls are told.
#[tactic(auto, unfolding(crate::specs::Lowering::finished), using(world_parts::proofs::Thens::thens))]
fn finish(
    alloc: Global,
    graph: &Graph<'_>,
    parts: &mut Parts,
    task: u32,
    acts: &Acts,
    came: Lowered,
) -> Part<Words>
    ensures { Comes (finished graph.now task acts.now came (held parts.old)) result parts.new }
{
    parts.set_context_word(task, 0, acts.context.0)?;
    parts.set_context_word(task, 1, acts.context.1)?;
    tell_acts(alloc, graph, parts, task, acts.calls.as_slice())?;
    lowered_by(parts, came)
}

/// Lowers a value over the table of an instance.
fn lower_over(
    alloc: Global,
    store: &mut Store,
    fuel: &mut Fuel,
    instance: &mut Instance,
    acts: &mut Acts,
    to: &Lowering<'_>,
    value: &Value,
    t: &NumberedType<'_>,
    target: Target,
) -> Result<Lowered, Memory>
    requires fits { fits value.now t.now.val_type ≡ true }
    requires few { target ≡ targets.Flat → length (flat t.now.val_type) ≤ 16 }
    ensures exact { IfOk result (λ came. PlanComesTo seen_as (IsEntry of_handle of_end to.now.home.task t.now.types) (setting_of to.now) (plan_to target t.now.val_type value.now to.now.home.resources.now) (record { room = record { store = store.old; fuel = fuel.old; acts = acts.old }; slots = instance.old.slots }) came (record { room = record { store = store.new; fuel = fuel.new; acts = acts.new }; slots = instance.new.slots })) }
    ensures rest { instance.new ≡ with_slots instance.new.slots instance.old }
{
    let mut table = instance.take_table(alloc);
    let came = lower(alloc, store, fuel, &mut table, acts, to, value, t, target);
    instance.put_table(table);
    came
}

/// Lowers values over the table of an instance, one after the other from a place on.
fn lower_list_over(
    alloc: Global,
    store: &mut Store,
    fuel: &mut Fuel,
    instance: &mut Instance,
    acts: &mut Acts,
    to: &Lowering<'_>,
    values: &[Value],
    t: &NumberedType<'_>,
    place: u32,
) -> Result<Lowered, Memory>
    requires fit { AllFit values.now t.now.val_type }
    ensures exact { IfOk result (λ came. PlanComesTo seen_as (IsEntry of_handle of_end to.now.home.task t.now.types) (setting_of to.now) (plan_all t.now.val_type values.now place to.now.home.resources.now) (record { room = record { store = store.old; fuel = fuel.old; acts = acts.old }; slots = instance.old.slots }) came (record { room = record { store = store.new; fuel = fuel.new; acts = acts.new }; slots = instance.new.slots })) }
    ensures rest { instance.new ≡ with_slots instance.new.slots instance.old }
{
    let mut table = instance.take_table(alloc);
    let came = lower_list(alloc, store, fuel, &mut table, acts, to, values, t, place);
    instance.put_table(table);
    came
}

/// Lowers a value of a type for a task into an instance, in its table and its memory, whose own code gives out places, each of its instructions for
/// a unit (Component Model, CanonicalABI.md, "Storing", "Flat Lowering"). The answer are its core values.
///
/// # Errors
///
/// The traps of lowering and of that code, `NoFuel` and `Memory`; and `Stuck` where something is not there, or the value is not of the type.
#[tactic(auto, using(value_parts::proofs::Chains::may_stuck, world_stacks::proofs::Givens::given_some, world_stacks::proofs::Givens::given_none))]
pub(crate) fn lower_into(
    alloc: Global,
    program: &Program<'_, '_>,
    parts: &mut Parts,
    to: Destination,
    value: &Value,
    t: &NumberedType<'_>,
    target: Target,
) -> Part<Words>
    requires few { target ≡ targets.Flat → length (flat t.now.val_type) ≤ 16 }
    ensures { May (LowersInto program.now to t.now value.now target (held parts.old)) result parts.new }
{
    let at = to.instance as usize;
    if at >= parts.instances.len() {
        return Err(Stop::Stuck);
    }
    let Some(slot) = parts.tasks.slots.get(to.task as usize) else {
        return Err(Stop::Stuck);
    };
    let context = slot.context;
    let Some(resources) = program.resources_of(at) else {
        return Err(Stop::Stuck);
    };
    if !fits(value, t.laid().val_type()) {
        return Err(Stop::Stuck);
    }
    let mut acts = Acts {
        context,
        calls: Seq::new(alloc),
    };
    let lowering = Lowering {
        options: to.options,
        canons: program.graph.canons(),
        instance: to.instance,
        home: Home {
            task: to.task,
            resources,
        },
    };
    let came = lower_over(
        alloc,
        &mut parts.store,
        &mut parts.feed.left,
        &mut parts.instances[at],
        &mut acts,
        &lowering,
        value,
        t,
        target,
    );
    match came {
        Ok(came) => finish(alloc, program.graph, parts, to.task, &acts, came),
        Err(_) => Err(Stop::Memory),
    }
}

/// Whether values are of a type.
#[tactic(auto, using(copy_engine::proofs::Fit::all_fit_too))]
fn all_fit(values: &[Value], t: &NumberedType<'_>) -> bool
    ensures value { result ≡ all_fit t.now.val_type values.now }
    ensures fit { result ≡ true → AllFit values.now t.now.val_type }
{
    let laid = t.laid();
    let val_type = laid.val_type();
    values.iter().all(|value| fits(value, val_type))
}

/// Lowers values of a type for a task into an instance, one after the other from a place on, as `lower_into`. There are no core values.
///
/// # Errors
///
/// Those of `lower_into`.
#[tactic(auto, using(value_parts::proofs::Chains::may_stuck, world_stacks::proofs::Givens::given_some, world_stacks::proofs::Givens::given_none))]
pub(crate) fn lower_all_into(
    alloc: Global,
    program: &Program<'_, '_>,
    parts: &mut Parts,
    to: Destination,
    values: &[Value],
    t: &NumberedType<'_>,
    place: u32,
) -> Part<Words>
    ensures { May (LowersAll program.now to t.now values.now place (held parts.old)) result parts.new }
{
    let at = to.instance as usize;
    if at >= parts.instances.len() {
        return Err(Stop::Stuck);
    }
    let Some(slot) = parts.tasks.slots.get(to.task as usize) else {
        return Err(Stop::Stuck);
    };
    let context = slot.context;
    let Some(resources) = program.resources_of(at) else {
        return Err(Stop::Stuck);
    };
    if !all_fit(values, t) {
        return Err(Stop::Stuck);
    }
    let mut acts = Acts {
        context,
        calls: Seq::new(alloc),
    };
    let lowering = Lowering {
        options: to.options,
        canons: program.graph.canons(),
        instance: to.instance,
        home: Home {
            task: to.task,
            resources,
        },
    };
    let came = lower_list_over(
        alloc,
        &mut parts.store,
        &mut parts.feed.left,
        &mut parts.instances[at],
        &mut acts,
        &lowering,
        values,
        t,
        place,
    );
    match came {
        Ok(came) => finish(alloc, program.graph, parts, to.task, &acts, came),
        Err(_) => Err(Stop::Memory),
    }
}
