//! Copies of elements.

ghost use Rattle.std.specs.Prelude.{◌≡◌, ◌^◌, true, IfOk, IfSome};
ghost use Rattle.laid_types.specs.SameTypes.{AreDistinct};
ghost use Rattle.value_lift.specs.Over.{load_list_by};
ghost use Rattle.value_lift.specs.Tables.{MostLends, MayGive, by_table, at_first};
ghost use Rattle.value_lower.specs.Fitting.{AllFit};
ghost use Rattle.value_lower.specs.Tables.{IsEntry};
ghost use Rattle.copy_engine.specs.Nested.{bytes_in};
ghost use Rattle.copy_engine.specs.Answering.{setting_of};
ghost use Rattle.copy_engine.specs.Copying.{as_copied, all_fit, LowersAll, LowersFitting, CopiesElements, Copies};

use crate::acts::Acts;
use crate::hosted::HostedTrap;
use crate::lower_values::{Lowered, lower_list};
use crate::memories::bytes_of;
use crate::setting::Lowering;
use ca_base::Fuel;
use ca_types::fits;
use faults::{Memory, MemoryOr};
use handle_table::Table;
use laid_types::NumberedType;
use res_handles::Entry;
use std::alloc::Global;
use syntax_trees::{Seq, Values};
use value_lift::{LiftError, LiftTrap, Moved, load_list};
use value_lower::LowerWhy;
use wasm_store::Store;

/// Where elements are copied from.
#[derive(Clone, Copy)]
pub struct CopyFrom {
    /// The address of the memory; where there is none, one at which no memory is.
    pub memory: usize,
    /// The place of the first element.
    pub place: u32,
}

/// What a copy comes to.
#[derive(Drop)]
pub enum Copied {
    /// The elements are copied. These are they, where they hold anything.
    Values(Values),
    /// An element is not lifted: that is a trap, and nothing is lowered.
    NotLifted(LiftTrap),
    /// An element that is lifted is not of its type. No lifting gives such.
    Misfit,
    /// The lowering itself traps.
    Failed(LowerWhy),
    /// Code that gives out places traps, or calls what it may not.
    Trapped(HostedTrap),
    /// There is no unit of fuel left.
    NoFuel,
}

/// Copies so many elements from a memory and a table, that of the instance that writes, to a place of the memory of the instance that reads,
/// and into its table (Component Model, CanonicalABI.md, `canon stream.read`, `canon stream.write`). All are lifted, as by `load_list` of
/// value_lift, and then all are lowered, as by `lower_list`. Elements that hold nothing are no values, and nothing changes.
///
/// # Errors
///
/// Want of memory. Nothing is said of what is worked on then. What was lifted out, stored, entered and kept before a trap or want of fuel
/// stays.
pub fn copy<E: Entry<EndType = usize> + Drop>(
    alloc: Global,
    store: &mut Store,
    fuel: &mut Fuel,
    out: &mut Table<E>,
    into: &mut Table<E>,
    moved: &mut Seq<Moved>,
    acts: &mut Acts,
    from: CopyFrom,
    count: u32,
    element: &Option<NumberedType<'_>>,
    to: &Lowering<'_>,
    place: u32,
) -> Result<Copied, Memory>
    requires distinct { IfSome element.now (λ t. AreDistinct t.types) }
    requires lends { MostLends E.view (2 ^ 63) out.old.slots }
    ensures { IfOk result (λ c. Copies E.view E.made E.made_end E.end_type element.now from count (setting_of to.now) to.now.home.task to.now.home.resources.now place (record { out = out.old.slots; moved = moved.old; placed = record { room = record { store = store.old; fuel = fuel.old; acts = acts.old }; slots = into.old.slots } }) c (record { out = out.new.slots; moved = moved.new; placed = record { room = record { store = store.new; fuel = fuel.new; acts = acts.new }; slots = into.new.slots } })) }
{
    match element {
        Some(element) => copy_elements(
            alloc, store, fuel, out, into, moved, acts, from, count, element, to, place,
        ),
        None => Ok(Copied::Values(Seq::new(alloc))),
    }
}

/// Copies so many elements of a type.
fn copy_elements<E: Entry<EndType = usize> + Drop>(
    alloc: Global,
    store: &mut Store,
    fuel: &mut Fuel,
    out: &mut Table<E>,
    into: &mut Table<E>,
    moved: &mut Seq<Moved>,
    acts: &mut Acts,
    from: CopyFrom,
    count: u32,
    element: &NumberedType<'_>,
    to: &Lowering<'_>,
    place: u32,
) -> Result<Copied, Memory>
    requires distinct { AreDistinct element.now.types }
    requires lends { MostLends E.view (2 ^ 63) out.old.slots }
    ensures { IfOk result (λ c. CopiesElements E.view E.made E.made_end E.end_type element.now from count (setting_of to.now) to.now.home.task to.now.home.resources.now place (record { out = out.old.slots; moved = moved.old; placed = record { room = record { store = store.old; fuel = fuel.old; acts = acts.old }; slots = into.old.slots } }) c (record { out = out.new.slots; moved = moved.new; placed = record { room = record { store = store.new; fuel = fuel.new; acts = acts.new }; slots = into.new.slots } })) }
{
    match lift_elements(alloc, store, out, moved, from, count, element) {
        Ok(values) => lower_elements(alloc, store, fuel, into, acts, values, element, to, place),
        Err(MemoryOr::Fault(trap)) => Ok(Copied::NotLifted(trap)),
        Err(MemoryOr::Memory) => Err(Memory),
    }
}

/// Lifts so many elements.
fn lift_elements<E: Entry<EndType = usize> + Drop>(
    alloc: Global,
    store: &Store,
    out: &mut Table<E>,
    moved: &mut Seq<Moved>,
    from: CopyFrom,
    count: u32,
    element: &NumberedType<'_>,
) -> Result<Values, LiftError>
    requires distinct { AreDistinct element.now.types }
    requires lends { MostLends E.view (2 ^ 63) out.old.slots }
    ensures { MayGive (load_list_by (by_table E.view E.made E.end_type element.now.types) element.now.val_type (bytes_in from.memory store.now) from.place count (at_first 134217728 out.old.slots moved.old)) out.new.slots moved.new result }
{
    let bytes = bytes_of(store, from.memory);
    load_list(alloc, bytes, out, from.place, count, element, moved)
}

/// Lowers elements that are of their type.
fn lower_elements<E: Entry<EndType = usize> + Drop>(
    alloc: Global,
    store: &mut Store,
    fuel: &mut Fuel,
    into: &mut Table<E>,
    acts: &mut Acts,
    values: Values,
    element: &NumberedType<'_>,
    to: &Lowering<'_>,
    place: u32,
) -> Result<Copied, Memory>
    ensures { IfOk result (λ c. LowersFitting E.view (IsEntry E.made E.made_end to.now.home.task element.now.types) (setting_of to.now) to.now.home.resources.now element.now.val_type place (all_fit element.now.val_type values) values (record { room = record { store = store.old; fuel = fuel.old; acts = acts.old }; slots = into.old.slots }) c (record { room = record { store = store.new; fuel = fuel.new; acts = acts.new }; slots = into.new.slots })) }
{
    if all_fit(&values, element) {
        lower_all(alloc, store, fuel, into, acts, values, element, to, place)
    } else {
        Ok(Copied::Misfit)
    }
}

/// Whether values are of a type.
#[tactic(auto, using(crate::proofs::Fit::all_fit_too))]
fn all_fit(values: &Values, t: &NumberedType<'_>) -> bool
    ensures value { result ≡ all_fit t.now.val_type values.now }
    ensures fit { result ≡ true → AllFit values.now t.now.val_type }
{
    let laid = t.laid();
    let val_type = laid.val_type();
    values.as_slice().iter().all(|value| fits(value, val_type))
}

/// Lowers elements.
fn lower_all<E: Entry<EndType = usize> + Drop>(
    alloc: Global,
    store: &mut Store,
    fuel: &mut Fuel,
    into: &mut Table<E>,
    acts: &mut Acts,
    values: Values,
    element: &NumberedType<'_>,
    to: &Lowering<'_>,
    place: u32,
) -> Result<Copied, Memory>
    requires fit { AllFit values element.now.val_type }
    ensures { IfOk result (λ c. LowersAll E.view (IsEntry E.made E.made_end to.now.home.task element.now.types) (setting_of to.now) to.now.home.resources.now element.now.val_type place values (record { room = record { store = store.old; fuel = fuel.old; acts = acts.old }; slots = into.old.slots }) c (record { room = record { store = store.new; fuel = fuel.new; acts = acts.new }; slots = into.new.slots })) }
{
    let came = lower_list(
        alloc,
        store,
        fuel,
        into,
        acts,
        to,
        values.as_slice(),
        element,
        place,
    )?;
    Ok(copied_of(came, values))
}

/// What a copy comes to, by what the lowering of its elements comes to.
fn copied_of(came: Lowered, values: Values) -> Copied
    ensures { result ≡ as_copied values came }
{
    match came {
        Lowered::Words(_) => Copied::Values(values),
        Lowered::Failed(why) => Copied::Failed(why),
        Lowered::Trapped(why) => Copied::Trapped(why),
        Lowered::NoFuel => Copied::NoFuel,
    }
}
