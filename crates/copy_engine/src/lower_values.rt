//! Values that are lowered over a store, beside the table of the instance.

ghost use Rattle.std.specs.Prelude.{◌≡◌, ◌≤◌, true, length, IfOk, [], ◌∷◌};
ghost use Rattle.syntax_trees.specs.Fits.{fits};
ghost use Rattle.syntax_trees.specs.Flat.{flat};
ghost use Rattle.value_lower.specs.Fitting.{AllFit};
ghost use Rattle.value_lower.specs.Following.{Comes};
ghost use Rattle.value_lower.specs.Tables.{IsEntry};
ghost use Rattle.copy_engine.specs.Answering.{setting_of};
ghost use Rattle.copy_engine.specs.Hosted.{set_at, set_rooms, plan_to, plan_all, PlanComesTo, IsLowered};

use crate::acts::Acts;
use crate::hosted::{HostedRoom, HostedTrap};
use crate::seen_table::SeenTable;
use crate::setting::Lowering;
use ca_base::Fuel;
use faults::Memory;
use handle_table::Table;
use laid_types::NumberedType;
use res_handles::Entry;
use std::alloc::Global;
use std::mem;
use syntax_trees::{Seq, Value};
use value_lower::{
    LowerError, LowerWhy, RoomEnd, lower_flat_by, lower_placed_by, store_by, store_list_by,
};
use wasm_execution::Words;
use wasm_store::Store;

/// Where a value goes.
#[derive(Clone, Copy)]
pub enum Target {
    /// Into core values, which are at most 16.
    Flat,
    /// To a new place, which is the one core value.
    NewPlace,
    /// To this place. There are no core values.
    Place(u32),
}

/// What a lowering comes to.
#[derive(Drop)]
pub enum Lowered {
    /// It is done, with these core values.
    Words(Words),
    /// The lowering itself traps.
    Failed(LowerWhy),
    /// Code that gives out places traps, or calls what it may not.
    Trapped(HostedTrap),
    /// There is no unit of fuel left.
    NoFuel,
}

/// Lowers a value into a component instance: handles and ends go into its table, as by `lower_flat`, `lower_placed` and `store` of
/// value_lower, and its own code gives out places, each instruction for a unit (Component Model, CanonicalABI.md, "Storing", "Flat
/// Lowering"). Such code sees the table: where it calls `context.get`, `context.set` or `resource.rep`, that is answered and kept in
/// `acts`; a call of any other canonical function is kept and ends the lowering.
///
/// # Errors
///
/// Want of memory. Nothing is said of the store, the table and what is kept then. What was stored, entered and kept before a trap or want
/// of fuel stays.
pub fn lower<E: Entry<EndType = usize> + Drop>(
    alloc: Global,
    store: &mut Store,
    fuel: &mut Fuel,
    handles: &mut Table<E>,
    acts: &mut Acts,
    to: &Lowering<'_>,
    value: &Value,
    t: &NumberedType<'_>,
    target: Target,
) -> Result<Lowered, Memory>
    requires fits { fits value.now t.now.val_type ≡ true }
    requires few { target ≡ Target.Flat → length (flat t.now.val_type) ≤ 16 }
    ensures { IfOk result (λ came. PlanComesTo E.view (IsEntry E.made E.made_end to.now.home.task t.now.types) (setting_of to.now) (plan_to target t.now.val_type value.now to.now.home.resources.now) (record { room = record { store = store.old; fuel = fuel.old; acts = acts.old }; slots = handles.old.slots }) came (record { room = record { store = store.new; fuel = fuel.new; acts = acts.new }; slots = handles.new.slots })) }
{
    let mut room = taken_out(alloc, store, fuel, acts);
    let table = taken_table(alloc, handles);
    let mut beside = SeenTable {
        handles: table,
        to: *to,
    };
    let words = words_in(alloc, &mut room, &mut beside, value, t, target);
    put_back(room, store, fuel, acts);
    let SeenTable {
        handles: after,
        to: _,
    } = beside;
    *handles = after;
    lowered_of(words)
}

/// Lowers values of a type one after the other from a place on, as `lower`. For no values no place is tested. There are no core values.
///
/// # Errors
///
/// As for `lower`.
pub fn lower_list<E: Entry<EndType = usize> + Drop>(
    alloc: Global,
    store: &mut Store,
    fuel: &mut Fuel,
    handles: &mut Table<E>,
    acts: &mut Acts,
    to: &Lowering<'_>,
    values: &[Value],
    t: &NumberedType<'_>,
    place: u32,
) -> Result<Lowered, Memory>
    requires fit { AllFit values.now t.now.val_type }
    ensures { IfOk result (λ came. PlanComesTo E.view (IsEntry E.made E.made_end to.now.home.task t.now.types) (setting_of to.now) (plan_all t.now.val_type values.now place to.now.home.resources.now) (record { room = record { store = store.old; fuel = fuel.old; acts = acts.old }; slots = handles.old.slots }) came (record { room = record { store = store.new; fuel = fuel.new; acts = acts.new }; slots = handles.new.slots })) }
{
    let mut room = taken_out(alloc, store, fuel, acts);
    let table = taken_table(alloc, handles);
    let mut beside = SeenTable {
        handles: table,
        to: *to,
    };
    let words = no_words_in(alloc, &mut room, &mut beside, values, t, place);
    put_back(room, store, fuel, acts);
    let SeenTable {
        handles: after,
        to: _,
    } = beside;
    *handles = after;
    lowered_of(words)
}

/// Takes out what a lowering works on.
fn taken_out(alloc: Global, store: &mut Store, fuel: &mut Fuel, acts: &mut Acts) -> HostedRoom
    ensures { result ≡ record { store = store.old; fuel = fuel.old; acts = acts.old } }
{
    let none = Acts {
        context: (0, 0),
        calls: Seq::new(alloc),
    };
    HostedRoom {
        store: mem::replace(store, Store::new(alloc)),
        fuel: Fuel::new(fuel.left()),
        acts: mem::replace(acts, none),
    }
}

/// Takes out the table beside it.
fn taken_table<E: Drop>(alloc: Global, handles: &mut Table<E>) -> Table<E>
    ensures { result.slots ≡ handles.old.slots }
{
    mem::replace(handles, Table::new(alloc))
}

/// Puts it back.
fn put_back(room: HostedRoom, store: &mut Store, fuel: &mut Fuel, acts: &mut Acts)
    ensures { room ≡ record { store = store.new; fuel = fuel.new; acts = acts.new } }
{
    let HostedRoom {
        store: after,
        fuel: left,
        acts: done,
    } = room;
    *store = after;
    *fuel = left;
    *acts = done;
}

/// The core values of a value that is lowered.
fn words_in<E: Entry<EndType = usize> + Drop>(
    alloc: Global,
    room: &mut HostedRoom,
    beside: &mut SeenTable<'_, E>,
    value: &Value,
    t: &NumberedType<'_>,
    target: Target,
) -> Result<Words, LowerError<HostedTrap>>
    requires fits { fits value.now t.now.val_type ≡ true }
    requires few { target ≡ Target.Flat → length (flat t.now.val_type) ≤ 16 }
    ensures { Comes (set_rooms E.view (IsEntry E.made E.made_end beside.old.to.home.task t.now.types)) (plan_to target t.now.val_type value.now beside.old.to.home.resources.now) (λ words. words) (set_at (setting_of beside.old.to) room.old beside.old.handles.slots) result (set_at (setting_of beside.new.to) room.new beside.new.handles.slots) }
{
    let home = beside.to.home;
    match target {
        Target::Flat => lower_flat_by(alloc, room, beside, &home, value, t),
        Target::NewPlace => {
            let place = lower_placed_by(alloc, room, beside, &home, value, t)?;
            Ok(Seq::of(alloc, u64::from(place))?)
        }
        Target::Place(place) => {
            store_by(alloc, room, beside, &home, place, value, t)?;
            Ok(Seq::new(alloc))
        }
    }
}

/// No core values, of values that are lowered one after the other from a place on.
fn no_words_in<E: Entry<EndType = usize> + Drop>(
    alloc: Global,
    room: &mut HostedRoom,
    beside: &mut SeenTable<'_, E>,
    values: &[Value],
    t: &NumberedType<'_>,
    place: u32,
) -> Result<Words, LowerError<HostedTrap>>
    requires fit { AllFit values.now t.now.val_type }
    ensures { Comes (set_rooms E.view (IsEntry E.made E.made_end beside.old.to.home.task t.now.types)) (plan_all t.now.val_type values.now place beside.old.to.home.resources.now) (λ words. words) (set_at (setting_of beside.old.to) room.old beside.old.handles.slots) result (set_at (setting_of beside.new.to) room.new beside.new.handles.slots) }
{
    let home = beside.to.home;
    store_list_by(alloc, room, beside, &home, place, values, t)?;
    Ok(Seq::new(alloc))
}

/// What a lowering comes to, apart from want of memory.
fn lowered_of(words: Result<Words, LowerError<HostedTrap>>) -> Result<Lowered, Memory>
    ensures { IsLowered words result }
{
    match words {
        Ok(words) => Ok(Lowered::Words(words)),
        Err(LowerError::Failed(why)) => Ok(Lowered::Failed(why)),
        Err(LowerError::Ended(RoomEnd::Trapped(why))) => Ok(Lowered::Trapped(why)),
        Err(LowerError::Ended(RoomEnd::NoFuel)) => Ok(Lowered::NoFuel),
        Err(LowerError::Ended(RoomEnd::Memory)) => Err(Memory),
    }
}
