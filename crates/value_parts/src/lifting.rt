//! Values from the memory at an address and the table of an instance.

ghost use Rattle.std.specs.Prelude.{◌≡◌, ◌≤◌, ◌^◌, length, nat_lt};
ghost use Rattle.syntax_trees.specs.Flat.{flat};
ghost use Rattle.laid_types.specs.SameTypes.{AreDistinct};
ghost use Rattle.instances.specs.Entries.{seen_as};
ghost use Rattle.instances.specs.Instances.{with_slots};
ghost use Rattle.value_lift.specs.Lifting.{IsFor, most};
ghost use Rattle.value_lift.specs.Over.{load_by, load_list_by, lift_flat_by};
ghost use Rattle.value_lift.specs.Tables.{MayGive, MostLends, at_first};
ghost use Rattle.world_parts.specs.Held.{Does, held};
ghost use Rattle.world_parts.specs.Places.{bytes_at};
ghost use Rattle.value_parts.specs.Lifting.{FewLent, over_table, SettlesFor, loaded, elements_lifted, flat_lifted, words_lifted, value_lifted};

use crate::loans::move_all;
use crate::memories::bytes_at;
use crate::names::lift_name;
use faults::MemoryOr;
use instances::Instance;
use laid_types::NumberedType;
use std::alloc::Global;
use syntax_trees::{Seq, Value, Values};
use value_lift::{LiftError, LiftOf, Moved, lift_flat, load, load_list};
use wasm_store::Store;
use world_parts::{Part, Parts, Stop, word_in};

/// Where values are lifted from.
#[derive(Clone, Copy)]
pub struct Origin {
    /// The number of the instance in whose table handles and ends are looked up.
    pub at: usize,
    /// The task for whose call handles are lent.
    pub callee: u32,
    /// The address of the memory, where there is one.
    pub memory: Option<usize>,
}

/// The value of a type at a place of a memory, over the table of an instance.
fn load_over(
    alloc: Global,
    store: &Store,
    instance: &mut Instance,
    moved: &mut Seq<Moved>,
    memory: Option<usize>,
    what: LiftOf,
    t: &NumberedType<'_>,
    place: u32,
) -> Result<Value, LiftError>
    requires distinct { AreDistinct t.now.types }
    requires lends { MostLends seen_as (2 ^ 63) instance.old.slots }
    requires whole { IsFor what t.now.val_type }
    ensures exact { MayGive (load_by (over_table t.now.types) t.now.val_type (bytes_at memory store.now) place (at_first (most what) instance.old.slots moved.old)) instance.new.slots moved.new result }
    ensures rest { instance.new ≡ with_slots instance.new.slots instance.old }
{
    let mut table = instance.take_table(alloc);
    let bytes = bytes_at(store, memory);
    let came = load(alloc, bytes, &mut table, place, t, what, moved);
    instance.put_table(table);
    came
}

/// So many values of a type, one after the other from a place of a memory on, over the table of an instance.
fn load_all_over(
    alloc: Global,
    store: &Store,
    instance: &mut Instance,
    moved: &mut Seq<Moved>,
    memory: Option<usize>,
    t: &NumberedType<'_>,
    place: u32,
    count: u32,
) -> Result<Values, LiftError>
    requires distinct { AreDistinct t.now.types }
    requires lends { MostLends seen_as (2 ^ 63) instance.old.slots }
    ensures exact { MayGive (load_list_by (over_table t.now.types) t.now.val_type (bytes_at memory store.now) place count (at_first 134217728 instance.old.slots moved.old)) instance.new.slots moved.new result }
    ensures rest { instance.new ≡ with_slots instance.new.slots instance.old }
{
    let mut table = instance.take_table(alloc);
    let bytes = bytes_at(store, memory);
    let came = load_list(alloc, bytes, &mut table, place, count, t, moved);
    instance.put_table(table);
    came
}

/// The value of a type for which core values stand, over a memory and the table of an instance.
fn lift_over(
    alloc: Global,
    store: &Store,
    instance: &mut Instance,
    moved: &mut Seq<Moved>,
    memory: Option<usize>,
    what: LiftOf,
    t: &NumberedType<'_>,
    words: &[u64],
) -> Result<Value, LiftError>
    requires distinct { AreDistinct t.now.types }
    requires lends { MostLends seen_as (2 ^ 63) instance.old.slots }
    requires few { length words.now ≤ 16 }
    requires words { length words.now ≡ length (flat t.now.val_type) }
    requires whole { IsFor what t.now.val_type }
    ensures exact { MayGive (lift_flat_by (over_table t.now.types) t.now.val_type (bytes_at memory store.now) words.now (at_first (most what) instance.old.slots moved.old)) instance.new.slots moved.new result }
    ensures rest { instance.new ≡ with_slots instance.new.slots instance.old }
{
    let mut table = instance.take_table(alloc);
    let bytes = bytes_at(store, memory);
    let came = lift_flat(alloc, bytes, &mut table, t, words, what, moved);
    instance.put_table(table);
    came
}

/// What comes of a call that lifted, behind what it moved in a table.
fn settle<A: Drop>(
    parts: &mut Parts,
    from: Origin,
    moved: &[Moved],
    came: Result<A, LiftError>,
) -> Part<A>
    ensures { SettlesFor from moved.now came (held parts.old) result parts.new }
{
    match came {
        Ok(value) => {
            move_all(parts, from.at, from.callee, moved)?;
            Ok(value)
        }
        Err(MemoryOr::Fault(trap)) => {
            move_all(parts, from.at, from.callee, moved)?;
            Err(Stop::Trap(lift_name(trap.why)))
        }
        Err(MemoryOr::Memory) => Err(Stop::Memory),
    }
}

/// The value of a type at a place.
fn load_value(
    alloc: Global,
    parts: &mut Parts,
    from: Origin,
    what: LiftOf,
    t: &NumberedType<'_>,
    place: u32,
) -> Part<Value>
    requires distinct { AreDistinct t.now.types }
    requires lends { FewLent (held parts.old) }
    requires whole { IsFor what t.now.val_type }
    ensures { Does (loaded from what t.now place) parts.old result parts.new }
{
    if from.at >= parts.instances.len() {
        return Err(Stop::Stuck);
    }
    let mut moved = Seq::new(alloc);
    let came = load_over(
        alloc,
        &parts.store,
        &mut parts.instances[from.at],
        &mut moved,
        from.memory,
        what,
        t,
        place,
    );
    settle(parts, from, moved.as_slice(), came)
}

/// So many elements of a type, one after the other from a place on (Component Model, CanonicalABI.md, `canon stream.write`): those that a copy
/// takes from the side that writes.
///
/// # Errors
///
/// The traps of lifting, behind what has left the table before. `Stuck` where the instance is not there. `Memory`.
pub fn lift_elements(
    alloc: Global,
    parts: &mut Parts,
    from: Origin,
    t: &NumberedType<'_>,
    place: u32,
    count: u32,
) -> Part<Values>
    requires distinct { AreDistinct t.now.types }
    requires lends { FewLent (held parts.old) }
    ensures { Does (elements_lifted from t.now place count) parts.old result parts.new }
{
    if from.at >= parts.instances.len() {
        return Err(Stop::Stuck);
    }
    let mut moved = Seq::new(alloc);
    let came = load_all_over(
        alloc,
        &parts.store,
        &mut parts.instances[from.at],
        &mut moved,
        from.memory,
        t,
        place,
        count,
    );
    settle(parts, from, moved.as_slice(), came)
}

/// The value of a type for which core values stand, as many as for its values.
fn lift_value(
    alloc: Global,
    parts: &mut Parts,
    from: Origin,
    what: LiftOf,
    t: &NumberedType<'_>,
    words: &[u64],
) -> Part<Value>
    requires distinct { AreDistinct t.now.types }
    requires lends { FewLent (held parts.old) }
    requires few { length words.now ≤ 16 }
    requires words { length words.now ≡ length (flat t.now.val_type) }
    requires whole { IsFor what t.now.val_type }
    ensures { Does (flat_lifted from what t.now words.now) parts.old result parts.new }
{
    if from.at >= parts.instances.len() {
        return Err(Stop::Stuck);
    }
    let mut moved = Seq::new(alloc);
    let came = lift_over(
        alloc,
        &parts.store,
        &mut parts.instances[from.at],
        &mut moved,
        from.memory,
        what,
        t,
        words,
    );
    settle(parts, from, moved.as_slice(), came)
}

/// Whether more core values stand for a value of a type than so many, which are at most 16 (Component Model, CanonicalABI.md, "Flattening").
#[tactic(auto, using(crate::proofs::Limits::more_than))]
pub fn takes_more(t: &NumberedType<'_>, limit: usize) -> bool
    requires { limit ≤ 16 }
    ensures { result ≡ nat_lt limit (length (flat t.now.val_type)) }
{
    limit < t.laid().flat().len()
}

/// How many core values stand for a value of a type, for which at most 16 do.
#[tactic(auto, using(crate::proofs::Limits::as_many))]
fn flat_count(t: &NumberedType<'_>) -> usize
    requires { length (flat t.now.val_type) ≤ 16 }
    ensures { result ≡ length (flat t.now.val_type) }
{
    t.laid().flat().len()
}

/// The value of a type for which the first of these words stand. Behind arguments a place for the result may stand.
#[tactic(auto, using(crate::proofs::Limits::first_many, crate::proofs::Limits::first_few))]
fn lift_words(
    alloc: Global,
    parts: &mut Parts,
    from: Origin,
    what: LiftOf,
    t: &NumberedType<'_>,
    words: &[u64],
) -> Part<Value>
    requires distinct { AreDistinct t.now.types }
    requires lends { FewLent (held parts.old) }
    requires few { length (flat t.now.val_type) ≤ 16 }
    requires whole { IsFor what t.now.val_type }
    ensures { Does (words_lifted from what t.now words.now) parts.old result parts.new }
{
    let count = flat_count(t);
    if words.len() < count {
        return Err(Stop::Stuck);
    }
    lift_value(alloc, parts, from, what, t, &words[..count])
}

/// The value of a type that is passed by words: it stands in them, or at the place that is the first, where more core values stand for it than
/// these.
#[tactic(auto, unfolding(crate::specs::Lifting::value_lifted), using(world_parts::proofs::Thens::thens))]
pub(crate) fn lift_passed(
    alloc: Global,
    parts: &mut Parts,
    from: Origin,
    what: LiftOf,
    limit: usize,
    t: &NumberedType<'_>,
    words: &[u64],
) -> Part<Value>
    requires distinct { AreDistinct t.now.types }
    requires lends { FewLent (held parts.old) }
    requires limit { limit ≤ 16 }
    requires whole { IsFor what t.now.val_type }
    ensures { Does (value_lifted from what limit t.now words.now) parts.old result parts.new }
{
    if takes_more(t, limit) {
        let Some(place) = word_in(words, 0) else {
            return Err(Stop::Stuck);
        };
        load_value(alloc, parts, from, what, t, place)
    } else {
        lift_words(alloc, parts, from, what, t, words)
    }
}
