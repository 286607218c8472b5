//! Values with handles and ends.

ghost use Rattle.std.specs.Prelude.{◌≡◌, ◌≤◌, ◌^◌, length};
ghost use Rattle.syntax_trees.specs.Flat.{flat};
ghost use Rattle.laid_types.specs.SameTypes.{AreDistinct};
ghost use Rattle.value_lift.specs.Over.{load_by, load_list_by, lift_flat_by};
ghost use Rattle.value_lift.specs.Lifting.{IsFor, most};
ghost use Rattle.value_lift.specs.Settled.{listing, none_listed, uses_in, LendsRise, RunGrows, HistoryGrows, UnlessMemory};
ghost use Rattle.value_lift.specs.Tables.{by_table, at_first, MayGive, MostLends};

use crate::by_table::ByTable;
use crate::counting::LiftOf;
use crate::loads;
use crate::moved::Moved;
use crate::trap::LiftError;
use crate::words::word_value_at;
use handle_table::Table;
use laid_types::NumberedType;
use res_handles::Entry;
use std::alloc::Global;
use syntax_trees::{Seq, Value, Values};

/// The value of a type at a place of a memory (Component Model, CanonicalABI.md, "Loading").
///
/// Handles and ends are looked up in the table of the component instance whose memory this is. An own handle leaves the table; a
/// handle that is lifted as a borrow is lent once more, and the readable end of a stream or a future leaves the table, and both are
/// told in `moved`, in order. Arguments are of the type of a tuple. In the table of types no type stands twice, so that ends are told by
/// the numbers of their types.
///
/// # Errors
///
/// Want of memory, or the first part from left to right that stands for nothing: `Misaligned` and `Bounds` for the place
/// itself, where the value begins at no multiple of its alignment or does not end inside, and for a list; `Bounds` for a
/// text; `BadChar`, `BadUtf8` and `BadCase`; `TooLarge` where more than 134,217,728 values and bytes of texts are reached; `Refused` for a
/// handle or an end, whose index stands at the place. What was lent or has left the table before stays so.
#[tactic(auto, using(crate::proofs::Given::given_by))]
pub fn load<E: Entry<EndType = usize> + Drop>(
    alloc: Global,
    memory: &[u8],
    handles: &mut Table<E>,
    place: u32,
    t: &NumberedType<'_>,
    what: LiftOf,
    moved: &mut Seq<Moved>,
) -> Result<Value, LiftError>
    requires distinct { AreDistinct t.now.types }
    requires lends { MostLends E.view (2 ^ 63) handles.old.slots }
    requires whole { IsFor what t.now.val_type }
    ensures exact { MayGive (load_by (by_table E.view E.made E.end_type t.now.types) t.now.val_type memory.now place (at_first (most what) handles.old.slots moved.old)) handles.new.slots moved.new result }
    ensures lends { UnlessMemory result (LendsRise E.view (most what) handles.old.slots handles.new.slots) }
    ensures run { UnlessMemory result (RunGrows E.view E.made E.end_type t.now.types (uses_in (load_by listing t.now.val_type memory.now place (none_listed (most what)))) (at_first (most what) handles.old.slots moved.old) handles.new.slots) }
    ensures stands { UnlessMemory result (HistoryGrows E.view E.made E.end_type t.now.types (uses_in (load_by listing t.now.val_type memory.now place (none_listed (most what)))) (at_first (most what) handles.old.slots moved.old) handles.new.slots) }
{
    let mut ledger = ByTable::begun(alloc, what.most(), handles, moved);
    let loaded = loads::load_by(alloc, memory, &mut ledger, place, t);
    ledger.ended(handles, moved);
    loaded
}

/// So many values of a type, one after the other from a place of a memory on. No value stands at any place. Handles and ends are
/// looked up as by `load`.
///
/// # Errors
///
/// Want of memory, or the first fault, as for a list with that place and number of elements. Each element is counted.
#[tactic(auto, using(crate::proofs::Given::given_by))]
pub fn load_list<E: Entry<EndType = usize> + Drop>(
    alloc: Global,
    memory: &[u8],
    handles: &mut Table<E>,
    place: u32,
    count: u32,
    t: &NumberedType<'_>,
    moved: &mut Seq<Moved>,
) -> Result<Values, LiftError>
    requires distinct { AreDistinct t.now.types }
    requires lends { MostLends E.view (2 ^ 63) handles.old.slots }
    ensures exact { MayGive (load_list_by (by_table E.view E.made E.end_type t.now.types) t.now.val_type memory.now place count (at_first 134217728 handles.old.slots moved.old)) handles.new.slots moved.new result }
    ensures lends { UnlessMemory result (LendsRise E.view 134217728 handles.old.slots handles.new.slots) }
    ensures run { UnlessMemory result (RunGrows E.view E.made E.end_type t.now.types (uses_in (load_list_by listing t.now.val_type memory.now place count (none_listed 134217728))) (at_first 134217728 handles.old.slots moved.old) handles.new.slots) }
    ensures stands { UnlessMemory result (HistoryGrows E.view E.made E.end_type t.now.types (uses_in (load_list_by listing t.now.val_type memory.now place count (none_listed 134217728))) (at_first 134217728 handles.old.slots moved.old) handles.new.slots) }
{
    let mut ledger = ByTable::begun(alloc, LiftOf::Value.most(), handles, moved);
    let loaded = loads::load_list_by(alloc, memory, &mut ledger, place, count, t);
    ledger.ended(handles, moved);
    loaded
}

/// The value of a type for which core values stand, over a memory (Component Model, CanonicalABI.md, "Flat Lifting").
///
/// There are at most 16 core values, as many as stand for the type. Of each the low bits are taken that its part has: a value of
/// 64 bits that stands for one of 32 in a case of a variant is wrapped, and bits above those of a narrow integer are ignored. Handles
/// and ends are looked up as by `load`. Arguments are of the type of a tuple.
///
/// # Errors
///
/// Want of memory, or the first part from left to right that stands for nothing, as `load` has them. The place of a fault of a
/// part that stands in core values is the number of its first one, counted from 0.
#[tactic(auto, using(crate::proofs::Given::given_by))]
pub fn lift_flat<E: Entry<EndType = usize> + Drop>(
    alloc: Global,
    memory: &[u8],
    handles: &mut Table<E>,
    t: &NumberedType<'_>,
    words: &[u64],
    what: LiftOf,
    moved: &mut Seq<Moved>,
) -> Result<Value, LiftError>
    requires distinct { AreDistinct t.now.types }
    requires lends { MostLends E.view (2 ^ 63) handles.old.slots }
    requires few { length words.now ≤ 16 }
    requires words { length words.now ≡ length (flat t.now.val_type) }
    requires whole { IsFor what t.now.val_type }
    ensures exact { MayGive (lift_flat_by (by_table E.view E.made E.end_type t.now.types) t.now.val_type memory.now words.now (at_first (most what) handles.old.slots moved.old)) handles.new.slots moved.new result }
    ensures lends { UnlessMemory result (LendsRise E.view (most what) handles.old.slots handles.new.slots) }
    ensures run { UnlessMemory result (RunGrows E.view E.made E.end_type t.now.types (uses_in (lift_flat_by listing t.now.val_type memory.now words.now (none_listed (most what)))) (at_first (most what) handles.old.slots moved.old) handles.new.slots) }
    ensures stands { UnlessMemory result (HistoryGrows E.view E.made E.end_type t.now.types (uses_in (lift_flat_by listing t.now.val_type memory.now words.now (none_listed (most what)))) (at_first (most what) handles.old.slots moved.old) handles.new.slots) }
{
    let mut ledger = ByTable::begun(alloc, what.most(), handles, moved);
    let lifted = word_value_at(alloc, memory, &mut ledger, words, 0, t);
    ledger.ended(handles, moved);
    lifted
}
