//! Values with handles and ends.

ghost use Rattle.std.specs.Prelude.{◌≡◌, ◌≤◌, ◌∷◌, [], true, length, IfOk};
ghost use Rattle.syntax_trees.specs.Fits.{fits};
ghost use Rattle.syntax_trees.specs.Flat.{flat};
ghost use Rattle.value_lower.specs.Following.{Comes};
ghost use Rattle.value_lower.specs.Entering.{stored, all_stored, placed, flat_lowered};
ghost use Rattle.value_lower.specs.Tables.{tabled, entered, IsEntry};
ghost use Rattle.value_lower.specs.Fitting.{AllFit};

use crate::ends::LowerError;
use crate::room::Room;
use crate::stores::{lower_placed_by, store_by, store_list_by};
use crate::words::{Words, lower_flat_by};
use handle_table::Table;
use laid_types::NumberedType;
use res_handles::{Entry, Home};
use std::alloc::Global;
use syntax_trees::Value;

/// Stores a value at a place (Component Model, CanonicalABI.md, "Storing"). Padding, and the bytes that a payload leaves over, stay as
/// they are.
///
/// Handles and ends go into the table of the instance whose memory this is, and their indices stand in the value. A borrow of a resource
/// that the instance defines is its representation; any other counts for the task of `home`. An end is told by its type's number.
///
/// # Errors
///
/// `Misaligned` where the place is no multiple of the type's alignment, then `Bounds` where not all bytes of the value are inside
/// the memory as it is now; and nothing is stored. Then, from left to right, of each text and list: `Bounds` where its bytes or
/// elements are 2^32 or more, or its elements have 2^32 bytes or more, before anything is asked for; the end of the realloc where
/// that gives no place; `Misaligned` where the place is no multiple of the alignment; `Bounds` where not all bytes are inside the
/// memory as it is then; and of each handle and end `TableFull` where 65,535 entries are live. What was stored and entered before
/// stays.
pub fn store<R: Room, E: Entry<EndType = usize> + Drop>(
    alloc: Global,
    room: &mut R,
    handles: &mut Table<E>,
    home: &Home<'_>,
    place: u32,
    value: &Value,
    t: &NumberedType<'_>,
) -> Result<(), LowerError<R::Trap>>
    requires fits { fits value.now t.now.val_type ≡ true }
    ensures { Comes (tabled R.memory R.answers R.wrote (IsEntry E.made E.made_end home.now.task t.now.types)) (stored (entered home.now.resources.now) t.now.val_type value.now place) (λ _. []) (room.old, handles.old.slots) result (room.new, handles.new.slots) }
{
    store_by(alloc, room, handles, home, place, value, t)
}

/// Stores values of a type one after the other from a place on. For no values no place is tested. Handles and ends go into the table
/// as by `store`.
///
/// # Errors
///
/// As `store`: the place is tested once, for the bytes of all values.
pub fn store_list<R: Room, E: Entry<EndType = usize> + Drop>(
    alloc: Global,
    room: &mut R,
    handles: &mut Table<E>,
    home: &Home<'_>,
    place: u32,
    values: &[Value],
    t: &NumberedType<'_>,
) -> Result<(), LowerError<R::Trap>>
    requires fit { AllFit values.now t.now.val_type }
    ensures { Comes (tabled R.memory R.answers R.wrote (IsEntry E.made E.made_end home.now.task t.now.types)) (all_stored (entered home.now.resources.now) t.now.val_type values.now place) (λ _. []) (room.old, handles.old.slots) result (room.new, handles.new.slots) }
{
    store_list_by(alloc, room, handles, home, place, values, t)
}

/// Stores a value at a new place, and answers the place: so arguments, as a tuple, are lowered for which more than 16 core values
/// stand (Component Model, CanonicalABI.md, "Lifting and Lowering Values"). Handles and ends go into the table as by `store`.
///
/// # Errors
///
/// `Bounds` where the value has 2^32 bytes or more, before anything is asked for; the end of the realloc where that gives no
/// place; and then as `store`, by the memory as it is after the realloc.
pub fn lower_placed<R: Room, E: Entry<EndType = usize> + Drop>(
    alloc: Global,
    room: &mut R,
    handles: &mut Table<E>,
    home: &Home<'_>,
    value: &Value,
    t: &NumberedType<'_>,
) -> Result<u32, LowerError<R::Trap>>
    requires fits { fits value.now t.now.val_type ≡ true }
    ensures { Comes (tabled R.memory R.answers R.wrote (IsEntry E.made E.made_end home.now.task t.now.types)) (placed (entered home.now.resources.now) t.now.val_type value.now) (λ place. place ∷ []) (room.old, handles.old.slots) result (room.new, handles.new.slots) }
{
    lower_placed_by(alloc, room, handles, home, value, t)
}

/// The core values that stand for a value, whose texts and lists go into the room (Component Model, CanonicalABI.md, "Flat
/// Lowering"): as many as stand for the type, which are at most 16. Arguments are a tuple.
///
/// Integers of 32 bits and less are numbers below 2^32, signed ones in 32 bits; integers of 64 bits are their bits. A text and a list
/// are a place and a number of bytes or elements. A variant is the number of its case and its payload, and zeros for the core values
/// that other cases have more. Handles and ends go into the table as by `store`, and are their indices.
///
/// # Errors
///
/// As for `store`, of each text, list, handle and end. What was stored and entered before stays.
pub fn lower_flat<R: Room, E: Entry<EndType = usize> + Drop>(
    alloc: Global,
    room: &mut R,
    handles: &mut Table<E>,
    home: &Home<'_>,
    value: &Value,
    t: &NumberedType<'_>,
) -> Result<Words, LowerError<R::Trap>>
    requires fits { fits value.now t.now.val_type ≡ true }
    requires few { length (flat t.now.val_type) ≤ 16 }
    ensures follows { Comes (tabled R.memory R.answers R.wrote (IsEntry E.made E.made_end home.now.task t.now.types)) (flat_lowered (entered home.now.resources.now) t.now.val_type value.now) (λ words. words) (room.old, handles.old.slots) result (room.new, handles.new.slots) }
    ensures count { IfOk result (λ words. length words ≡ length (flat t.now.val_type)) }
{
    lower_flat_by(alloc, room, handles, home, value, t)
}
