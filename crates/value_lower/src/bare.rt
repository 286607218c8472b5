//! Values without handles and ends.

ghost use Rattle.std.specs.Prelude.{◌≡◌, ◌≤◌, ◌∷◌, [], true, false, length, IfOk};
ghost use Rattle.syntax_trees.specs.Ends.{has_end};
ghost use Rattle.syntax_trees.specs.Fits.{fits};
ghost use Rattle.syntax_trees.specs.Flat.{flat};
ghost use Rattle.laid_types.specs.Handles.{has_handle};
ghost use Rattle.value_lower.specs.Following.{Comes, untabled};
ghost use Rattle.value_lower.specs.Lowering.{stored, all_stored, placed, flat_lowered};
ghost use Rattle.value_lower.specs.Fitting.{AllFit};

use crate::by_number::ByNumber;
use crate::ends::LowerError;
use crate::room::Room;
use crate::stores::{lower_placed_by, store_by, store_list_by};
use crate::words::{Words, lower_flat_by};
use laid_types::LaidType;
use res_handles::Home;
use std::alloc::Global;
use syntax_trees::Value;

/// Stores a value at a place, as `store` (Component Model, CanonicalABI.md, "Storing"). The type holds no handle and no end of a stream
/// or a future, so no table is needed.
///
/// # Errors
///
/// As for `store`, but for `TableFull`.
pub fn store_bare<R: Room>(
    alloc: Global,
    room: &mut R,
    place: u32,
    value: &Value,
    t: &LaidType<'_>,
) -> Result<(), LowerError<R::Trap>>
    requires handles { has_handle t.now ≡ false }
    requires ends { has_end t.now ≡ false }
    requires fits { fits value.now t.now ≡ true }
    ensures { Comes (untabled R.memory R.answers R.wrote) (stored t.now value.now place) (λ _. []) room.old result room.new }
{
    let mut none = ByNumber;
    let home = Home {
        task: 0,
        resources: &[],
    };
    store_by(alloc, room, &mut none, &home, place, value, &t.numbered())
}

/// Stores values of a type one after the other from a place on, as `store_list`. The type holds no handle and no end of a stream or a
/// future, so no table is needed.
///
/// # Errors
///
/// As for `store_list`, but for `TableFull`.
pub fn store_list_bare<R: Room>(
    alloc: Global,
    room: &mut R,
    place: u32,
    values: &[Value],
    t: &LaidType<'_>,
) -> Result<(), LowerError<R::Trap>>
    requires handles { has_handle t.now ≡ false }
    requires ends { has_end t.now ≡ false }
    requires fit { AllFit values.now t.now }
    ensures { Comes (untabled R.memory R.answers R.wrote) (all_stored t.now values.now place) (λ _. []) room.old result room.new }
{
    let mut none = ByNumber;
    let home = Home {
        task: 0,
        resources: &[],
    };
    store_list_by(alloc, room, &mut none, &home, place, values, &t.numbered())
}

/// Stores a value at a new place, and answers the place, as `lower_placed`. The type holds no handle and no end of a stream or a
/// future, so no table is needed.
///
/// # Errors
///
/// As for `lower_placed`, but for `TableFull`.
pub fn lower_placed_bare<R: Room>(
    alloc: Global,
    room: &mut R,
    value: &Value,
    t: &LaidType<'_>,
) -> Result<u32, LowerError<R::Trap>>
    requires handles { has_handle t.now ≡ false }
    requires ends { has_end t.now ≡ false }
    requires fits { fits value.now t.now ≡ true }
    ensures { Comes (untabled R.memory R.answers R.wrote) (placed t.now value.now) (λ place. place ∷ []) room.old result room.new }
{
    let mut none = ByNumber;
    let home = Home {
        task: 0,
        resources: &[],
    };
    lower_placed_by(alloc, room, &mut none, &home, value, &t.numbered())
}

/// The core values that stand for a value, whose texts and lists go into the room, as `lower_flat` answers them (Component Model,
/// CanonicalABI.md, "Flat Lowering"). The type holds no handle and no end of a stream or a future, so no table is needed.
///
/// # Errors
///
/// As for `lower_flat`, but for `TableFull`.
pub fn lower_flat_bare<R: Room>(
    alloc: Global,
    room: &mut R,
    value: &Value,
    t: &LaidType<'_>,
) -> Result<Words, LowerError<R::Trap>>
    requires handles { has_handle t.now ≡ false }
    requires ends { has_end t.now ≡ false }
    requires fits { fits value.now t.now ≡ true }
    requires few { length (flat t.now) ≤ 16 }
    ensures follows { Comes (untabled R.memory R.answers R.wrote) (flat_lowered t.now value.now) (λ words. words) room.old result room.new }
    ensures count { IfOk result (λ words. length words ≡ length (flat t.now)) }
{
    let mut none = ByNumber;
    let home = Home {
        task: 0,
        resources: &[],
    };
    lower_flat_by(alloc, room, &mut none, &home, value, &t.numbered())
}
