//! Values into a memory, at places that are tested.

ghost use Rattle.std.specs.Prelude.{◌≡◌, ◌∷◌, [], true};
ghost use Rattle.syntax_trees.specs.Fits.{fits};
ghost use Rattle.value_lower.specs.Following.{Comes, rooms_of};
ghost use Rattle.value_lower.specs.Entering.{stored, all_stored, placed};
ghost use Rattle.value_lower.specs.Fitting.{AllFit};

use crate::asking::{ask, test_place};
use crate::beside::Beside;
use crate::ends::LowerError;
use crate::storing::{store_elements, store_value};
use laid_types::NumberedType;
use res_handles::Home;
use std::alloc::Global;
use syntax_trees::Value;

/// Stores a value at a place, as `store`, with what stands beside the room.
pub fn store_by<R, B: Beside<R>>(
    alloc: Global,
    room: &mut R,
    beside: &mut B,
    home: &Home<'_>,
    place: u32,
    value: &Value,
    t: &NumberedType<'_>,
) -> Result<(), LowerError<B::Trap>>
    requires fits { fits value.now t.now.val_type ≡ true }
    ensures { Comes (rooms_of B.memory B.answers B.wrote (B.adds home.now.task t.now.types)) (stored (B.entering home.now.resources.now) t.now.val_type value.now place) (λ _. []) (B.state room.old beside.old) result (B.state room.new beside.new) }
{
    let laid = t.laid();
    test_place(room, beside, place, laid.align(), laid.size())?;
    store_value(alloc, room, beside, home, u64::from(place), value, t)
}

/// Stores values of a type one after the other from a place on, as `store_list`, with what stands beside the room.
pub fn store_list_by<R, B: Beside<R>>(
    alloc: Global,
    room: &mut R,
    beside: &mut B,
    home: &Home<'_>,
    place: u32,
    values: &[Value],
    t: &NumberedType<'_>,
) -> Result<(), LowerError<B::Trap>>
    requires fit { AllFit values.now t.now.val_type }
    ensures { Comes (rooms_of B.memory B.answers B.wrote (B.adds home.now.task t.now.types)) (all_stored (B.entering home.now.resources.now) t.now.val_type values.now place) (λ _. []) (B.state room.old beside.old) result (B.state room.new beside.new) }
{
    if values.is_empty() {
        return Ok(());
    }
    let laid = t.laid();
    test_place(
        room,
        beside,
        place,
        laid.align(),
        values.len() as u128 * laid.size(),
    )?;
    store_elements(alloc, room, beside, home, u64::from(place), values, t)
}

/// Stores a value at a new place, and answers the place, as `lower_placed`, with what stands beside the room.
pub fn lower_placed_by<R, B: Beside<R>>(
    alloc: Global,
    room: &mut R,
    beside: &mut B,
    home: &Home<'_>,
    value: &Value,
    t: &NumberedType<'_>,
) -> Result<u32, LowerError<B::Trap>>
    requires fits { fits value.now t.now.val_type ≡ true }
    ensures { Comes (rooms_of B.memory B.answers B.wrote (B.adds home.now.task t.now.types)) (placed (B.entering home.now.resources.now) t.now.val_type value.now) (λ place. place ∷ []) (B.state room.old beside.old) result (B.state room.new beside.new) }
{
    let laid = t.laid();
    let place = ask(alloc, room, beside, 1, laid.align(), laid.size())?;
    store_value(alloc, room, beside, home, u64::from(place), value, t)?;
    Ok(place)
}
