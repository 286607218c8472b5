//! What holds of values that were lowered, and of those that are lifted.

ghost use Rattle.lowering_laws.specs.ValueLaws.{FittingValuesAre, StoredValuesStand, StoredListsStand, PlacedValuesStand, StoredValuesAreLoaded, StoredListsAreLoaded, LoweredWordsStand, LoweredWordsAreLifted, LoweredWordsAreTyped, PlacedWordsAreTyped, StoresLeaveOthers, ListsLeaveOthers, PlacedLeaveOthers, WordsLeaveOthers};
ghost use Rattle.lowering_laws.specs.LiftedValues.{ValuesOfTypesFit, ValuesOfTypesAreInRange, StandingValuesAre, StandingListsAre, FlattenedValuesAre, LoadedValuesAre, LoadedListsAre, LiftedValuesAre};
ghost use Rattle.lowering_laws.specs.Values.{AreBytes};
ghost use Rattle.value_lower.specs.Following.{untabled};
ghost use Rattle.lowering_laws.specs.ValueRooms.{FollowedOver, FollowedSettle, StoredStand, ListsStand, PlacedStand, LoweredStand, LoweredAreTyped, PlacedAreTyped};

use value_lower::Room;

/// A value in its ranges that fits a type is of it: what the laws ask of a value is what a call of lowering asks.
pub fn fitting_values_are()
    ensures { FittingValuesAre }
{}

/// A value of a type fits it and is in its ranges, and values of a type are in theirs.
pub fn values_of_types_fit()
    ensures fit { ValuesOfTypesFit }
    ensures all { ValuesOfTypesAreInRange }
{}

/// A memory of the program is one of bytes, as the laws of what stands in it ask.
pub fn memories_are_bytes(memory: &[u8])
    ensures { AreBytes memory.now }
{}

/// What stands in a memory of bytes, or has core values of the type's core types that stand for it, is of the type.
pub fn standing_values_are()
    ensures values { StandingValuesAre }
    ensures lists { StandingListsAre }
    ensures flat { FlattenedValuesAre }
{}

/// What `load`, `load_list` and `lift_flat` answer is of the type. So it can be lowered again.
pub fn lifted_values_are()
    ensures values { LoadedValuesAre }
    ensures lists { LoadedListsAre }
    ensures flat { LiftedValuesAre }
{}

/// A value that was stored stands at its place, where what reallocs answered lies apart.
pub fn stored_values_stand()
    ensures { StoredValuesStand }
{}

/// Values that were stored one after the other stand so, where what reallocs answered lies apart.
pub fn stored_lists_stand()
    ensures { StoredListsStand }
{}

/// A value that was stored at a new place stands at the place that is its core value, where what reallocs answered lies apart.
pub fn placed_values_stand()
    ensures { PlacedValuesStand }
{}

/// What was stored is what is loaded, where what reallocs answered lies apart and the value is not too large to be lifted.
pub fn stored_values_are_loaded()
    ensures { StoredValuesAreLoaded }
{}

/// So many values that were stored one after the other are what is loaded.
pub fn stored_lists_are_loaded()
    ensures { StoredListsAreLoaded }
{}

/// The core values that a value was lowered into are of the type's core types and stand for it, where what reallocs answered lies
/// apart.
pub fn lowered_words_stand()
    ensures { LoweredWordsStand }
{}

/// Wherever places lie, the core values that a value was lowered into are of the type's core types, and the one core value of a value
/// that was stored at a new place is an i32.
pub fn lowered_words_are_typed()
    ensures flat { LoweredWordsAreTyped }
    ensures placed { PlacedWordsAreTyped }
{}

/// What was lowered into core values is what is lifted from them, where what reallocs answered lies apart and the value is not too
/// large to be lifted.
pub fn lowered_words_are_lifted()
    ensures { LoweredWordsAreLifted }
{}

/// What lies apart from the place of what is lowered, and from what reallocs answered and changed, stays as it was.
pub fn other_bytes_stay()
    ensures stores { StoresLeaveOthers }
    ensures lists { ListsLeaveOthers }
    ensures placed { PlacedLeaveOthers }
    ensures words { WordsLeaveOthers }
{}

/// A plan that is followed in a room to its core values is followed over some answers of its reallocs, and goes so in the room's
/// memory.
pub fn followed_plans_settle<R: Room>()
    ensures over { FollowedOver (untabled R.memory R.answers R.wrote) }
    ensures settle { FollowedSettle (untabled R.memory R.answers R.wrote) }
{}

/// What `store`, `store_list`, `lower_placed` and `lower_flat` leave in a room: over all answers of its reallocs that lie apart, the
/// value stands there.
pub fn lowered_values_stand<R: Room>()
    ensures stored { StoredStand (untabled R.memory R.answers R.wrote) }
    ensures lists { ListsStand (untabled R.memory R.answers R.wrote) }
    ensures placed { PlacedStand (untabled R.memory R.answers R.wrote) }
    ensures flat { LoweredStand (untabled R.memory R.answers R.wrote) }
{}

/// Whatever the reallocs of a room answer, the core values that `lower_flat` and `lower_placed` come to are of their core types: so a core
/// function takes them.
pub fn core_values_are_typed<R: Room>()
    ensures flat { LoweredAreTyped (untabled R.memory R.answers R.wrote) }
    ensures placed { PlacedAreTyped (untabled R.memory R.answers R.wrote) }
{}
