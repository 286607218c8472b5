//! What holds of plans alone.

ghost use Rattle.value_lower.specs.Following.{untabled};
ghost use Rattle.value_lower.specs.Laws.{PlansComeToOne, TabledComeToOne, CoreValuesAreComplete};

use crate::room::Room;
use res_handles::Entry;

/// Where a room gives one answer to each realloc, and is one room after each store, each plan comes to one thing and leaves one room.
/// So a lowering has one outcome there.
pub fn plans_come_to_one<R: Room>()
    ensures { PlansComeToOne R.memory R.answers R.wrote }
{}

/// So it is with a table too, where no type stands twice among those by whose numbers ends are told.
pub fn tabled_plans_come_to_one<R: Room, E: Entry<EndType = usize>>()
    ensures { TabledComeToOne R.memory R.answers R.wrote E.made E.made_end }
{}

/// Where a value comes to core values in a room, they are as many as stand for its type.
pub fn core_values_are_complete<R: Room>()
    ensures { CoreValuesAreComplete (untabled R.memory R.answers R.wrote) }
{}
