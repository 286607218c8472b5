//! What holds of the sets after every history of joinings and leavings.

ghost use Rattle.std.specs.Prelude.{List};
ghost use Rattle.waitables.specs.History.{Event};
ghost use Rattle.waitables.specs.Laws.{MembersKeepTheirOrder, InAtMostOneSet};

/// Members keep their order, and one that joins is the last.
pub fn members_keep_their_order()
    ensures { MembersKeepTheirOrder }
{}

/// A waitable is in at most one set, and once.
pub fn a_waitable_is_in_at_most_one_set()
    ensures { (history : List Event) → InAtMostOneSet history }
{}
