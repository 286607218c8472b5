//! What holds of every run of a future's ends: reads and writes, deliveries, cancels and drops.

ghost use Rattle.future_ends.specs.Laws.{NothingIsLost, OneOfferStands, ToldOnce, DoneWhereEnded, AtMostOne, NothingAfterDrop};

/// At each end as many values passed as were copied, and both ends agree.
pub fn nothing_is_lost()
    ensures { NothingIsLost }
{}

/// At most one offer stands.
pub fn one_offer_stands()
    ensures { OneOfferStands }
{}

/// What an end is told are the payloads of its closed copies, each once and in order.
pub fn payloads_are_told_once()
    ensures { ToldOnce }
{}

/// A future that was completed for an end, or whose other end is dropped as this one was told, is done there, and no
/// other is.
pub fn an_end_is_done_where_a_copy_ended()
    ensures { DoneWhereEnded }
{}

/// At most one value passes.
pub fn at_most_one_value_passes()
    ensures { AtMostOne }
{}

/// Nothing is copied once an end is dropped.
pub fn nothing_is_copied_after_a_drop()
    ensures { NothingAfterDrop }
{}
