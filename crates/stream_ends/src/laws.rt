//! What holds of every run of a stream's ends: reads and writes, deliveries, cancels and drops.

ghost use Rattle.stream_ends.specs.Laws.{NothingIsLost, OneOfferStands, ToldOnce, NothingAfterDrop};

/// At each end as many elements passed as were copied, and both ends agree.
pub fn nothing_is_lost()
    ensures { NothingIsLost }
{}

/// At most one offer stands.
pub fn one_offer_stands()
    ensures { OneOfferStands }
{}

/// What an end is told are the payloads of its closed copies, each once and in order.
pub fn payloads_are_told_once()
    ensures { ToldOnce }
{}

/// Nothing is copied once an end is dropped.
pub fn nothing_is_copied_after_a_drop()
    ensures { NothingAfterDrop }
{}
