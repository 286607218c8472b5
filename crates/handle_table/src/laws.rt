//! What holds of every history of a table, whatever its entries are.

ghost use Rattle.handle_table.specs.Laws.{NotGivenWhileLive, NeverZero, FreedLastGivenFirst, ElseOneMore, AtMostLive, WritesStand};

/// No index is given while it is live.
pub fn no_index_is_given_while_it_is_live<T>()
    ensures { NotGivenWhileLive T }
{}

/// Index 0 is never given.
pub fn index_zero_is_never_given<T>()
    ensures { NeverZero T }
{}

/// Of the free indices the one that was removed last is given first.
pub fn what_is_freed_last_is_given_first<T>()
    ensures { FreedLastGivenFirst T }
{}

/// Where no index is free, one more than the greatest ever given is given.
pub fn else_one_more_is_given<T>()
    ensures { ElseOneMore T }
{}

/// At most 65,535 entries are live.
pub fn at_most_65535_are_live<T>()
    ensures { AtMostLive T }
{}

/// A write through `Table::get_mut` leaves a table that stands for the history in which the new entry was added.
pub fn writes_stand<T>()
    ensures { WritesStand T }
{}
