//! What holds of lifting alone, and of lifting over a table beside it.

ghost use Rattle.std.specs.Prelude.{List};
ghost use Rattle.syntax_trees.specs.declared.types.ValType.{ValType};
ghost use Rattle.value_lift.specs.Settled.{LoadsAreSettled, ListsAreSettled, WordsAreSettled, ListedLoadsArePlain, ListedListsArePlain, ListedWordsArePlain};
ghost use Rattle.value_lift.specs.Taken.{LoadsComeTo, ListsComeTo, WordsComeTo};
ghost use Rattle.value_lift.specs.Laws.{LiftedValuesStand, StandingValuesAreLifted, LoadedValuesStand, LoadedListsStand, LiftedWordsStand, FailingValuesStop, FailingLoadsStop, FailingListsStop, FailingWordsStop, OneIsLoaded, OneListIsLoaded, OneIsLifted};

use res_handles::Entry;

/// What is lifted from a memory stands there, and is counted.
pub fn lifted_values_stand()
    ensures { LiftedValuesStand }
{}

/// What stands in a memory is lifted, where so much may be counted.
pub fn standing_values_are_lifted()
    ensures { StandingValuesAreLifted }
{}

/// A value is loaded from a place exactly where it stands there, aligned and inside, and is not too large.
pub fn loaded_values_stand()
    ensures { LoadedValuesStand }
{}

/// Values are loaded one after the other from a place exactly where they stand there, aligned and inside, and are not too
/// large.
pub fn loaded_lists_stand()
    ensures { LoadedListsStand }
{}

/// A value is lifted from core values, which are of the type's core types, exactly where they stand for it, and it is not too
/// large.
pub fn lifted_words_stand()
    ensures { LiftedWordsStand }
{}

/// Lifting from a memory stops exactly where a value fails, for its reason and at its spot: that of the first part, from left to
/// right, that stands for nothing.
pub fn failing_values_stop()
    ensures { FailingValuesStop }
{}

/// Loading from a place stops exactly where the place or the value fails.
pub fn failing_loads_stop()
    ensures { FailingLoadsStop }
{}

/// Loading values one after the other stops exactly where the place or one of them fails.
pub fn failing_lists_stop()
    ensures { FailingListsStop }
{}

/// Lifting from core values, which are of the type's core types, stops exactly where they fail.
pub fn failing_words_stop()
    ensures { FailingWordsStop }
{}

/// A place has one value of a type, or one fault.
pub fn one_is_loaded()
    ensures { OneIsLoaded }
{}

/// A place has so many values of a type, or one fault.
pub fn one_list_is_loaded()
    ensures { OneListIsLoaded }
{}

/// Core values, which are of a type's core types, have one value of the type, or one fault.
pub fn one_is_lifted()
    ensures { OneIsLifted }
{}

/// Lifting that lists the indices which it uses is plain lifting, but for the list.
pub fn what_is_listed_is_plain()
    ensures loads { ListedLoadsArePlain }
    ensures lists { ListedListsArePlain }
    ensures words { ListedWordsArePlain }
{}

/// Lifting over a table is what the table makes of the indices that are listed: it takes them in order, up to the first that it refuses.
pub fn what_is_lifted_is_settled<E: Entry<EndType = usize>>()
    ensures loads { (types : List ValType) → LoadsAreSettled E.view E.made E.end_type types }
    ensures lists { (types : List ValType) → ListsAreSettled E.view E.made E.end_type types }
    ensures words { (types : List ValType) → WordsAreSettled E.view E.made E.end_type types }
{}

/// Over a table the first index that is refused is the fault, at its place. Where none is, it is the first part that stands for nothing,
/// or the value that stands there with each index replaced by what it names.
pub fn indices_are_taken_in_order<E: Entry<EndType = usize>>()
    ensures loads { (types : List ValType) → LoadsComeTo E.view E.made E.end_type types }
    ensures lists { (types : List ValType) → ListsComeTo E.view E.made E.end_type types }
    ensures words { (types : List ValType) → WordsComeTo E.view E.made E.end_type types }
{}
