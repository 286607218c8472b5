//! What holds of every run of calls over a table, whatever its entries are.

ghost use Rattle.std.specs.Prelude.{[]};
ghost use Rattle.handle_table.specs.Slots.{no_slots};
ghost use Rattle.res_handles.specs.Calls.{shown};
ghost use Rattle.res_handles.specs.Runs.{ComesOf};
ghost use Rattle.res_handles.specs.Laws.{LendsAreOpenLoans, LentIsKept, NothingRemovedIsLent, BorrowsChange, LoweredIsAsGiven, HandlesStay, TakenIsAsAsked, OthersComeAndGo};

use crate::entry::Entry;

/// The lends of a handle are the loans of its index that were begun and not ended.
pub fn lends_are_the_open_loans()
    ensures { LendsAreOpenLoans }
{}

/// A handle with an open loan is neither lifted as own nor dropped.
pub fn what_is_lent_is_kept()
    ensures { LentIsKept }
{}

/// An index at which nothing is live is in no open loan.
pub fn nothing_removed_is_lent()
    ensures { NothingRemovedIsLent }
{}

/// The number of live borrow handles of a task rises by one where one is lowered for it, falls by one where one of them is
/// dropped, and changes by nothing else.
pub fn borrows_rise_and_fall_by_one()
    ensures { BorrowsChange }
{}

/// What is lowered is a handle of the resource, the representation and the task that were given, and stays one until it is
/// lifted as own or dropped.
pub fn handles_stay_as_lowered()
    ensures lowered { LoweredIsAsGiven }
    ensures stays { HandlesStay }
{}

/// What is lifted, lent or dropped is a handle of the resource that was asked for, and own where it is lifted as own.
pub fn what_is_taken_is_as_asked()
    ensures { TakenIsAsAsked }
{}

/// A new table comes of no call.
pub fn a_new_table_comes_of_no_call<E: Entry>()
    ensures { ComesOf [] (shown E.view no_slots) }
{}

/// Entries of other kinds come and go, and are written over, beside the handles.
pub fn other_entries_come_and_go<E: Entry>()
    ensures { OthersComeAndGo E.view }
{}
