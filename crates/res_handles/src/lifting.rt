//! Handles that are lifted, lent, dropped and read.

ghost use Rattle.std.specs.Prelude.{◌≡◌, ◌+◌, ◌-◌, ◌<◌, ◌≤◌, ◌^◌, List, ◌∷◌, Some, IsSome, MatchResult, OnOk};
ghost use Rattle.handle_table.specs.History.{Event, Remove};
ghost use Rattle.handle_table.specs.Laws.{with_changed};
ghost use Rattle.handle_table.specs.Lends.{with_write};
ghost use Rattle.handle_table.specs.Slots.{entry_at, removed, StandsFor};
ghost use Rattle.res_handles.specs.Refusals.{handle_in, own_in, dropped_in, rep_of};
ghost use Rattle.res_handles.specs.Calls.{with_lends, lends_in, view_at, shown, lent, given_back};
ghost use Rattle.res_handles.specs.Runs.{Call, LiftsOwn, LiftsBorrow, Drops, EndsLend, ComesOf};
ghost use Rattle.res_handles.specs.declared.handle.Handle as handles;
ghost use Rattle.res_handles.specs.declared.entry.EntryView.TheVariants as seen;

use crate::entry::{Entry, EntryView};
use crate::handle::Handle;
use crate::refusal::Refusal;
use handle_table::Table;

/// Lifts an own handle of a resource: it leaves the table, and its representation is answered. This takes no memory.
///
/// # Errors
///
/// `Absent`, `OtherKind`, `OtherType`, `NotOwn` and `Lent`, tested in this order. The table is as it was.
pub fn lift_own<E: Entry + Drop>(
    table: &mut Table<E>,
    index: u32,
    resource: u32,
) -> Result<u32, Refusal>
    ensures value { result ≡ rep_of (own_in (view_at E.view table.old.slots index) resource) }
    ensures exact { MatchResult result (λ _. table.new.slots ≡ removed index table.old.slots) (λ _. table.new ≡ table.old) }
    ensures spare { OnOk result (table.old.spare + 1 ≤ table.new.spare) }
    ensures stands { OnOk result ((h : List (Event E)) → StandsFor h table.old.slots → StandsFor (Remove index ∷ h) table.new.slots) }
    ensures run { OnOk result ((r : List Call) → ComesOf r (shown E.view table.old.slots) → ComesOf (LiftsOwn index resource ∷ r) (shown E.view table.new.slots)) }
{
    let handle = owned(table, index, resource)?;
    table.remove(index);
    Ok(handle.rep)
}

/// Lifts a borrow of a handle of a resource: the handle is lent once more, and its representation is answered. This takes no
/// memory. The caller ends the loan by `end_lend`, when the resolution of the subtask is delivered.
///
/// # Errors
///
/// `Absent`, `OtherKind` and `OtherType`, tested in this order. The table is as it was.
pub fn lift_borrow<E: Entry + Drop>(
    table: &mut Table<E>,
    index: u32,
    resource: u32,
) -> Result<u32, Refusal>
    requires { lends_in (view_at E.view table.old.slots index) + 1 < 2 ^ 64 }
    ensures value { result ≡ rep_of (handle_in (view_at E.view table.old.slots index) resource) }
    ensures exact { MatchResult result (λ _. table.new.slots ≡ lent E.view E.made index table.old.slots) (λ _. table.new ≡ table.old) }
    ensures spare { table.new.spare ≡ table.old.spare }
    ensures stands { OnOk result ((h : List (Event E)) (x : handles.Handle) → view_at E.view table.old.slots index ≡ Some (seen.Handle x) → StandsFor h table.old.slots → StandsFor (with_changed index (E.made (with_lends (x.lends + 1) x)) h) table.new.slots) }
    ensures run { OnOk result ((r : List Call) → ComesOf r (shown E.view table.old.slots) → ComesOf (LiftsBorrow index resource ∷ r) (shown E.view table.new.slots)) }
{
    let handle = found(table, index, resource)?;
    relend(table, index, handle.with_lends(handle.lends + 1));
    Ok(handle.rep)
}

/// Ends a loan of the handle at an index. This takes no memory.
pub fn end_lend<E: Entry + Drop>(table: &mut Table<E>, index: u32)
    requires { 1 ≤ lends_in (view_at E.view table.old.slots index) }
    ensures exact { table.new.slots ≡ given_back E.view E.made index table.old.slots }
    ensures spare { table.new.spare ≡ table.old.spare }
    ensures stands { (h : List (Event E)) (x : handles.Handle) → view_at E.view table.old.slots index ≡ Some (seen.Handle x) → StandsFor h table.old.slots → StandsFor (with_changed index (E.made (with_lends (x.lends - 1) x)) h) table.new.slots }
    ensures run { (r : List Call) → ComesOf r (shown E.view table.old.slots) → ComesOf (EndsLend index ∷ r) (shown E.view table.new.slots) }
{
    let Some(EntryView::Handle(handle)) = seen(table, index) else {
        unreachable!()
    };
    relend(table, index, handle.with_lends(handle.lends - 1));
}

/// Drops a handle of a resource: it leaves the table, and is answered. This takes no memory.
///
/// # Errors
///
/// `Absent`, `OtherKind`, `OtherType` and `Lent`, tested in this order. The table is as it was.
pub fn drop_handle<E: Entry + Drop>(
    table: &mut Table<E>,
    index: u32,
    resource: u32,
) -> Result<Handle, Refusal>
    ensures value { result ≡ dropped_in (view_at E.view table.old.slots index) resource }
    ensures exact { MatchResult result (λ _. table.new.slots ≡ removed index table.old.slots) (λ _. table.new ≡ table.old) }
    ensures spare { OnOk result (table.old.spare + 1 ≤ table.new.spare) }
    ensures stands { OnOk result ((h : List (Event E)) → StandsFor h table.old.slots → StandsFor (Remove index ∷ h) table.new.slots) }
    ensures run { OnOk result ((r : List Call) → ComesOf r (shown E.view table.old.slots) → ComesOf (Drops index resource ∷ r) (shown E.view table.new.slots)) }
{
    let handle = unlent(table, index, resource)?;
    table.remove(index);
    Ok(handle)
}

/// The representation of a handle of a resource. This takes no memory.
///
/// # Errors
///
/// `Absent`, `OtherKind` and `OtherType`, tested in this order.
pub fn rep<E: Entry + Drop>(table: &Table<E>, index: u32, resource: u32) -> Result<u32, Refusal>
    ensures value { result ≡ rep_of (handle_in (view_at E.view table.now.slots index) resource) }
{
    let handle = found(table, index, resource)?;
    Ok(handle.rep)
}

/// What the entry at an index is, if one is live.
fn seen<E: Entry + Drop>(table: &Table<E>, index: u32) -> Option<EntryView>
    ensures { result ≡ view_at E.view table.now.slots index }
{
    match table.get(index) {
        Some(entry) => Some(entry.view()),
        None => None,
    }
}

/// The handle of a resource at an index.
fn found<E: Entry + Drop>(table: &Table<E>, index: u32, resource: u32) -> Result<Handle, Refusal>
    ensures { result ≡ handle_in (view_at E.view table.now.slots index) resource }
{
    match seen(table, index) {
        None => Err(Refusal::Absent),
        Some(EntryView::ReadableEnd(_) | EntryView::Other) => Err(Refusal::OtherKind),
        Some(EntryView::Handle(handle)) => handle.if_of(resource),
    }
}

/// The own handle of a resource at an index, of which nothing is lent.
fn owned<E: Entry + Drop>(table: &Table<E>, index: u32, resource: u32) -> Result<Handle, Refusal>
    ensures { result ≡ own_in (view_at E.view table.now.slots index) resource }
{
    let handle = found(table, index, resource)?;
    handle.if_owned()
}

/// The handle of a resource at an index, of which nothing is lent.
fn unlent<E: Entry + Drop>(table: &Table<E>, index: u32, resource: u32) -> Result<Handle, Refusal>
    ensures { result ≡ dropped_in (view_at E.view table.now.slots index) resource }
{
    let handle = found(table, index, resource)?;
    handle.if_unlent()
}

/// Puts a handle in the place of the one at an index.
fn relend<E: Entry + Drop>(table: &mut Table<E>, index: u32, handle: Handle)
    requires { IsSome (entry_at table.old.slots index) }
    ensures { table.new ≡ with_write table.old index (E.made handle) }
{
    let Some(entry) = table.get_mut(index) else {
        unreachable!()
    };
    *entry = E::of_handle(handle);
}
