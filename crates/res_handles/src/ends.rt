//! Readable ends that are lifted and lowered.

ghost use Rattle.std.specs.Prelude.{◌≡◌, ◌+◌, ◌≤◌, Bool, List, ◌∷◌, MatchResult, OnOk, IfOk};
ghost use Rattle.handle_table.specs.Calls.{Added};
ghost use Rattle.handle_table.specs.History.{Event, Add, Remove, next_index, most_live};
ghost use Rattle.handle_table.specs.Slots.{removed, StandsFor};
ghost use Rattle.res_handles.specs.Calls.{view_at, shown};
ghost use Rattle.res_handles.specs.Ends.{idle_end, end_type_at, end_in, is_of_by, TellsApart, EndAnswer, EndNotLowered};
ghost use Rattle.res_handles.specs.Runs.{Call, AddsOther, RemovesOther, ComesOf};
ghost use Rattle.res_handles.specs.declared.entry.EntryView.TheVariants as seen;

use crate::entry::{Entry, EntryView};
use crate::lowering::add;
use crate::refusal::{LowerError, Refusal};
use handle_table::Table;

/// The greatest number of live entries.
const MOST_LIVE: u32 = 65_535;

/// Lifts the idle readable end of a type: it leaves the table, and the number of its stream or future is answered. This takes no
/// memory. The caller takes the end out of the waitable set that it is in.
///
/// # Errors
///
/// `Absent`, `OtherKind`, `OtherType` and `NotIdle`, tested in this order. The table is as it was.
pub fn lift_end<E: Entry + Drop>(
    table: &mut Table<E>,
    index: u32,
    wanted: &E::EndType,
) -> Result<u32, Refusal>
    ensures value { EndAnswer (view_at E.view table.old.slots index) (end_type_at E.end_type table.old.slots index) wanted.now result }
    ensures told { (same : E.EndType → E.EndType → Bool) → TellsApart same → result ≡ end_in (view_at E.view table.old.slots index) (is_of_by same (end_type_at E.end_type table.old.slots index) wanted.now) }
    ensures exact { MatchResult result (λ _. table.new.slots ≡ removed index table.old.slots) (λ _. table.new ≡ table.old) }
    ensures spare { OnOk result (table.old.spare + 1 ≤ table.new.spare) }
    ensures stands { OnOk result ((h : List (Event E)) → StandsFor h table.old.slots → StandsFor (Remove index ∷ h) table.new.slots) }
    ensures run { OnOk result ((r : List Call) → ComesOf r (shown E.view table.old.slots) → ComesOf (RemovesOther index ∷ r) (shown E.view table.new.slots)) }
{
    let number = idle(table, index, wanted)?;
    table.remove(index);
    Ok(number)
}

/// Lowers the readable end of the stream or the future of a type and a number: a new entry, whose index is answered.
///
/// # Errors
///
/// `TableFull` exactly where 65,535 entries are live, and `Memory` for want of memory, or where no more owners of the type can be
/// counted. The table has the entries that it had.
pub fn lower_end<E: Entry + Drop>(
    table: &mut Table<E>,
    end_type: &E::EndType,
    number: u32,
) -> Result<u32, LowerError>
    ensures exact { MatchResult result (λ i. Added table.old (E.made_end end_type.now number) i table.new) (λ e. EndNotLowered table.old e table.new) }
    ensures limit { IfOk result (λ i. (1 ≤ i) × (i ≤ most_live)) }
    ensures stands { (h : List (Event E)) → StandsFor h table.old.slots → IfOk result (λ i. (i ≡ next_index h) × StandsFor (Add (next_index h) (E.made_end end_type.now number) ∷ h) table.new.slots) }
    ensures run { OnOk result ((r : List Call) → ComesOf r (shown E.view table.old.slots) → ComesOf (AddsOther (seen.ReadableEnd (idle_end number)) ∷ r) (shown E.view table.new.slots)) }
{
    if table.len() == MOST_LIVE {
        return Err(LowerError::TableFull);
    }
    match E::of_end(end_type, number) {
        Ok(entry) => add(table, entry),
        Err(_) => Err(LowerError::Memory),
    }
}

/// The number of the idle readable end of a type at an index.
#[tactic(auto, using(crate::proofs::Standing::end_answered, crate::proofs::Standing::end_told))]
fn idle<E: Entry + Drop>(table: &Table<E>, index: u32, wanted: &E::EndType) -> Result<u32, Refusal>
    ensures value { EndAnswer (view_at E.view table.now.slots index) (end_type_at E.end_type table.now.slots index) wanted.now result }
    ensures told { (same : E.EndType → E.EndType → Bool) → TellsApart same → result ≡ end_in (view_at E.view table.now.slots index) (is_of_by same (end_type_at E.end_type table.now.slots index) wanted.now) }
{
    match table.get(index) {
        None => Err(Refusal::Absent),
        Some(entry) => match entry.view() {
            EntryView::Handle(_) | EntryView::Other => Err(Refusal::OtherKind),
            EntryView::ReadableEnd(end) => end.if_idle(entry.is_of(wanted)),
        },
    }
}
