//! Handles that are lowered.

ghost use Rattle.std.specs.Prelude.{◌≡◌, ◌≤◌, true, false, List, ◌∷◌, Ok, MatchResult, OnOk, IfOk};
ghost use Rattle.handle_table.specs.Calls.{Added};
ghost use Rattle.handle_table.specs.History.{Event, Add, next_index, most_live};
ghost use Rattle.handle_table.specs.Slots.{StandsFor};
ghost use Rattle.res_handles.specs.Calls.{own_handle, borrow_handle, is_defined, shown, NotLowered};
ghost use Rattle.res_handles.specs.Runs.{Call, LowersOwn, LowersBorrow, ComesOf};

use crate::entry::Entry;
use crate::handle::Handle;
use crate::home::Home;
use crate::refusal::LowerError;
use handle_table::{AddError, Table};

/// Lowers an own handle of a resource: a new entry, whose index is answered.
///
/// # Errors
///
/// `TableFull` exactly where 65,535 entries are live, and `Memory` for want of memory, which does not come where room for one
/// more is reserved. The table has the entries that it had.
pub fn lower_own<E: Entry + Drop>(
    table: &mut Table<E>,
    resource: u32,
    rep: u32,
) -> Result<u32, LowerError>
    ensures exact { MatchResult result (λ i. Added table.old (E.made (own_handle resource rep)) i table.new) (λ e. NotLowered table.old e table.new) }
    ensures limit { IfOk result (λ i. (1 ≤ i) × (i ≤ most_live)) }
    ensures stands { (h : List (Event E)) → StandsFor h table.old.slots → IfOk result (λ i. (i ≡ next_index h) × StandsFor (Add (next_index h) (E.made (own_handle resource rep)) ∷ h) table.new.slots) }
    ensures run { OnOk result ((r : List Call) → ComesOf r (shown E.view table.old.slots) → ComesOf (LowersOwn resource rep ∷ r) (shown E.view table.new.slots)) }
{
    add(table, E::of_handle(Handle::own(resource, rep)))
}

/// Lowers a borrow of a resource. In an instance that defines the resource it is the representation itself, and the table stays as
/// it is. Elsewhere it is a new borrow handle, which counts for the task of `home`, and its index is answered.
///
/// # Errors
///
/// In an instance that defines the resource none. Elsewhere `TableFull` exactly where 65,535 entries are live, and `Memory` for
/// want of memory, which does not come where room for one more is reserved. The table has the entries that it had.
pub fn lower_borrow<E: Entry + Drop>(
    table: &mut Table<E>,
    resource: u32,
    rep: u32,
    home: &Home<'_>,
) -> Result<u32, LowerError>
    ensures at_home { is_defined resource home.now.resources.now ≡ true → (result ≡ Ok rep) × (table.new ≡ table.old) }
    ensures exact { is_defined resource home.now.resources.now ≡ false → MatchResult result (λ i. Added table.old (E.made (borrow_handle resource rep home.now.task)) i table.new) (λ e. NotLowered table.old e table.new) }
    ensures limit { is_defined resource home.now.resources.now ≡ false → IfOk result (λ i. (1 ≤ i) × (i ≤ most_live)) }
    ensures stands { is_defined resource home.now.resources.now ≡ false → (h : List (Event E)) → StandsFor h table.old.slots → IfOk result (λ i. (i ≡ next_index h) × StandsFor (Add (next_index h) (E.made (borrow_handle resource rep home.now.task)) ∷ h) table.new.slots) }
    ensures run { is_defined resource home.now.resources.now ≡ false → OnOk result ((r : List Call) → ComesOf r (shown E.view table.old.slots) → ComesOf (LowersBorrow resource rep home.now.task ∷ r) (shown E.view table.new.slots)) }
{
    if home.defines(resource) {
        return Ok(rep);
    }
    add(
        table,
        E::of_handle(Handle::borrow(resource, rep, home.task)),
    )
}

/// Adds an entry.
pub(crate) fn add<E: Drop>(table: &mut Table<E>, entry: E) -> Result<u32, LowerError>
    ensures exact { MatchResult result (λ i. Added table.old entry i table.new) (λ e. NotLowered table.old e table.new) }
    ensures limit { IfOk result (λ i. (1 ≤ i) × (i ≤ most_live)) }
    ensures stands { (h : List (Event E)) → StandsFor h table.old.slots → IfOk result (λ i. (i ≡ next_index h) × StandsFor (Add (next_index h) entry ∷ h) table.new.slots) }
{
    match table.add(entry) {
        Ok(index) => Ok(index),
        Err(AddError::Full(_)) => Err(LowerError::TableFull),
        Err(AddError::Memory(_)) => Err(LowerError::Memory),
    }
}
