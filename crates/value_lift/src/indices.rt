//! Indices of a table of handles that are lifted.

ghost use Rattle.std.specs.Prelude.{◌≡◌, ◌+◌, ◌<◌, ◌^◌, ℕ, List, Bool, MatchResult};
ghost use Rattle.handle_table.specs.Slots.{removed};
ghost use Rattle.laid_types.specs.SameTypes.{AreDistinct};
ghost use Rattle.res_handles.specs.Calls.{lends_in, view_at};
ghost use Rattle.res_handles.specs.Ends.{end_in};
ghost use Rattle.res_handles.specs.Refusals.{handle_in, own_in};
ghost use Rattle.value_lift.specs.declared.moved.Moved.{Moved};
ghost use Rattle.value_lift.specs.Ledger.{AnOwn, ABorrow, AnEnd};
ghost use Rattle.value_lift.specs.Tables.{at_first, taken_own, taken_borrow, taken_end, is_end_at, Moves, FewLends};

use crate::moved::Moved;
use crate::trap::{LiftError, LiftTrap, LiftWhy};
use handle_table::Table;
use laid_types::NumberedType;
use res_handles::{Entry, Refusal, lift_borrow, lift_end, lift_own};
use syntax_trees::Seq;

/// Lifts an own handle of a resource: it leaves the table.
pub(crate) fn own_at<E: Entry + Drop>(
    handles: &mut Table<E>,
    index: u32,
    place: u64,
    resource: u32,
) -> Result<u32, LiftError>
    ensures moves { (left : ℕ) (moved : List Moved) → Moves (taken_own (own_in (view_at E.view handles.old.slots index) resource) (record { what = AnOwn resource; index = index; place = place }) (at_first left handles.old.slots moved)) (at_first left handles.new.slots moved) result }
    ensures lends { (n : ℕ) → FewLends E.view (n + 1) handles.old.slots → FewLends E.view n handles.new.slots }
{
    match lift_own(handles, index, resource) {
        Ok(rep) => Ok(rep),
        Err(why) => Err(LiftTrap::at(LiftWhy::Refused(why), place).into()),
    }
}

/// Lends a handle of a resource.
pub(crate) fn borrow_at<E: Entry + Drop>(
    handles: &mut Table<E>,
    moved: &mut Seq<Moved>,
    index: u32,
    place: u64,
    resource: u32,
) -> Result<u32, LiftError>
    requires { lends_in (view_at E.view handles.old.slots index) + 1 < 2 ^ 64 }
    ensures moves { (left : ℕ) → Moves (taken_borrow E.view E.made (handle_in (view_at E.view handles.old.slots index) resource) (record { what = ABorrow resource; index = index; place = place }) (at_first left handles.old.slots moved.old)) (at_first left handles.new.slots moved.new) result }
    ensures lends { (n : ℕ) → FewLends E.view (n + 1) handles.old.slots → FewLends E.view n handles.new.slots }
{
    match lift_borrow(handles, index, resource) {
        Ok(rep) => {
            moved.push(Moved::Lent(index))?;
            Ok(rep)
        }
        Err(why) => Err(LiftTrap::at(LiftWhy::Refused(why), place).into()),
    }
}

/// Lifts the readable end of a type, which is told by its number.
fn numbered_end<E: Entry<EndType = usize> + Drop>(
    handles: &mut Table<E>,
    index: u32,
    t: &NumberedType<'_>,
) -> Result<u32, Refusal>
    requires { AreDistinct t.now.types }
    ensures value { result ≡ end_in (view_at E.view handles.old.slots index) (is_end_at E.end_type t.now.types handles.old.slots index t.now.val_type) }
    ensures exact { MatchResult result (λ _. handles.new.slots ≡ removed index handles.old.slots) (λ _. handles.new ≡ handles.old) }
{
    let number = t.number();
    lift_end(handles, index, &number)
}

/// Lifts the readable end of a type: it leaves the table.
pub(crate) fn end_at<E: Entry<EndType = usize> + Drop>(
    handles: &mut Table<E>,
    moved: &mut Seq<Moved>,
    index: u32,
    place: u64,
    t: &NumberedType<'_>,
) -> Result<u32, LiftError>
    requires { AreDistinct t.now.types }
    ensures moves { (left : ℕ) → Moves (taken_end (end_in (view_at E.view handles.old.slots index) (is_end_at E.end_type t.now.types handles.old.slots index t.now.val_type)) (record { what = AnEnd t.now.val_type; index = index; place = place }) (at_first left handles.old.slots moved.old)) (at_first left handles.new.slots moved.new) result }
    ensures lends { (n : ℕ) → FewLends E.view (n + 1) handles.old.slots → FewLends E.view n handles.new.slots }
{
    match numbered_end(handles, index, t) {
        Ok(number) => {
            moved.push(Moved::Taken(index))?;
            Ok(number)
        }
        Err(why) => Err(LiftTrap::at(LiftWhy::Refused(why), place).into()),
    }
}
