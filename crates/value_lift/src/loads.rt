//! Values of a memory at a place that is tested, over any ledger; and integers.

ghost use Rattle.std.specs.Prelude.{◌≡◌, IsTrue};
ghost use Rattle.value_lift.specs.Ledger.{MayTake};
ghost use Rattle.value_lift.specs.Over.{load_by, load_list_by};
ghost use Rattle.value_lift.specs.Lifting.{load, is_integer};
ghost use Rattle.value_lift.specs.declared.counting.LiftOf.TheVariants as whole;

use crate::bytes::is_inside;
use crate::ledger::Ledger;
use crate::lifting::{elements_of, value_at};
use crate::plain::plain_at;
use crate::trap::{LiftError, LiftTrap, LiftWhy};
use laid_types::{NumberedType, align, size};
use std::alloc::Global;
use syntax_trees::{Seq, ValType, Value, Values};

/// The value of a type at a place of a memory.
pub(crate) fn load_by<L: Ledger>(
    alloc: Global,
    memory: &[u8],
    ledger: &mut L,
    place: u32,
    t: &NumberedType<'_>,
) -> Result<Value, LiftError>
    requires { L.knows t.now.types }
    ensures { MayTake (L.ledger t.now.types) (load_by (L.ledger t.now.types) t.now.val_type memory.now place (L.kept ledger.old)) (L.kept ledger.new) result }
{
    let laid = t.laid();
    if place % laid.align() != 0 {
        return Err(LiftTrap::at(LiftWhy::Misaligned, u64::from(place)).into());
    }
    if !is_inside(memory, place, laid.size()) {
        return Err(LiftTrap::at(LiftWhy::Bounds, u64::from(place)).into());
    }
    value_at(alloc, memory, ledger, place as usize, t)
}

/// So many values of a type, one after the other from a place of a memory on.
pub(crate) fn load_list_by<L: Ledger>(
    alloc: Global,
    memory: &[u8],
    ledger: &mut L,
    place: u32,
    count: u32,
    t: &NumberedType<'_>,
) -> Result<Values, LiftError>
    requires { L.knows t.now.types }
    ensures { MayTake (L.ledger t.now.types) (load_list_by (L.ledger t.now.types) t.now.val_type memory.now place count (L.kept ledger.old)) (L.kept ledger.new) result }
{
    if count == 0 {
        return Ok(Seq::new(alloc));
    }
    elements_of(alloc, memory, ledger, place, count, u64::from(place), t)
}

/// The integer of a type at a place of a memory. It takes no memory.
///
/// # Errors
///
/// `Misaligned` where the place is no multiple of the integer's width, then `Bounds` where it does not end inside.
pub fn load_int(memory: &[u8], place: u32, t: &ValType) -> Result<Value, LiftTrap>
    requires { IsTrue (is_integer t.now) }
    ensures { result ≡ load whole.Value t.now memory.now place }
{
    if place % align(t) != 0 {
        return Err(LiftTrap::at(LiftWhy::Misaligned, u64::from(place)));
    }
    if !is_inside(memory, place, size(t)) {
        return Err(LiftTrap::at(LiftWhy::Bounds, u64::from(place)));
    }
    plain_at(memory, place as usize, t)
}
