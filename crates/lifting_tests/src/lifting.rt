//! What is lifted, as text.

ghost use Rattle.std.specs.Prelude.{◌≡◌, ◌||◌, ◌≤◌, length, false, true};
ghost use Rattle.syntax_trees.specs.Ends.{has_end};
ghost use Rattle.syntax_trees.specs.Flat.{flat};
ghost use Rattle.laid_types.specs.Handles.{has_handle};
ghost use Rattle.value_lift.specs.Lifting.{is_integer, IsFor};

use faults::MemoryOr;
use laid_types::LaidType;
use std::alloc::Global;
use std::test::Fail;
use syntax_trees::{ValType, Value, Values};
use table_texts::holds;
use type_texts::value_told;
use value_lift::{
    LiftError, LiftOf, LiftTrap, LiftWhy, lift_flat_bare, load_bare, load_int, load_list_bare,
};

/// The text of a value that is let go then.
fn told(alloc: Global, value: Value, val_type: &ValType) -> Result<String, Fail> {
    value_told(alloc, &value, val_type)
}

/// The text of a trap.
fn trap_told(alloc: Global, trap: LiftTrap) -> Result<String, Fail> {
    let place = trap.place;
    if let LiftWhy::Refused(why) = trap.why {
        return Ok(format!(in alloc; "{why:?} at {place}")?);
    }
    let why = trap.why;
    Ok(format!(in alloc; "{why:?} at {place}")?)
}

/// The text of why nothing is lifted. Want of memory fails.
fn error_told(alloc: Global, error: LiftError) -> Result<String, Fail> {
    match error {
        MemoryOr::Memory => Err(Fail::new("memory")),
        MemoryOr::Fault(trap) => trap_told(alloc, trap),
    }
}

/// The text of a value that is lifted, or of why none is.
pub(crate) fn value_or_error(
    alloc: Global,
    lifted: Result<Value, LiftError>,
    val_type: &ValType,
) -> Result<String, Fail> {
    match lifted {
        Ok(value) => told(alloc, value, val_type),
        Err(error) => error_told(alloc, error),
    }
}

/// The text of values that are lifted as those of a type of lists, or of why none are.
pub(crate) fn values_or_error(
    alloc: Global,
    lifted: Result<Values, LiftError>,
    val_type: &ValType,
) -> Result<String, Fail> {
    match lifted {
        Ok(values) => told(alloc, Value::List(values), val_type),
        Err(error) => error_told(alloc, error),
    }
}

/// Whether a type is one of tuples, where arguments are lifted.
pub(crate) fn is_for(what: LiftOf, val_type: &ValType) -> bool
    ensures { result ≡ true → IsFor what val_type.now }
{
    match what {
        LiftOf::Value => true,
        LiftOf::Arguments => matches!(val_type, ValType::Tuple(_)),
    }
}

/// Whether a type is one that may be lifted without handles.
fn may_lift(t: &LaidType<'_>, what: LiftOf) -> bool
    ensures handles { result ≡ true → has_handle t.now ≡ false }
    ensures ends { result ≡ true → has_end t.now ≡ false }
    ensures whole { result ≡ true → IsFor what t.now }
{
    !holds(t) && is_for(what, t.val_type())
}

/// What is loaded from a place.
pub(crate) fn loaded(
    alloc: Global,
    t: &LaidType<'_>,
    memory: &[u8],
    place: u32,
    what: LiftOf,
) -> Result<String, Fail> {
    if !may_lift(t, what) {
        return Err(Fail::new("handles"));
    }
    let lifted = load_bare(alloc, memory, place, t, what);
    value_or_error(alloc, lifted, t.val_type())
}

/// What core values stand for.
pub(crate) fn lifted(
    alloc: Global,
    t: &LaidType<'_>,
    memory: &[u8],
    words: &[u64],
    what: LiftOf,
) -> Result<String, Fail> {
    if !may_lift(t, what) || words.len() > 16 || words.len() != t.flat().len() {
        return Err(Fail::new("words"));
    }
    let lifted = lift_flat_bare(alloc, memory, t, words, what);
    value_or_error(alloc, lifted, t.val_type())
}

/// The elements of a list, so many of which are loaded from a place.
pub(crate) fn elements_loaded(
    alloc: Global,
    t: &LaidType<'_>,
    memory: &[u8],
    place: u32,
    count: u32,
) -> Result<String, Fail> {
    let Some(element) = t.part(0) else {
        return Err(Fail::new("no list"));
    };
    if holds(&element) {
        return Err(Fail::new("handles"));
    }
    let lifted = load_list_bare(alloc, memory, place, count, &element);
    values_or_error(alloc, lifted, t.val_type())
}

/// Whether a type is one of integers.
fn is_integer(val_type: &ValType) -> bool
    ensures { result ≡ is_integer val_type.now }
{
    match val_type {
        ValType::S8 | ValType::U8 | ValType::S16 | ValType::U16 => true,
        ValType::S32 | ValType::U32 | ValType::S64 | ValType::U64 => true,
        _ => false,
    }
}

/// The integer that is loaded from a place.
pub(crate) fn integer_loaded(
    alloc: Global,
    val_type: &ValType,
    memory: &[u8],
    place: u32,
) -> Result<String, Fail> {
    if !is_integer(val_type) {
        return Err(Fail::new("no integer"));
    }
    match load_int(memory, place, val_type) {
        Ok(value) => told(alloc, value, val_type),
        Err(trap) => trap_told(alloc, trap),
    }
}
