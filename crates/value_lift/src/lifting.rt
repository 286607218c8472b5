//! Values with parts, from a memory.

ghost use Rattle.std.specs.Prelude.{◌≡◌, ◌+◌, ◌*◌, ◌≤◌, [], length, None};
ghost use Rattle.syntax_trees.specs.declared.types.ValType.{out-ValType};
ghost use Rattle.laid_types.specs.Layout.{laid};
ghost use Rattle.laid_types.specs.Parts.{parts_of, case_count};
ghost use Rattle.value_lift.specs.Ledger.{MayTake, made, reached};
ghost use Rattle.value_lift.specs.Named.{named_in, what_named, value_named};
ghost use Rattle.value_lift.specs.Over.{elements_from, elements_of, list_of, lift, lift_case, layer_of, part, parts, fields_from, case_of};
ghost use Rattle.value_lift.specs.Room.{end_behind, HasCaseRoom};

use crate::bytes::{is_inside, number_of, number32};
use crate::ledger::Ledger;
use crate::named::Named;
use crate::plain::{flags_of, plain_at};
use crate::texts::string_of;
use crate::trap::{LiftError, LiftTrap, LiftWhy};
use laid_types::NumberedType;
use layouts::aligned;
use std::alloc::Global;
use syntax_trees::{Boxed, Seq, ValType, Value, Values};

/// The value that an index tells.
pub(crate) fn value_by<L: Ledger>(
    ledger: &mut L,
    named: Named,
    index: u32,
    place: u64,
    t: &NumberedType<'_>,
) -> Result<Value, LiftError>
    requires { L.knows t.now.types }
    ensures { MayTake (L.ledger t.now.types) (made (value_named named) (reached (L.ledger t.now.types) (what_named named t.now.val_type) index place (L.kept ledger.old))) (L.kept ledger.new) result }
{
    let number = ledger.take(named, index, place, t)?;
    Ok(named.value(number))
}

/// So many elements, one after the other from a place on.
#[cycle(lifting)]
fn elements_from<L: Ledger>(
    alloc: Global,
    memory: &[u8],
    ledger: &mut L,
    start: usize,
    count: u32,
    element: &NumberedType<'_>,
) -> Result<Values, LiftError>
    requires known { L.knows element.now.types }
    requires room { start + count * (laid element.now.val_type).size ≤ length memory.now }
    ensures { MayTake (L.ledger element.now.types) (elements_from (L.ledger element.now.types) (part (L.ledger element.now.types) element.now.val_type) memory.now [] count start (L.kept ledger.old)) (L.kept ledger.new) result }
{
    let laid = element.laid();
    let mut values = Seq::new(alloc);
    let mut at = start;
    for _index in 0..count {
        let value = value_at(alloc, memory, ledger, at, element)?;
        values.push(value)?;
        at += laid.size() as usize;
    }
    Ok(values)
}

/// So many elements from a place of the memory on, where their place and number stand at another place.
#[cycle(lifting)]
pub(crate) fn elements_of<L: Ledger>(
    alloc: Global,
    memory: &[u8],
    ledger: &mut L,
    at: u32,
    count: u32,
    place: u64,
    element: &NumberedType<'_>,
) -> Result<Values, LiftError>
    requires { L.knows element.now.types }
    ensures { MayTake (L.ledger element.now.types) (elements_of (L.ledger element.now.types) (part (L.ledger element.now.types) element.now.val_type) at count memory.now place (L.kept ledger.old)) (L.kept ledger.new) result }
{
    let laid = element.laid();
    if at % laid.align() != 0 {
        return Err(LiftTrap::at(LiftWhy::Misaligned, place).into());
    }
    if !is_inside(memory, at, u128::from(count) * laid.size()) {
        return Err(LiftTrap::at(LiftWhy::Bounds, place).into());
    }
    elements_from(alloc, memory, ledger, at as usize, count, element)
}

/// The parts of a record, one after the other from its place on.
#[cycle(lifting)]
#[tactic(auto, using(crate::proofs::Steps::fields_end))]
fn fields_at<L: Ledger>(
    alloc: Global,
    memory: &[u8],
    ledger: &mut L,
    place: usize,
    t: &NumberedType<'_>,
) -> Result<Values, LiftError>
    requires known { L.knows t.now.types }
    requires room { place + end_behind 0 (parts_of t.now.val_type) ≤ length memory.now }
    ensures { MayTake (L.ledger t.now.types) (fields_from (L.ledger t.now.types) memory.now place [] 0 (parts (L.ledger t.now.types) (parts_of t.now.val_type)) (L.kept ledger.old)) (L.kept ledger.new) result }
{
    let count = t.laid().part_count();
    let mut values = Seq::new(alloc);
    let mut end = 0;
    for at in 0..count {
        let Some(part) = t.part(at) else {
            continue;
        };
        let laid = part.laid();
        let start = aligned(end as u128, laid.align()) as usize;
        let value = value_at(alloc, memory, ledger, place + start, &part)?;
        values.push(value)?;
        end = start + laid.size() as usize;
    }
    Ok(values)
}

/// One of the cases of a type, by the number at a place, with its payload where it has one.
#[cycle(lifting)]
fn case_at<L: Ledger>(
    alloc: Global,
    memory: &[u8],
    ledger: &mut L,
    place: usize,
    t: &NumberedType<'_>,
) -> Result<Value, LiftError>
    requires known { L.knows t.now.types }
    requires room { HasCaseRoom t.now.val_type place memory.now }
    ensures { MayTake (L.ledger t.now.types) (case_of (L.ledger t.now.types) (case_count t.now.val_type) (parts (L.ledger t.now.types) (parts_of t.now.val_type)) memory.now place (L.kept ledger.old)) (L.kept ledger.new) result }
{
    let laid = t.laid();
    let case = number_of(memory, place, laid.tag_size());
    if case as usize >= laid.case_count() {
        return Err(LiftTrap::at(LiftWhy::BadCase, place as u64).into());
    }
    let Some(part) = t.part(case as usize) else {
        return Ok(Value::Variant(case, None));
    };
    let behind = place + laid.payload_place() as usize;
    let payload = value_at(alloc, memory, ledger, behind, &part)?;
    Ok(Value::Variant(case, Some(Boxed::new(alloc, payload)?)))
}

/// The elements of a list of this type, where their place and number stand at another place.
#[cycle(lifting)]
pub(crate) fn list_of<L: Ledger>(
    alloc: Global,
    memory: &[u8],
    ledger: &mut L,
    at: u32,
    count: u32,
    place: u64,
    t: &NumberedType<'_>,
) -> Result<Value, LiftError>
    requires { L.knows t.now.types }
    ensures { MayTake (L.ledger t.now.types) (list_of (L.ledger t.now.types) (parts (L.ledger t.now.types) (parts_of t.now.val_type)) at count memory.now place (L.kept ledger.old)) (L.kept ledger.new) result }
{
    let Some(element) = t.part(0) else {
        return Err(LiftTrap::at(LiftWhy::BadCase, place).into());
    };
    let elements = elements_of(alloc, memory, ledger, at, count, place, &element)?;
    Ok(Value::List(elements))
}

/// The value of a type at a place, all bytes of which are inside. It is told by no index, and counted already.
#[cycle(lifting)]
fn counted_at<L: Ledger>(
    alloc: Global,
    memory: &[u8],
    ledger: &mut L,
    place: usize,
    t: &NumberedType<'_>,
) -> Result<Value, LiftError>
    requires known { L.knows t.now.types }
    requires told { named_in (out-ValType t.now.val_type) ≡ None }
    requires room { place + (laid t.now.val_type).size ≤ length memory.now }
    ensures { MayTake (L.ledger t.now.types) (lift_case (L.ledger t.now.types) (layer_of (L.ledger t.now.types) t.now.val_type) memory.now place (L.kept ledger.old)) (L.kept ledger.new) result }
{
    let laid = t.laid();
    match laid.val_type() {
        ValType::String => {
            let at = number32(memory, place);
            let length = number32(memory, place + 4);
            string_of(alloc, memory, ledger, at, length, place as u64)
        }
        ValType::List(_) => {
            let at = number32(memory, place);
            let count = number32(memory, place + 4);
            list_of(alloc, memory, ledger, at, count, place as u64, t)
        }
        ValType::Record(_) | ValType::Tuple(_) => {
            Ok(Value::Record(fields_at(alloc, memory, ledger, place, t)?))
        }
        ValType::Variant(_) | ValType::Enum(_) | ValType::Option(_) | ValType::Result { .. } =>
            case_at(alloc, memory, ledger, place, t),
        ValType::Flags(labels) => {
            let bits = number_of(memory, place, laid.align());
            Ok(flags_of(alloc, labels.as_slice(), bits)?)
        }
        val_type => Ok(plain_at(memory, place, val_type)?),
    }
}

/// The value of a type at a place, all bytes of which are inside.
#[cycle(lifting)]
pub(crate) fn value_at<L: Ledger>(
    alloc: Global,
    memory: &[u8],
    ledger: &mut L,
    place: usize,
    t: &NumberedType<'_>,
) -> Result<Value, LiftError>
    requires known { L.knows t.now.types }
    requires room { place + (laid t.now.val_type).size ≤ length memory.now }
    ensures { MayTake (L.ledger t.now.types) (lift (L.ledger t.now.types) t.now.val_type memory.now place (L.kept ledger.old)) (L.kept ledger.new) result }
{
    let laid = t.laid();
    let Some(named) = Named::of(laid.val_type()) else {
        ledger.count(1, place as u64)?;
        return counted_at(alloc, memory, ledger, place, t);
    };
    value_by(ledger, named, number32(memory, place), place as u64, t)
}
