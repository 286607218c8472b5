//! Values with parts, into a memory.

ghost use Rattle.std.specs.Prelude.{◌≡◌, ◌*◌, ◌≤◌, ◌<◌, ◌^◌, ℕ, List, true, length, map, Some, IfOk};
ghost use Rattle.std.specs.Option.{option_map};
ghost use Rattle.syntax_trees.specs.declared.types.ValType.{ValType};
ghost use Rattle.syntax_trees.specs.Fits.{fits};
ghost use Rattle.laid_types.specs.Layout.{laid};
ghost use Rattle.laid_types.specs.Parts.{part_at, parts_of};
ghost use Rattle.value_lower.specs.Plan.{Plan};
ghost use Rattle.value_lower.specs.Following.{Runs, rooms_of};
ghost use Rattle.value_lower.specs.Storing.{elements_from, text_in, list_in, pointed, fields_from, case_from};
ghost use Rattle.value_lower.specs.Entering.{lowered, layer_of, store, store_case, index_at};
ghost use Rattle.value_lower.specs.Entries.{new_of};
ghost use Rattle.value_lower.specs.Fitting.{HasBytes, HasCaseBytes, end_behind, AllFit, EachFits, PayloadFits};

use crate::asking::{ask, text_in};
use crate::beside::Beside;
use crate::ends::{LowerError, LowerWhy};
use crate::new_entry::NewEntry;
use crate::plain::{flags_number, put_number, put_plain, put_pointed, put32};
use laid_types::NumberedType;
use layouts::aligned;
use res_handles::Home;
use std::alloc::Global;
use syntax_trees::{Boxed, Value};

/// Stores a text at a new place, and that place and the number of its bytes at a place.
fn store_text<R, B: Beside<R>>(
    alloc: Global,
    room: &mut R,
    beside: &B,
    place: u64,
    text: &str,
) -> Result<(), LowerError<B::Trap>>
    requires { HasBytes place 8 (length (B.memory (B.state room.old beside.now))) }
    ensures follows { (task : ℕ) (types : List ValType) (k : Plan) → Runs (rooms_of B.memory B.answers B.wrote (B.adds task types)) (text_in text.now (λ to. pointed place to (length text.now) k)) (λ _. k) (B.state room.old beside.now) result (B.state room.new beside.now) }
    ensures grows { IfOk result (λ _. length (B.memory (B.state room.old beside.now)) ≤ length (B.memory (B.state room.new beside.now))) }
{
    let to = text_in(alloc, room, beside, text)?;
    put_pointed(room, beside, place, to, text.len() as u32);
    Ok(())
}

/// Enters what is told by an index, and stores the index at a place.
fn store_index<R, B: Beside<R>>(
    room: &mut R,
    beside: &mut B,
    home: &Home<'_>,
    place: u64,
    entry: NewEntry,
    t: &NumberedType<'_>,
) -> Result<(), LowerError<B::Trap>>
    requires { HasBytes place 4 (length (B.memory (B.state room.old beside.old))) }
    ensures follows { (k : Plan) → Runs (rooms_of B.memory B.answers B.wrote (B.adds home.now.task t.now.types)) (index_at (B.entering home.now.resources.now) (new_of entry t.now.val_type) place k) (λ _. k) (B.state room.old beside.old) result (B.state room.new beside.new) }
    ensures grows { IfOk result (λ _. length (B.memory (B.state room.old beside.old)) ≤ length (B.memory (B.state room.new beside.new))) }
{
    let index = beside.enter(room, home, entry, t)?;
    put32(room, beside, place, index);
    Ok(())
}

/// Stores values one after the other from a place on.
#[cycle(storing)]
pub(crate) fn store_elements<R, B: Beside<R>>(
    alloc: Global,
    room: &mut R,
    beside: &mut B,
    home: &Home<'_>,
    place: u64,
    values: &[Value],
    t: &NumberedType<'_>,
) -> Result<(), LowerError<B::Trap>>
    requires fit { AllFit values.now t.now.val_type }
    requires bytes { HasBytes place (length values.now * (laid t.now.val_type).size) (length (B.memory (B.state room.old beside.old))) }
    ensures follows { (k : Plan) → Runs (rooms_of B.memory B.answers B.wrote (B.adds home.now.task t.now.types)) (elements_from t.now.val_type place (map (lowered (B.entering home.now.resources.now)) values.now) k) (λ _. k) (B.state room.old beside.old) result (B.state room.new beside.new) }
    ensures grows { IfOk result (λ _. length (B.memory (B.state room.old beside.old)) ≤ length (B.memory (B.state room.new beside.new))) }
{
    let laid = t.laid();
    let mut at = place;
    for value in values {
        store_value(alloc, room, beside, home, at, value, t)?;
        at += laid.size() as u64;
    }
    Ok(())
}

/// Stores the elements of a list at a new place, and answers the place.
#[cycle(storing)]
pub(crate) fn list_in<R, B: Beside<R>>(
    alloc: Global,
    room: &mut R,
    beside: &mut B,
    home: &Home<'_>,
    values: &[Value],
    t: &NumberedType<'_>,
) -> Result<u32, LowerError<B::Trap>>
    requires fit { (p : _) → part_at t.now.val_type 0 ≡ Some p → AllFit values.now p }
    ensures follows { (k : ℕ → Plan) → Runs (rooms_of B.memory B.answers B.wrote (B.adds home.now.task t.now.types)) (list_in (part_at t.now.val_type 0) (map (lowered (B.entering home.now.resources.now)) values.now) k) k (B.state room.old beside.old) result (B.state room.new beside.new) }
    ensures few { IfOk result (λ place. length values.now < 2 ^ 32) }
    ensures grows { IfOk result (λ place. length (B.memory (B.state room.old beside.old)) ≤ length (B.memory (B.state room.new beside.new))) }
{
    let Some(element) = t.part(0) else {
        return Err(LowerError::Failed(LowerWhy::Bounds));
    };
    let laid = element.laid();
    let count = values.len();
    let bytes = count as u128 * laid.size();
    let place = ask(alloc, room, beside, count, laid.align(), bytes)?;
    let at = u64::from(place);
    store_elements(alloc, room, beside, home, at, values, &element)?;
    Ok(place)
}

/// Stores the elements of a list at a new place, and that place and their number at a place.
#[cycle(storing)]
fn store_list<R, B: Beside<R>>(
    alloc: Global,
    room: &mut R,
    beside: &mut B,
    home: &Home<'_>,
    place: u64,
    values: &[Value],
    t: &NumberedType<'_>,
) -> Result<(), LowerError<B::Trap>>
    requires fit { (p : _) → part_at t.now.val_type 0 ≡ Some p → AllFit values.now p }
    requires bytes { HasBytes place 8 (length (B.memory (B.state room.old beside.old))) }
    ensures follows { (k : Plan) → Runs (rooms_of B.memory B.answers B.wrote (B.adds home.now.task t.now.types)) (list_in (part_at t.now.val_type 0) (map (lowered (B.entering home.now.resources.now)) values.now) (λ to. pointed place to (length values.now) k)) (λ _. k) (B.state room.old beside.old) result (B.state room.new beside.new) }
    ensures grows { IfOk result (λ _. length (B.memory (B.state room.old beside.old)) ≤ length (B.memory (B.state room.new beside.new))) }
{
    let to = list_in(alloc, room, beside, home, values, t)?;
    put_pointed(room, beside, place, to, values.len() as u32);
    Ok(())
}

/// Stores the values of a record at a place, each at the next multiple of its alignment.
#[cycle(storing)]
fn store_fields<R, B: Beside<R>>(
    alloc: Global,
    room: &mut R,
    beside: &mut B,
    home: &Home<'_>,
    place: u64,
    values: &[Value],
    t: &NumberedType<'_>,
) -> Result<(), LowerError<B::Trap>>
    requires fit { EachFits values.now t.now.val_type }
    requires bytes { HasBytes place (end_behind 0 (parts_of t.now.val_type)) (length (B.memory (B.state room.old beside.old))) }
    ensures follows { (k : Plan) → Runs (rooms_of B.memory B.answers B.wrote (B.adds home.now.task t.now.types)) (fields_from place 0 (parts_of t.now.val_type) (map (lowered (B.entering home.now.resources.now)) values.now) k) (λ _. k) (B.state room.old beside.old) result (B.state room.new beside.new) }
    ensures grows { IfOk result (λ _. length (B.memory (B.state room.old beside.old)) ≤ length (B.memory (B.state room.new beside.new))) }
{
    let mut end = 0;
    for (index, value) in values.iter().enumerate() {
        let Some(part) = t.part(index) else {
            continue;
        };
        let laid = part.laid();
        let start = aligned(u128::from(end), laid.align()) as u64;
        store_value(alloc, room, beside, home, place + start, value, &part)?;
        end = start + laid.size() as u64;
    }
    Ok(())
}

/// Stores the number of a case at a place, and its payload behind it.
#[cycle(storing)]
fn store_case<R, B: Beside<R>>(
    alloc: Global,
    room: &mut R,
    beside: &mut B,
    home: &Home<'_>,
    place: u64,
    case: u32,
    payload: &Option<Boxed<Value>>,
    t: &NumberedType<'_>,
) -> Result<(), LowerError<B::Trap>>
    requires fit { PayloadFits payload.now t.now.val_type case }
    requires bytes { HasCaseBytes t.now.val_type place (length (B.memory (B.state room.old beside.old))) }
    ensures follows { (k : Plan) → Runs (rooms_of B.memory B.answers B.wrote (B.adds home.now.task t.now.types)) (case_from t.now.val_type case (option_map (lowered (B.entering home.now.resources.now)) payload.now) place k) (λ _. k) (B.state room.old beside.old) result (B.state room.new beside.new) }
    ensures grows { IfOk result (λ _. length (B.memory (B.state room.old beside.old)) ≤ length (B.memory (B.state room.new beside.new))) }
{
    let laid = t.laid();
    put_number(room, beside, place, laid.tag_size(), case);
    let Some(payload) = payload else {
        return Ok(());
    };
    let Some(part) = t.part(case as usize) else {
        return Ok(());
    };
    let behind = place + u64::from(laid.payload_place());
    store_value(alloc, room, beside, home, behind, payload.get(), &part)
}

/// Stores a value at a place, which has all its bytes.
#[cycle(storing)]
fn store_layer<R, B: Beside<R>>(
    alloc: Global,
    room: &mut R,
    beside: &mut B,
    home: &Home<'_>,
    place: u64,
    value: &Value,
    t: &NumberedType<'_>,
) -> Result<(), LowerError<B::Trap>>
    requires fits { fits value.now t.now.val_type ≡ true }
    requires bytes { HasBytes place (laid t.now.val_type).size (length (B.memory (B.state room.old beside.old))) }
    ensures follows { (k : Plan) → Runs (rooms_of B.memory B.answers B.wrote (B.adds home.now.task t.now.types)) (store_case (B.entering home.now.resources.now) (layer_of (B.entering home.now.resources.now) value.now) t.now.val_type place k) (λ _. k) (B.state room.old beside.old) result (B.state room.new beside.new) }
    ensures grows { IfOk result (λ _. length (B.memory (B.state room.old beside.old)) ≤ length (B.memory (B.state room.new beside.new))) }
{
    match value {
        Value::String(text) => store_text(alloc, room, beside, place, text.as_str()),
        Value::List(values) => store_list(alloc, room, beside, home, place, values.as_slice(), t),
        Value::Record(values) => store_fields(
            alloc,
            room,
            beside,
            home,
            place,
            values.as_slice(),
            t,
        ),
        Value::Variant(case, payload) => store_case(
            alloc, room, beside, home, place, *case, payload, t,
        ),
        Value::Flags(flags) => {
            let laid = t.laid();
            let number = flags_number(flags.as_slice());
            put_number(room, beside, place, laid.align(), number);
            Ok(())
        }
        Value::Own(handle) => store_index(room, beside, home, place, NewEntry::Own(*handle), t),
        Value::Borrow(handle) => store_index(
            room,
            beside,
            home,
            place,
            NewEntry::Borrow(*handle),
            t,
        ),
        Value::Stream(number) => store_index(room, beside, home, place, NewEntry::End(*number), t),
        Value::Future(number) => store_index(room, beside, home, place, NewEntry::End(*number), t),
        plain => {
            put_plain(room, beside, place, plain);
            Ok(())
        }
    }
}

/// Stores a value at a place, which has all its bytes.
#[cycle(storing)]
pub(crate) fn store_value<R, B: Beside<R>>(
    alloc: Global,
    room: &mut R,
    beside: &mut B,
    home: &Home<'_>,
    place: u64,
    value: &Value,
    t: &NumberedType<'_>,
) -> Result<(), LowerError<B::Trap>>
    requires fits { fits value.now t.now.val_type ≡ true }
    requires bytes { HasBytes place (laid t.now.val_type).size (length (B.memory (B.state room.old beside.old))) }
    ensures follows { (k : Plan) → Runs (rooms_of B.memory B.answers B.wrote (B.adds home.now.task t.now.types)) (store (B.entering home.now.resources.now) t.now.val_type value.now place k) (λ _. k) (B.state room.old beside.old) result (B.state room.new beside.new) }
    ensures grows { IfOk result (λ _. length (B.memory (B.state room.old beside.old)) ≤ length (B.memory (B.state room.new beside.new))) }
{
    store_layer(alloc, room, beside, home, place, value, t)
}
