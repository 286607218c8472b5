//! Values into core values.

ghost use Rattle.std.specs.Prelude.{◌≡◌, ◌≤◌, ◌++◌, ◌∷◌, [], ℕ, List, true, length, map, Some, OnOk};
ghost use Rattle.std.specs.Option.{option_map};
ghost use Rattle.syntax_trees.specs.declared.types.ValType.{ValType};
ghost use Rattle.syntax_trees.specs.Fits.{fits};
ghost use Rattle.syntax_trees.specs.Flat.{flat};
ghost use Rattle.laid_types.specs.Parts.{part_at, parts_of};
ghost use Rattle.value_lower.specs.Plan.{Plan};
ghost use Rattle.value_lower.specs.Following.{Runs, Comes, rooms_of};
ghost use Rattle.value_lower.specs.Storing.{text_in, list_in, field_words, payload_words, case_words, filled};
ghost use Rattle.value_lower.specs.Entering.{lowered, layer_of, flat_words, words_case, index_word, flat_lowered};
ghost use Rattle.value_lower.specs.Entries.{new_of};
ghost use Rattle.value_lower.specs.Fitting.{AllFit, EachFits, PayloadFits, FewParts};

use crate::asking::text_in;
use crate::beside::Beside;
use crate::ends::LowerError;
use crate::new_entry::NewEntry;
use crate::plain::{flags_number, plain_word};
use crate::storing::list_in;
use laid_types::NumberedType;
use res_handles::Home;
use std::alloc::{AllocError, Global};
use syntax_trees::{Boxed, Seq, Value};

/// Core values: one of 32 bits is below 2^32.
pub type Words = Seq<u64>;

/// Puts zeros behind core values, until there are so many behind so many others.
fn fill(words: &mut Words, others: usize, count: usize) -> Result<(), AllocError>
    ensures { OnOk result (words.new ≡ filled count others words.old) }
{
    let there = words.len().saturating_sub(others);
    for _index in there..count {
        words.push(0)?;
    }
    Ok(())
}

/// Stores a text at a new place, and puts that place and the number of its bytes behind core values.
fn push_text<R, B: Beside<R>>(
    alloc: Global,
    room: &mut R,
    beside: &B,
    words: &mut Words,
    text: &str,
) -> Result<(), LowerError<B::Trap>>
    ensures { (task : ℕ) (types : List ValType) (k : List ℕ → Plan) → Runs (rooms_of B.memory B.answers B.wrote (B.adds task types)) (text_in text.now (λ to. k (words.old ++ to ∷ length text.now ∷ []))) (λ _. k words.new) (B.state room.old beside.now) result (B.state room.new beside.now) }
{
    let place = text_in(alloc, room, beside, text)?;
    words.push(u64::from(place))?;
    words.push(text.len() as u64)?;
    Ok(())
}

/// Enters what is told by an index, and puts the index behind core values.
fn push_index<R, B: Beside<R>>(
    room: &R,
    beside: &mut B,
    home: &Home<'_>,
    words: &mut Words,
    entry: NewEntry,
    t: &NumberedType<'_>,
) -> Result<(), LowerError<B::Trap>>
    ensures { (k : List ℕ → Plan) → Runs (rooms_of B.memory B.answers B.wrote (B.adds home.now.task t.now.types)) (index_word (B.entering home.now.resources.now) (new_of entry t.now.val_type) words.old k) (λ _. k words.new) (B.state room.now beside.old) result (B.state room.now beside.new) }
{
    let index = beside.enter(room, home, entry, t)?;
    words.push(u64::from(index))?;
    Ok(())
}

/// Stores the elements of a list at a new place, and puts that place and their number behind core values.
fn push_list<R, B: Beside<R>>(
    alloc: Global,
    room: &mut R,
    beside: &mut B,
    home: &Home<'_>,
    words: &mut Words,
    values: &[Value],
    t: &NumberedType<'_>,
) -> Result<(), LowerError<B::Trap>>
    requires { (p : _) → part_at t.now.val_type 0 ≡ Some p → AllFit values.now p }
    ensures { (k : List ℕ → Plan) → Runs (rooms_of B.memory B.answers B.wrote (B.adds home.now.task t.now.types)) (list_in (part_at t.now.val_type 0) (map (lowered (B.entering home.now.resources.now)) values.now) (λ to. k (words.old ++ to ∷ length values.now ∷ []))) (λ _. k words.new) (B.state room.old beside.old) result (B.state room.new beside.new) }
{
    let place = list_in(alloc, room, beside, home, values, t)?;
    words.push(u64::from(place))?;
    words.push(values.len() as u64)?;
    Ok(())
}

/// Puts the core values of a record's values behind others.
#[cycle(wording)]
fn push_fields<R, B: Beside<R>>(
    alloc: Global,
    room: &mut R,
    beside: &mut B,
    home: &Home<'_>,
    words: &mut Words,
    values: &[Value],
    t: &NumberedType<'_>,
) -> Result<(), LowerError<B::Trap>>
    requires fit { EachFits values.now t.now.val_type }
    requires few { FewParts t.now.val_type }
    ensures { (k : List ℕ → Plan) → Runs (rooms_of B.memory B.answers B.wrote (B.adds home.now.task t.now.types)) (field_words (parts_of t.now.val_type) (map (lowered (B.entering home.now.resources.now)) values.now) words.old k) (λ _. k words.new) (B.state room.old beside.old) result (B.state room.new beside.new) }
{
    for (index, value) in values.iter().enumerate() {
        let Some(part) = t.part(index) else {
            continue;
        };
        push_value(alloc, room, beside, home, words, value, &part)?;
    }
    Ok(())
}

/// Puts the number of a case and the core values of its payload behind others, and then zeros.
#[cycle(wording)]
fn push_case<R, B: Beside<R>>(
    alloc: Global,
    room: &mut R,
    beside: &mut B,
    home: &Home<'_>,
    words: &mut Words,
    case: u32,
    payload: &Option<Boxed<Value>>,
    t: &NumberedType<'_>,
) -> Result<(), LowerError<B::Trap>>
    requires fit { PayloadFits payload.now t.now.val_type case }
    requires few { FewParts t.now.val_type }
    requires most { length (flat t.now.val_type) ≤ 16 }
    ensures { (k : List ℕ → Plan) → Runs (rooms_of B.memory B.answers B.wrote (B.adds home.now.task t.now.types)) (case_words t.now.val_type case (option_map (lowered (B.entering home.now.resources.now)) payload.now) words.old k) (λ _. k words.new) (B.state room.old beside.old) result (B.state room.new beside.new) }
{
    let laid = t.laid();
    let others = words.len();
    words.push(u64::from(case))?;
    push_payload(alloc, room, beside, home, words, case, payload, t)?;
    fill(words, others, laid.flat().len())?;
    Ok(())
}

/// Puts the core values of a payload behind others, where there is one.
#[cycle(wording)]
fn push_payload<R, B: Beside<R>>(
    alloc: Global,
    room: &mut R,
    beside: &mut B,
    home: &Home<'_>,
    words: &mut Words,
    case: u32,
    payload: &Option<Boxed<Value>>,
    t: &NumberedType<'_>,
) -> Result<(), LowerError<B::Trap>>
    requires fit { PayloadFits payload.now t.now.val_type case }
    requires few { FewParts t.now.val_type }
    ensures { (k : List ℕ → Plan) → Runs (rooms_of B.memory B.answers B.wrote (B.adds home.now.task t.now.types)) (payload_words (part_at t.now.val_type case) (option_map (lowered (B.entering home.now.resources.now)) payload.now) words.old k) (λ _. k words.new) (B.state room.old beside.old) result (B.state room.new beside.new) }
{
    let Some(payload) = payload else {
        return Ok(());
    };
    let Some(part) = t.part(case as usize) else {
        return Ok(());
    };
    push_value(alloc, room, beside, home, words, payload.get(), &part)
}

/// Puts the core values of a value behind others.
#[cycle(wording)]
fn push_layer<R, B: Beside<R>>(
    alloc: Global,
    room: &mut R,
    beside: &mut B,
    home: &Home<'_>,
    words: &mut Words,
    value: &Value,
    t: &NumberedType<'_>,
) -> Result<(), LowerError<B::Trap>>
    requires fits { fits value.now t.now.val_type ≡ true }
    requires most { length (flat t.now.val_type) ≤ 16 }
    ensures { (k : List ℕ → Plan) → Runs (rooms_of B.memory B.answers B.wrote (B.adds home.now.task t.now.types)) (words_case (B.entering home.now.resources.now) (layer_of (B.entering home.now.resources.now) value.now) t.now.val_type words.old k) (λ _. k words.new) (B.state room.old beside.old) result (B.state room.new beside.new) }
{
    match value {
        Value::String(text) => push_text(alloc, room, beside, words, text.as_str()),
        Value::List(values) => push_list(alloc, room, beside, home, words, values.as_slice(), t),
        Value::Record(values) => push_fields(
            alloc,
            room,
            beside,
            home,
            words,
            values.as_slice(),
            t,
        ),
        Value::Variant(case, payload) => push_case(
            alloc, room, beside, home, words, *case, payload, t,
        ),
        Value::Flags(flags) => {
            words.push(u64::from(flags_number(flags.as_slice())))?;
            Ok(())
        }
        Value::Own(handle) => push_index(room, beside, home, words, NewEntry::Own(*handle), t),
        Value::Borrow(handle) => push_index(
            room,
            beside,
            home,
            words,
            NewEntry::Borrow(*handle),
            t,
        ),
        Value::Stream(number) => push_index(room, beside, home, words, NewEntry::End(*number), t),
        Value::Future(number) => push_index(room, beside, home, words, NewEntry::End(*number), t),
        plain => {
            words.push(plain_word(plain))?;
            Ok(())
        }
    }
}

/// Puts the core values of a value behind others.
#[cycle(wording)]
fn push_value<R, B: Beside<R>>(
    alloc: Global,
    room: &mut R,
    beside: &mut B,
    home: &Home<'_>,
    words: &mut Words,
    value: &Value,
    t: &NumberedType<'_>,
) -> Result<(), LowerError<B::Trap>>
    requires fits { fits value.now t.now.val_type ≡ true }
    requires most { length (flat t.now.val_type) ≤ 16 }
    ensures { (k : List ℕ → Plan) → Runs (rooms_of B.memory B.answers B.wrote (B.adds home.now.task t.now.types)) (flat_words (B.entering home.now.resources.now) t.now.val_type value.now words.old k) (λ _. k words.new) (B.state room.old beside.old) result (B.state room.new beside.new) }
{
    push_layer(alloc, room, beside, home, words, value, t)
}

/// The core values that stand for a value, as `lower_flat` answers them, with what stands beside the room.
pub fn lower_flat_by<R, B: Beside<R>>(
    alloc: Global,
    room: &mut R,
    beside: &mut B,
    home: &Home<'_>,
    value: &Value,
    t: &NumberedType<'_>,
) -> Result<Words, LowerError<B::Trap>>
    requires fits { fits value.now t.now.val_type ≡ true }
    requires few { length (flat t.now.val_type) ≤ 16 }
    ensures { Comes (rooms_of B.memory B.answers B.wrote (B.adds home.now.task t.now.types)) (flat_lowered (B.entering home.now.resources.now) t.now.val_type value.now) (λ words. words) (B.state room.old beside.old) result (B.state room.new beside.new) }
{
    let mut words = Seq::new(alloc);
    push_value(alloc, room, beside, home, &mut words, value, t)?;
    Ok(words)
}
