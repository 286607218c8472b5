//! Values from core values.

ghost use Rattle.std.specs.Prelude.{◌≡◌, ◌+◌, ◌≤◌, ◌<◌, ◌%◌, ◌^◌, [], length, None};
ghost use Rattle.std.specs.Int.{w32};
ghost use mir.Val.{bits};
ghost use Rattle.syntax_trees.specs.declared.types.ValType.{out-ValType};
ghost use Rattle.syntax_trees.specs.Flat.{flat};
ghost use Rattle.laid_types.specs.Parts.{parts_of, case_count};
ghost use Rattle.value_lift.specs.Ledger.{MayTake};
ghost use Rattle.value_lift.specs.Named.{named_in};
ghost use Rattle.value_lift.specs.Leaves.{plain_of};
ghost use Rattle.value_lift.specs.Over.{low, lift_words, lift_word_case, layer_of, parts, word_fields_from, word_case_of};
ghost use Rattle.value_lift.specs.Room.{words_behind, HasCaseWords};

use crate::ledger::Ledger;
use crate::lifting::{list_of, value_by};
use crate::named::Named;
use crate::plain::{char_of, flags_of};
use crate::texts::string_of;
use crate::trap::{LiftError, LiftTrap, LiftWhy};
use laid_types::NumberedType;
use std::alloc::Global;
use syntax_trees::{Boxed, Handle, Seq, ValType, Value, Values};

/// The low 32 bits of one of some core values.
fn low32(words: &[u64], at: usize) -> u32
    requires { at < length words.now }
    ensures { result ≡ low w32 at words.now }
{
    (words[at] % (1 << 32)) as u32
}

/// The value of a type without parts for which a core value stands. For any other type none does.
fn plain_word(word: u64, at: u64, val_type: &ValType) -> Result<Value, LiftTrap>
    ensures { result ≡ plain_of (out-ValType val_type.now) w32 (λ w. word % 2 ^ bits w) at }
{
    match val_type {
        ValType::Bool => Ok(Value::Bool(word % (1 << 32) != 0)),
        ValType::S8 => Ok(Value::S8(((word % (1 << 8)) as u8).cast_signed())),
        ValType::U8 => Ok(Value::U8((word % (1 << 8)) as u8)),
        ValType::S16 => Ok(Value::S16(((word % (1 << 16)) as u16).cast_signed())),
        ValType::U16 => Ok(Value::U16((word % (1 << 16)) as u16)),
        ValType::S32 => Ok(Value::S32(((word % (1 << 32)) as u32).cast_signed())),
        ValType::U32 => Ok(Value::U32((word % (1 << 32)) as u32)),
        ValType::S64 => Ok(Value::S64(word.cast_signed())),
        ValType::U64 => Ok(Value::U64(word)),
        ValType::Char => char_of((word % (1 << 32)) as u32, at),
        ValType::Own(resource) => Ok(Value::Own(Handle {
            resource: *resource,
            rep: (word % (1 << 32)) as u32,
        })),
        ValType::Borrow(resource) => Ok(Value::Borrow(Handle {
            resource: *resource,
            rep: (word % (1 << 32)) as u32,
        })),
        ValType::Stream(_) => Ok(Value::Stream((word % (1 << 32)) as u32)),
        ValType::Future(_) => Ok(Value::Future((word % (1 << 32)) as u32)),
        _ => Err(LiftTrap::at(LiftWhy::BadCase, at)),
    }
}

/// The parts of a record, one after the other from one of the core values on.
#[cycle(lifting_words)]
#[tactic(auto, using(crate::proofs::Steps::word_fields_end))]
fn word_fields_at<L: Ledger>(
    alloc: Global,
    memory: &[u8],
    ledger: &mut L,
    words: &[u64],
    at: usize,
    t: &NumberedType<'_>,
) -> Result<Values, LiftError>
    requires known { L.knows t.now.types }
    requires few { length words.now ≤ 16 }
    requires room { words_behind at (parts_of t.now.val_type) ≤ length words.now }
    ensures { MayTake (L.ledger t.now.types) (word_fields_from (L.ledger t.now.types) memory.now words.now [] at (parts (L.ledger t.now.types) (parts_of t.now.val_type)) (L.kept ledger.old)) (L.kept ledger.new) result }
{
    let count = t.laid().part_count();
    let mut values = Seq::new(alloc);
    let mut next = at;
    for index in 0..count {
        let Some(part) = t.part(index) else {
            continue;
        };
        let value = word_value_at(alloc, memory, ledger, words, next, &part)?;
        values.push(value)?;
        next += part.laid().flat().len();
    }
    Ok(values)
}

/// One of the cases of a type, by its number, with its payload where it has one.
#[cycle(lifting_words)]
fn word_case_at<L: Ledger>(
    alloc: Global,
    memory: &[u8],
    ledger: &mut L,
    words: &[u64],
    at: usize,
    t: &NumberedType<'_>,
) -> Result<Value, LiftError>
    requires known { L.knows t.now.types }
    requires few { length words.now ≤ 16 }
    requires room { HasCaseWords t.now.val_type at words.now }
    ensures { MayTake (L.ledger t.now.types) (word_case_of (L.ledger t.now.types) (case_count t.now.val_type) (parts (L.ledger t.now.types) (parts_of t.now.val_type)) memory.now words.now at (L.kept ledger.old)) (L.kept ledger.new) result }
{
    let case = low32(words, at);
    if case as usize >= t.laid().case_count() {
        return Err(LiftTrap::at(LiftWhy::BadCase, at as u64).into());
    }
    let Some(part) = t.part(case as usize) else {
        return Ok(Value::Variant(case, None));
    };
    let payload = word_value_at(alloc, memory, ledger, words, at + 1, &part)?;
    Ok(Value::Variant(case, Some(Boxed::new(alloc, payload)?)))
}

/// The value of a type that begins at one of the core values, as many of which follow as stand for it. It is told by no index, and
/// counted already.
#[cycle(lifting_words)]
fn counted_word_at<L: Ledger>(
    alloc: Global,
    memory: &[u8],
    ledger: &mut L,
    words: &[u64],
    at: usize,
    t: &NumberedType<'_>,
) -> Result<Value, LiftError>
    requires known { L.knows t.now.types }
    requires told { named_in (out-ValType t.now.val_type) ≡ None }
    requires few { length words.now ≤ 16 }
    requires room { at + length (flat t.now.val_type) ≤ length words.now }
    ensures { MayTake (L.ledger t.now.types) (lift_word_case (L.ledger t.now.types) (layer_of (L.ledger t.now.types) t.now.val_type) memory.now words.now at (L.kept ledger.old)) (L.kept ledger.new) result }
{
    let laid = t.laid();
    match laid.val_type() {
        ValType::String => {
            let place = low32(words, at);
            let length = low32(words, at + 1);
            string_of(alloc, memory, ledger, place, length, at as u64)
        }
        ValType::List(_) => {
            let place = low32(words, at);
            let count = low32(words, at + 1);
            list_of(alloc, memory, ledger, place, count, at as u64, t)
        }
        ValType::Record(_) | ValType::Tuple(_) => {
            Ok(Value::Record(word_fields_at(alloc, memory, ledger, words, at, t)?))
        }
        ValType::Variant(_) | ValType::Enum(_) | ValType::Option(_) | ValType::Result { .. } =>
            word_case_at(alloc, memory, ledger, words, at, t),
        ValType::Flags(labels) => Ok(flags_of(alloc, labels.as_slice(), low32(words, at))?),
        val_type => Ok(plain_word(words[at], at as u64, val_type)?),
    }
}

/// The value of a type that begins at one of the core values, as many of which follow as stand for it.
#[cycle(lifting_words)]
pub(crate) fn word_value_at<L: Ledger>(
    alloc: Global,
    memory: &[u8],
    ledger: &mut L,
    words: &[u64],
    at: usize,
    t: &NumberedType<'_>,
) -> Result<Value, LiftError>
    requires known { L.knows t.now.types }
    requires few { length words.now ≤ 16 }
    requires room { at + length (flat t.now.val_type) ≤ length words.now }
    ensures { MayTake (L.ledger t.now.types) (lift_words (L.ledger t.now.types) t.now.val_type memory.now words.now at (L.kept ledger.old)) (L.kept ledger.new) result }
{
    let laid = t.laid();
    let Some(named) = Named::of(laid.val_type()) else {
        ledger.count(1, at as u64)?;
        return counted_word_at(alloc, memory, ledger, words, at, t);
    };
    value_by(ledger, named, low32(words, at), at as u64, t)
}
