//! What is computed of a type from its parts.

ghost use Rattle.std.specs.Prelude.{◌≡◌, ◌∷◌, take, min, IfOk};
ghost use Rattle.syntax_trees.specs.declared.core_type.CoreType.TheVariants.{I32};
ghost use Rattle.syntax_trees.specs.declared.types.ValType.{out-ValType};
ghost use Rattle.laid_types.specs.Layout.{record_laid, tagged};
ghost use Rattle.layouts.specs.Limited.{as_laid, InReach, limited, nothing};
ghost use Rattle.syntax_trees.specs.Flat.{all_of, joined_all};
ghost use Rattle.syntax_trees.specs.Ends.{some_true};
ghost use Rattle.laid_types.specs.Parts.{case_count, layouts};
ghost use Rattle.laid_types.specs.Layers.{AreThere, trees_of};
ghost use Rattle.laid_types.specs.Depth.{greatest};
ghost use Rattle.laid_types.specs.Gathered.{room_for, laid_over, flats, flat_over, ends, handles, borrows, lists, end_over, handle_over, borrow_over, list_over, depths, depth_over, tops, top_over};

use crate::flattening::{push_types, tagged};
use crate::holding::Holding;
use crate::joining::{alone, joined_lists};
use crate::types::LaidTypes;
use layouts::{Laying, bits_size};
use std::alloc::{AllocError, Global};
use syntax_trees::{CoreType, ValType};

/// How many cases a type has to tell apart.
pub(crate) fn case_count(val_type: &ValType) -> usize
    ensures { result ≡ case_count val_type.now }
{
    match val_type {
        ValType::Variant(cases) => cases.len(),
        ValType::Enum(labels) => labels.len(),
        ValType::Option(_) => 2,
        ValType::Result { .. } => 2,
        _ => 0,
    }
}

/// Parts one after the other, with padding at the end.
#[tactic(auto, using(layouts::proofs::Layouts::closed_behind_all))]
fn row_laying(types: &LaidTypes, parts: &[Option<usize>]) -> Laying
    requires { AreThere types.now parts.now }
    ensures value { as_laid result ≡ limited (record_laid (layouts (trees_of types.now parts.now))) }
    ensures reach { InReach (as_laid result) }
{
    let mut row = Laying::nothing();
    for part in parts {
        if let Some(number) = part {
            row = row.followed(types.entry(*number).laying());
        }
    }
    row.closed()
}

/// Room for any of several payloads.
pub(crate) fn payload_laying(types: &LaidTypes, parts: &[Option<usize>]) -> Laying
    requires { AreThere types.now parts.now }
    ensures value { as_laid result ≡ room_for nothing (layouts (trees_of types.now parts.now)) }
    ensures reach { InReach (as_laid result) }
{
    let mut payload = Laying::nothing();
    for part in parts {
        if let Some(number) = part {
            payload = payload.joined(types.entry(*number).laying());
        }
    }
    payload
}

/// The number of one of so many cases, and behind it room for any of several payloads.
fn choice_laying(types: &LaidTypes, count: usize, parts: &[Option<usize>]) -> Laying
    requires { AreThere types.now parts.now }
    ensures value { as_laid result ≡ limited (tagged count (layouts (trees_of types.now parts.now))) }
    ensures reach { InReach (as_laid result) }
{
    payload_laying(types, parts).tagged(count)
}

/// How values of a type with these parts lie in memory.
pub(crate) fn laying_of(types: &LaidTypes, val_type: &ValType, parts: &[Option<usize>]) -> Laying
    requires { AreThere types.now parts.now }
    ensures value { as_laid result ≡ limited (laid_over (out-ValType val_type.now) (layouts (trees_of types.now parts.now))) }
    ensures reach { InReach (as_laid result) }
{
    match val_type {
        ValType::Bool | ValType::S8 | ValType::U8 => Laying::scalar(1),
        ValType::S16 | ValType::U16 => Laying::scalar(2),
        ValType::S32 | ValType::U32 | ValType::Char => Laying::scalar(4),
        ValType::S64 | ValType::U64 => Laying::scalar(8),
        ValType::Own(_) | ValType::Borrow(_) => Laying::scalar(4),
        ValType::Stream(_) | ValType::Future(_) => Laying::scalar(4),
        ValType::String | ValType::List(_) => Laying::slice(),
        ValType::Record(_) | ValType::Tuple(_) => row_laying(types, parts),
        ValType::Flags(labels) => Laying::scalar(bits_size(labels.len())),
        ValType::Variant(cases) => choice_laying(types, cases.len(), parts),
        ValType::Enum(labels) => choice_laying(types, labels.len(), parts),
        ValType::Option(_) | ValType::Result { .. } => choice_laying(types, 2, parts),
    }
}

/// The first core types of parts one after the other.
#[tactic(auto, using(crate::proofs::Kept::row_end))]
fn flat_row(
    alloc: Global,
    types: &LaidTypes,
    parts: &[Option<usize>],
) -> Result<Vec<CoreType>, AllocError>
    requires { AreThere types.now parts.now }
    ensures { IfOk result (λ flat. flat.items ≡ take 17 (all_of (flats (trees_of types.now parts.now)))) }
{
    let mut row = Vec::new(alloc);
    for part in parts {
        if let Some(number) = part {
            push_types(&mut row, types.entry(*number).flat())?;
        }
    }
    Ok(row)
}

/// The first core types for any of several payloads.
fn flat_payload(
    alloc: Global,
    types: &LaidTypes,
    parts: &[Option<usize>],
) -> Result<Vec<CoreType>, AllocError>
    requires { AreThere types.now parts.now }
    ensures { IfOk result (λ flat. flat.items ≡ take 17 (joined_all (flats (trees_of types.now parts.now)))) }
{
    let mut payload = Vec::new(alloc);
    for part in parts {
        if let Some(number) = part {
            payload = joined_lists(alloc, &payload, types.entry(*number).flat())?;
        }
    }
    Ok(payload)
}

/// The number of a case, and behind it the first core types for any of several payloads.
fn flat_choice(
    alloc: Global,
    types: &LaidTypes,
    parts: &[Option<usize>],
) -> Result<Vec<CoreType>, AllocError>
    requires { AreThere types.now parts.now }
    ensures { IfOk result (λ flat. flat.items ≡ take 17 (I32 ∷ joined_all (flats (trees_of types.now parts.now)))) }
{
    let payload = flat_payload(alloc, types, parts)?;
    let choice = tagged(alloc, &payload)?;
    Ok(choice)
}

/// The first core types of a type with these parts.
pub(crate) fn flat_of(
    alloc: Global,
    types: &LaidTypes,
    val_type: &ValType,
    parts: &[Option<usize>],
) -> Result<Vec<CoreType>, AllocError>
    requires { AreThere types.now parts.now }
    ensures { IfOk result (λ flat. flat.items ≡ take 17 (flat_over (out-ValType val_type.now) (flats (trees_of types.now parts.now)))) }
{
    match val_type {
        ValType::S64 | ValType::U64 => alone(alloc, CoreType::I64),
        ValType::String | ValType::List(_) => tagged(alloc, &alone(alloc, CoreType::I32)?),
        ValType::Record(_) | ValType::Tuple(_) => flat_row(alloc, types, parts),
        ValType::Variant(_) | ValType::Enum(_) | ValType::Option(_) | ValType::Result { .. } => {
            flat_choice(alloc, types, parts)
        }
        _ => alone(alloc, CoreType::I32),
    }
}

/// What values of any of the parts hold.
fn parts_holding(types: &LaidTypes, parts: &[Option<usize>]) -> Holding
    requires { AreThere types.now parts.now }
    ensures end { result.end ≡ some_true (ends (trees_of types.now parts.now)) }
    ensures handle { result.handle ≡ some_true (handles (trees_of types.now parts.now)) }
    ensures borrow { result.borrow ≡ some_true (borrows (trees_of types.now parts.now)) }
    ensures list { result.list ≡ some_true (lists (trees_of types.now parts.now)) }
{
    let mut held = Holding {
        end: false,
        handle: false,
        borrow: false,
        list: false,
    };
    for part in parts {
        if let Some(number) = part {
            held = held.or(types.entry(*number).holding());
        }
    }
    held
}

/// What values of a type with these parts hold.
pub(crate) fn holding_of(types: &LaidTypes, val_type: &ValType, parts: &[Option<usize>]) -> Holding
    requires { AreThere types.now parts.now }
    ensures end { result.end ≡ end_over (out-ValType val_type.now) (ends (trees_of types.now parts.now)) }
    ensures handle { result.handle ≡ handle_over (out-ValType val_type.now) (handles (trees_of types.now parts.now)) }
    ensures borrow { result.borrow ≡ borrow_over (out-ValType val_type.now) (borrows (trees_of types.now parts.now)) }
    ensures list { result.list ≡ list_over (out-ValType val_type.now) (lists (trees_of types.now parts.now)) }
{
    let held = parts_holding(types, parts);
    match val_type {
        ValType::Stream(_) | ValType::Future(_) => Holding {
            end: true,
            handle: false,
            borrow: false,
            list: false,
        },
        ValType::Own(_) => Holding {
            handle: true,
            ..held
        },
        ValType::Borrow(_) => Holding {
            handle: true,
            borrow: true,
            ..held
        },
        ValType::String | ValType::List(_) => Holding { list: true, ..held },
        _ => held,
    }
}

/// The greatest depth of parts, or 33 where one is deeper than 32.
fn deepest(types: &LaidTypes, parts: &[Option<usize>]) -> u32
    requires { AreThere types.now parts.now }
    ensures { result ≡ min (greatest (depths (trees_of types.now parts.now))) 33 }
{
    let mut depth = 0;
    for part in parts {
        if let Some(number) = part {
            depth = types.entry(*number).depth().max(depth);
        }
    }
    depth
}

/// The depth of a type with these parts, or 33 where it is deeper than 32.
pub(crate) fn depth_of(types: &LaidTypes, parts: &[Option<usize>]) -> u32
    requires { AreThere types.now parts.now }
    ensures { result ≡ min (depth_over (depths (trees_of types.now parts.now))) 33 }
{
    (deepest(types, parts) + 1).min(33)
}

/// The greatest number of a resource that parts name, 0 where they name none.
fn greatest_top(types: &LaidTypes, parts: &[Option<usize>]) -> u32
    requires { AreThere types.now parts.now }
    ensures { result ≡ greatest (tops (trees_of types.now parts.now)) }
{
    let mut top = 0;
    for part in parts {
        if let Some(number) = part {
            top = types.entry(*number).top().max(top);
        }
    }
    top
}

/// The greatest number of a resource that a type with these parts names, 0 where it names none.
pub(crate) fn top_of(types: &LaidTypes, val_type: &ValType, parts: &[Option<usize>]) -> u32
    requires { AreThere types.now parts.now }
    ensures { result ≡ top_over (out-ValType val_type.now) (tops (trees_of types.now parts.now)) }
{
    match val_type {
        ValType::Own(resource) => *resource,
        ValType::Borrow(resource) => *resource,
        _ => greatest_top(types, parts),
    }
}
