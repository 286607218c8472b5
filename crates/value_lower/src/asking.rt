//! New places, and tests of places.

ghost use Rattle.std.specs.Prelude.{◌≡◌, ◌≢◌, ◌+◌, ◌%◌, ◌<◌, ◌≤◌, ◌^◌, ℕ, List, length, IfOk, MatchResult};
ghost use Rattle.syntax_trees.specs.declared.types.ValType.{ValType};
ghost use Rattle.value_lower.specs.declared.ends.LowerWhy.TheVariants.{Misaligned, Bounds};
ghost use Rattle.value_lower.specs.Plan.{Plan};
ghost use Rattle.value_lower.specs.Following.{Runs, rooms_of};
ghost use Rattle.value_lower.specs.Storing.{asked, text_in};
ghost use Rattle.value_lower.specs.Fitting.{HasBytes, IsRefused};

use crate::beside::Beside;
use crate::ends::{LowerError, LowerWhy};
use std::alloc::Global;

/// Tests a place for so many bytes.
pub(crate) fn test_place<R, B: Beside<R>>(
    room: &R,
    beside: &B,
    place: u32,
    align: u32,
    size: u128,
) -> Result<(), LowerWhy>
    requires { 1 ≤ align }
    ensures { MatchResult result (λ _. (place % align ≡ 0) × HasBytes place size (length (B.memory (B.state room.now beside.now)))) (λ why. IsRefused place align size (length (B.memory (B.state room.now beside.now))) why) }
{
    if place % align != 0 {
        return Err(LowerWhy::Misaligned);
    }
    let there = u128::from(beside.size(room));
    if size > there || u128::from(place) > there - size {
        return Err(LowerWhy::Bounds);
    }
    Ok(())
}

/// A new place for so many items of so many bytes in all, which has passed the tests.
pub(crate) fn ask<R, B: Beside<R>>(
    alloc: Global,
    room: &mut R,
    beside: &B,
    count: usize,
    align: u32,
    size: u128,
) -> Result<u32, LowerError<B::Trap>>
    requires { 1 ≤ align }
    ensures follows { (task : ℕ) (types : List ValType) (k : ℕ → Plan) → Runs (rooms_of B.memory B.answers B.wrote (B.adds task types)) (asked count align size k) k (B.state room.old beside.now) result (B.state room.new beside.now) }
    ensures bytes { IfOk result (λ place. HasBytes place size (length (B.memory (B.state room.new beside.now)))) }
    ensures few { IfOk result (λ place. count < 2 ^ 32) }
    ensures grows { length (B.memory (B.state room.old beside.now)) ≤ length (B.memory (B.state room.new beside.now)) }
{
    if count >= 1 << 32 || size >= 1 << 32 {
        return Err(LowerError::Failed(LowerWhy::Bounds));
    }
    let place = beside.realloc(room, alloc, align, size as u32)?;
    test_place(room, beside, place, align, size)?;
    Ok(place)
}

/// Puts the bytes of a text at a new place, and answers the place.
pub(crate) fn text_in<R, B: Beside<R>>(
    alloc: Global,
    room: &mut R,
    beside: &B,
    text: &str,
) -> Result<u32, LowerError<B::Trap>>
    ensures follows { (task : ℕ) (types : List ValType) (k : ℕ → Plan) → Runs (rooms_of B.memory B.answers B.wrote (B.adds task types)) (text_in text.now k) k (B.state room.old beside.now) result (B.state room.new beside.now) }
    ensures few { IfOk result (λ place. length text.now < 2 ^ 32) }
    ensures grows { length (B.memory (B.state room.old beside.now)) ≤ length (B.memory (B.state room.new beside.now)) }
{
    let bytes = text.as_bytes();
    let place = ask(alloc, room, beside, bytes.len(), 1, bytes.len() as u128)?;
    beside.put(room, place, bytes);
    Ok(place)
}
