//! Built-ins of waitable sets that come and go, and of their members.

ghost use Rattle.world_parts.specs.Held.{Does};
ghost use Rattle.world_parts.specs.Waits.{set_new, set_drop, joined_to, waitable_join};

use crate::tables::{drop_set, join, make_set, sets_made, waitable_at};
use instances::WorldEntry;
use std::alloc::Global;
use world_parts::{Flow, Part, Parts, Stop, word_in};

/// `waitable-set.new`: the trap is `TableFull`.
#[tactic(auto, unfolding(world_parts::specs::Waits::set_new), using(world_parts::proofs::Thens::thens))]
pub(crate) fn set_new(alloc: Global, parts: &mut Parts, task: u32, at: usize) -> Part<Flow>
    ensures { Does (set_new task at) parts.old result parts.new }
{
    let set = sets_made(parts, at)?;
    let index = parts.add_entry(at, WorldEntry::Set(set))?;
    make_set(parts, alloc, at)?;
    parts.answer_one(alloc, task, u64::from(index))
}

/// `waitable-set.drop`: the traps are `Absent`, `OtherKind`, `Members` and `Waiters`.
#[tactic(auto, unfolding(world_parts::specs::Waits::set_drop), using(world_parts::proofs::Thens::thens))]
pub(crate) fn set_drop(
    alloc: Global,
    parts: &mut Parts,
    task: u32,
    at: usize,
    words: &[u64],
) -> Part<Flow>
    ensures { Does (set_drop task at words.now) parts.old result parts.new }
{
    let Some(index) = word_in(words, 0) else {
        return Err(Stop::Stuck);
    };
    let set = parts.set_at(at, index)?;
    drop_set(parts, at, set)?;
    parts.remove_entry(at, index)?;
    parts.answer_none(alloc, task)
}

/// The waitable at an index joins the set at another index, or is in none where that is 0.
#[tactic(auto, unfolding(world_parts::specs::Waits::joined_to), using(world_parts::proofs::Thens::thens))]
fn join_to(
    alloc: Global,
    parts: &mut Parts,
    task: u32,
    at: usize,
    index: u32,
    other: u32,
) -> Part<Flow>
    ensures { Does (joined_to task at index other) parts.old result parts.new }
{
    if other == 0 {
        parts.leave_set(at, index)?;
        parts.answer_none(alloc, task)
    } else {
        let set = parts.set_at(at, other)?;
        join(parts, at, index, set)?;
        parts.answer_none(alloc, task)
    }
}

/// `waitable.join`: the traps are `Absent` and `OtherKind`.
#[tactic(auto, unfolding(world_parts::specs::Waits::waitable_join), using(world_parts::proofs::Thens::thens))]
pub(crate) fn waitable_join(
    alloc: Global,
    parts: &mut Parts,
    task: u32,
    at: usize,
    words: &[u64],
) -> Part<Flow>
    ensures { Does (waitable_join task at words.now) parts.old result parts.new }
{
    let Some(index) = word_in(words, 0) else {
        return Err(Stop::Stuck);
    };
    let Some(other) = word_in(words, 1) else {
        return Err(Stop::Stuck);
    };
    waitable_at(parts, at, index)?;
    join_to(alloc, parts, task, at, index, other)
}
