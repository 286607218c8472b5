//! The elements of reads and writes, and where they lie in memory.

ghost use Rattle.std.specs.Prelude.{◌≡◌, ◌+◌, ◌*◌, nat_le};
ghost use Rattle.laid_types.specs.Layout.{laid};
ghost use Rattle.value_lift.specs.Lifting.{is_integer};
ghost use Rattle.world_parts.specs.Held.{Tells};
ghost use Rattle.world_parts.specs.Slots.{small};
ghost use Rattle.copy_replies.specs.Reads.{placed_well, is_none_or_integer};
ghost use Rattle.copy_replies.specs.Moves.{element_at, next_place};

use comp_graph::{CanonFunc, Graph};
use graph_views::canon_at;
use laid_types::LaidType;
use stream_ends::OpenCopy;
use syntax_trees::ValType;
use trace_labels::TrapName;
use world_parts::{Part, Parts, Stop};

/// The type of the result or of the elements of the built-in of a number, where it has one.
pub fn element_at<'g>(graph: &'g Graph<'_>, number: u32) -> Option<LaidType<'g>>
    ensures { result ≡ element_at graph.now number }
{
    match canon_at(graph, number) {
        Some(CanonFunc::Builtin(_)) => graph.canon_value(number as usize),
        Some(CanonFunc::Lower(_)) => None,
        None => None,
    }
}

/// Whether so many bytes from a place on are among so many.
fn is_inside(bytes: u64, place: u32, size: u128) -> bool
    ensures { result ≡ nat_le (place + size) bytes }
{
    let bytes = u128::from(bytes);
    size <= bytes && u128::from(place) <= bytes - size
}

/// Whether so many elements from a place on are among so many bytes.
#[tactic(auto, using(crate::proofs::Limits::inside_limited))]
fn are_inside(element: &LaidType<'_>, bytes: u64, place: u32, count: u32) -> bool
    ensures { result ≡ nat_le (place + count * (laid element.now).size) bytes }
{
    is_inside(bytes, place, u128::from(count) * element.size())
}

/// Tests so many elements at a place of the memory at an address, where they hold anything and there are some. The traps are `Misaligned`
/// and `Bounds`.
#[tactic(auto, unfolding(crate::specs::Reads::placed_well), using(world_parts::proofs::Thens::thens))]
pub(crate) fn place_well(
    parts: &Parts,
    element: &Option<LaidType<'_>>,
    memory: Option<usize>,
    place: u32,
    count: u32,
) -> Part<()>
    ensures { Tells (placed_well element.now memory place count) parts.now result }
{
    let Some(element) = element else {
        return Ok(());
    };
    if count == 0 {
        return Ok(());
    }
    if place % element.align() != 0 {
        return Err(Stop::Trap(TrapName::Misaligned));
    }
    if !are_inside(element, parts.memory_size(memory), place, count) {
        return Err(Stop::Trap(TrapName::Bounds));
    }
    Ok(())
}

/// Whether a type is one of integers.
fn is_integer(val_type: &ValType) -> bool
    ensures { result ≡ is_integer val_type.now }
{
    match val_type {
        ValType::S8 | ValType::U8 | ValType::S16 | ValType::U16 => true,
        ValType::S32 | ValType::U32 | ValType::S64 | ValType::U64 => true,
        _ => false,
    }
}

/// Whether elements hold nothing or are integers.
pub(crate) fn is_none_or_integer(element: &Option<LaidType<'_>>) -> bool
    ensures { result ≡ is_none_or_integer element.now }
{
    match element {
        None => true,
        Some(element) => is_integer(element.val_type()),
    }
}

/// A place that is 32 bits wide.
fn small_place(place: u128) -> Option<u32>
    ensures { result ≡ small place }
{
    if place < 4_294_967_296 {
        Some(place as u32)
    } else {
        None
    }
}

/// The place behind so many elements from another one on, where it is 32 bits wide.
#[tactic(auto, using(crate::proofs::Limits::place_limited))]
fn place_behind(element: &LaidType<'_>, place: u32, count: u32) -> Option<u32>
    ensures { result ≡ small (place + count * (laid element.now).size) }
{
    small_place(u128::from(place) + u128::from(count) * element.size())
}

/// Where the next element of a copy stands or is to stand, where that is 32 bits wide. Elements that hold nothing stand nowhere.
pub(crate) fn next_place(element: &Option<LaidType<'_>>, copy: &OpenCopy) -> Option<u32>
    ensures { result ≡ next_place element.now copy.now }
{
    match element {
        None => Some(copy.place),
        Some(element) => place_behind(element, copy.place, copy.copied),
    }
}
