//! Elements that go over.

ghost use Rattle.std.specs.Prelude.{◌≡◌, IfOk};
ghost use Rattle.laid_types.specs.SameTypes.{AreDistinct};
ghost use Rattle.value_parts.specs.Lifting.{FewLent};
ghost use Rattle.world_parts.specs.Held.{Does, held};
ghost use Rattle.value_parts.specs.Coming.{May};
ghost use Rattle.value_moves.specs.Transferring.{origin_of, reader_of, copied_values, Reads, MovesOver, MovesElements, Transfers};

use crate::lowering::{Destination, destination_at, lower_all_into};
use copy_replies::{Moving, complete, moving_of};
use faults::Memory;
use laid_types::NumberedType;
use programs::Program;
use std::alloc::Global;
use syntax_trees::Values;
use trace_labels::{Copied, TypedValues};
use value_parts::{Origin, lift_elements};
use world_parts::{Copying, Flow, Part, Parts, Stop};

/// Where elements are lifted from.
fn origin_of(moving: &Moving) -> Origin
    ensures { result ≡ origin_of moving.now }
{
    Origin {
        at: moving.writer.instance as usize,
        callee: moving.task,
        memory: moving.writer.memory,
    }
}

/// Where they go.
fn reader_of(parts: &Parts, moving: &Moving) -> Destination
    ensures { result ≡ reader_of moving.now (held parts.now) }
{
    let reader = &moving.reader;
    destination_at(
        &parts.store,
        reader.instance,
        reader.task,
        reader.memory,
        &reader.options,
    )
}

/// Elements with their type, as a line has them.
fn copied_values(t: &NumberedType<'_>, values: Values) -> Result<Copied, Memory>
    ensures { IfOk result (λ copied. copied ≡ copied_values t.now values) }
{
    let val_type = t.laid().share()?;
    Ok(Copied::Values(TypedValues { values, val_type }))
}

/// Elements are lowered to the side that reads, and the call is completed.
fn read(
    alloc: Global,
    program: &Program<'_, '_>,
    parts: &mut Parts,
    moving: Moving,
    t: &NumberedType<'_>,
    values: Values,
) -> Part<Flow>
    ensures { May (Reads program.now moving t.now values (held parts.old)) result parts.new }
{
    let to = reader_of(parts, &moving);
    let place = moving.reader.place;
    lower_all_into(alloc, program, parts, to, values.as_slice(), t, place)?;
    match copied_values(t, values) {
        Ok(copied) => complete(alloc, parts, moving, copied),
        Err(_) => Err(Stop::Memory),
    }
}

/// Elements of a type go over.
fn move_elements(
    alloc: Global,
    program: &Program<'_, '_>,
    parts: &mut Parts,
    moving: Moving,
    t: &NumberedType<'_>,
) -> Part<Flow>
    requires distinct { AreDistinct t.now.types }
    requires lends { FewLent (held parts.old) }
    ensures { May (MovesElements program.now moving t.now (held parts.old)) result parts.new }
{
    let place = moving.writer.place;
    let values = lift_elements(alloc, parts, origin_of(&moving), t, place, moving.count)?;
    read(alloc, program, parts, moving, t, values)
}

/// Elements go over, of the type of this number, if they hold anything.
fn move_over(
    alloc: Global,
    program: &Program<'_, '_>,
    parts: &mut Parts,
    moving: Moving,
    number: Option<usize>,
) -> Part<Flow>
    requires distinct { AreDistinct program.now.types.now }
    requires lends { FewLent (held parts.old) }
    ensures { May (MovesOver program.now moving number (held parts.old)) result parts.new }
{
    let Some(number) = number else {
        return complete(alloc, parts, moving, Copied::Units(moving.count));
    };
    let Some(t) = program.types.numbered(number) else {
        return Err(Stop::Stuck);
    };
    move_elements(alloc, program, parts, moving, &t)
}

/// Completes a read or write of a task that meets an offer (Component Model, CanonicalABI.md, `canon stream.{read,write}`, `canon
/// future.{read,write}`): the elements are lifted from the side that writes, as they are now, and lowered to the side that reads, for the task that
/// reads, and the copy has its line.
///
/// # Errors
///
/// The traps of lifting and of lowering, `NoFuel` and `Memory`; and `Stuck` where something is not there.
pub(crate) fn transfer(
    alloc: Global,
    program: &Program<'_, '_>,
    parts: &mut Parts,
    task: u32,
    copying: Copying,
) -> Part<Flow>
    requires distinct { AreDistinct program.now.types.now }
    requires lends { FewLent (held parts.old) }
    ensures { May (Transfers program.now task copying (held parts.old)) result parts.new }
{
    let moving = moving_of(program.graph, parts, task, copying)?;
    let number = program.value_of(copying.canon);
    move_over(alloc, program, parts, moving, number)
}
