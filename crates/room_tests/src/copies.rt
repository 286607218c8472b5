//! Elements that are copied.

ghost use Rattle.std.specs.Prelude.{◌≡◌, ◌^◌, IfSome};
ghost use Rattle.laid_types.specs.SameTypes.{AreDistinct};
ghost use Rattle.value_lift.specs.Tables.{MostLends};
ghost use Rattle.table_texts.specs.Things.{thing_view};

use crate::given::given;
use crate::scene::Scene;
use copy_engine::{Copied, CopyFrom, Lowering, copy};
use faults::Memory;
use laid_types::NumberedType;
use std::alloc::Global;
use std::fmt::Write;
use std::test::Fail;
use syntax_trees::{ValType, Value};
use table_texts::number;
use type_texts::value_told;
use value_lift::{LiftTrap, LiftWhy};
use wasm_store::Store;

/// Copies so many elements.
fn elements_copied(
    alloc: Global,
    store: &mut Store,
    scene: &mut Scene,
    from: CopyFrom,
    count: u32,
    element: &Option<NumberedType<'_>>,
    to: &Lowering<'_>,
    place: u32,
) -> Result<Copied, Memory>
    requires distinct { IfSome element.now (λ t. AreDistinct t.types) }
    requires lends { MostLends thing_view (2 ^ 63) scene.old.out.slots }
{
    let fuel = &mut scene.fuel;
    let out = &mut scene.out;
    let into = &mut scene.into;
    let moved = &mut scene.moved;
    let acts = &mut scene.acts;
    copy(
        alloc, store, fuel, out, into, moved, acts, from, count, element, to, place,
    )
}

/// Why an element is not lifted, as text.
fn write_trap(trap: LiftTrap, text: &mut String) -> Result<(), Fail> {
    let place = trap.place;
    match trap.why {
        LiftWhy::Refused(why) => write!(text, "NotLifted {why:?} at {place}")?,
        why => write!(text, "NotLifted {why:?} at {place}")?,
    }
    Ok(())
}

/// What a copy comes to, as text. Its elements are those of a type of lists.
fn write_copied(
    alloc: Global,
    came: Copied,
    lists: &ValType,
    text: &mut String,
) -> Result<(), Fail> {
    match came {
        Copied::Values(values) => {
            let told = value_told(alloc, &Value::List(values), lists)?;
            Ok(text.push_str(told.as_str())?)
        }
        Copied::NotLifted(trap) => write_trap(trap, text),
        Copied::Misfit => Ok(text.push_str("Misfit")?),
        Copied::Failed(why) => Ok(write!(text, "Failed {why:?}")?),
        Copied::Trapped(why) => Ok(write!(text, "Trapped {why:?}")?),
        Copied::NoFuel => Ok(text.push_str("NoFuel")?),
    }
}

/// Where a line copies from.
fn from_of(line: &str) -> Result<CopyFrom, Fail> {
    let (memory, place) = given(line, "from", "0 0")
        .split_once(' ')
        .ok_or("no place")?;
    Ok(CopyFrom {
        memory: number(memory)? as usize,
        place: number(place)?,
    })
}

/// The type of the elements of a type of lists, where they hold anything.
fn element_of<'a>(t: &NumberedType<'a>, line: &str) -> Option<NumberedType<'a>>
    ensures { IfSome result (λ p. p.types ≡ t.now.types) }
{
    match given(line, "element", "") {
        "none" => None,
        _ => t.part(0),
    }
}

/// Copies what a line says, and writes what comes of it.
pub(crate) fn write_copy(
    alloc: Global,
    store: &mut Store,
    scene: &mut Scene,
    to: &Lowering<'_>,
    t: &NumberedType<'_>,
    line: &str,
    text: &mut String,
) -> Result<(), Fail>
    requires distinct { AreDistinct t.now.types }
    requires lends { MostLends thing_view (2 ^ 63) scene.old.out.slots }
{
    let from = from_of(line)?;
    let count = number(given(line, "count", "1"))?;
    let place = number(given(line, "at", "64"))?;
    let element = element_of(t, line);
    match elements_copied(alloc, store, scene, from, count, &element, to, place) {
        Ok(came) => write_copied(alloc, came, t.laid().val_type(), text),
        Err(_) => Err(Fail::new("memory")),
    }
}
