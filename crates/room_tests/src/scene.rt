//! What values are lowered and copied in, besides a store.

ghost use Rattle.std.specs.Prelude.{◌≤◌, ◌^◌, IfOk};
ghost use Rattle.value_lift.specs.Tables.{MostLends};
ghost use Rattle.table_texts.specs.Things.{thing_view};

use crate::given::given;
use ca_base::Fuel;
use copy_engine::Acts;
use handle_table::Table;
use std::alloc::Global;
use std::test::Fail;
use syntax_trees::Seq;
use table_texts::{Thing, number, slots_of, table_of};
use value_lift::Moved;

/// The fuel, what code that gives out places does beside, the table of the instance that reads, that of the one that writes, and what has
/// moved in that.
#[derive(Drop)]
pub(crate) struct Scene {
    pub(crate) fuel: Fuel,
    pub(crate) acts: Acts,
    pub(crate) into: Table<Thing>,
    pub(crate) out: Table<Thing>,
    pub(crate) moved: Seq<Moved>,
}

/// The two words of context, and that nothing was called.
fn acts_of(alloc: Global, words: &str) -> Result<Acts, Fail> {
    let (first, second) = words.split_once(' ').ok_or("no context")?;
    Ok(Acts {
        context: (number(first)?, number(second)?),
        calls: Seq::new(alloc),
    })
}

/// The scene of a line, where the types are those of these numbers.
pub(crate) fn scene_of(alloc: Global, line: &str, types: &[usize]) -> Result<Scene, Fail>
    ensures { IfOk result (λ s. MostLends thing_view (2 ^ 63) s.out.slots) }
{
    let units = number(given(line, "units", "100"))?;
    let acts = acts_of(alloc, given(line, "context", "0 0"))?;
    let slots = slots_of(alloc, given(line, "into", ""))?;
    let into = table_of(alloc, slots.as_str(), types)?;
    let out = table_of(alloc, given(line, "out", ""), types)?;
    Ok(Scene {
        fuel: Fuel::new(u64::from(units)),
        acts,
        into,
        out,
        moved: Seq::new(alloc),
    })
}
