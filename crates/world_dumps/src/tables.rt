//! The live entries of tables.

ghost use Rattle.std.specs.Prelude.{◌≡◌, IfOk, map};
ghost use Rattle.world_parts.specs.Held.{held};
ghost use Rattle.world_dumps.specs.Tables.{shown_at, table_shown};

use crate::entries::entry_shown;
use faults::Memory;
use instances::Instance;
use std::alloc::Global;
use syntax_trees::Seq;
use trace_labels::LiveEntry;
use world_parts::Parts;

/// What stands at an index of the table of an instance, with the index.
fn shown_at(
    alloc: Global,
    parts: &Parts,
    instance: &Instance,
    index: u32,
) -> Result<Option<LiveEntry>, Memory>
    ensures { IfOk result (λ shown. shown ≡ shown_at (held parts.now) instance.now index) }
{
    match instance.entry(index) {
        Some(entry) => Ok(Some(LiveEntry {
            index,
            entry: entry_shown(alloc, parts, instance, entry)?,
        })),
        None => Ok(None),
    }
}

/// The live entries of the table of an instance, by their indices.
fn table_shown(alloc: Global, parts: &Parts, instance: &Instance) -> Result<Seq<LiveEntry>, Memory>
    ensures { IfOk result (λ shown. shown ≡ table_shown (held parts.now) instance.now) }
{
    let mut all = Seq::new(alloc);
    let indices = instance.indices(alloc)?;
    for index in indices.as_slice() {
        if let Some(shown) = shown_at(alloc, parts, instance, *index)? {
            all.push(shown)?;
        }
    }
    Ok(all)
}

/// Those of instances.
fn all_shown(
    alloc: Global,
    parts: &Parts,
    instances: &[Instance],
) -> Result<Seq<Seq<LiveEntry>>, Memory>
    ensures { IfOk result (λ shown. shown ≡ map (table_shown (held parts.now)) instances.now) }
{
    let mut all = Seq::new(alloc);
    for instance in instances {
        all.push(table_shown(alloc, parts, instance)?)?;
    }
    Ok(all)
}

/// Those of all instances that have begun.
pub(crate) fn tables_shown(alloc: Global, parts: &Parts) -> Result<Seq<Seq<LiveEntry>>, Memory>
    ensures { IfOk result (λ shown. shown ≡ map (table_shown (held parts.now)) (held parts.now).instances) }
{
    all_shown(alloc, parts, &parts.instances)
}
