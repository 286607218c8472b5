//! How runs end.

ghost use Rattle.std.specs.Prelude.{◌≡◌, IfOk};
ghost use Rattle.world_parts.specs.Held.{held};
ghost use Rattle.machine_runs.specs.Moving.{acting_of};
ghost use Rattle.machine_runs.specs.Worlds.{free_line, trap_line, fuel_line};

use faults::Memory;
use std::alloc::Global;
use std::collections::BTreeSet;
use syntax_trees::Seq;
use trace_labels::{Label, TrapName};
use world_parts::Parts;

/// How a run ends.
#[derive(Clone, Copy)]
pub enum RunEnd {
    /// All is done, and all tasks have exited.
    Done,
    /// The acting task trapped.
    Trap,
    /// Tasks have not exited, and none can go on.
    Deadlock,
    /// The next step costs a unit of fuel, and none is left.
    Fuel,
}

/// The last line of a run, with how the run ends.
#[derive(Drop)]
pub struct LastLine {
    /// How it ends.
    pub end: RunEnd,
    /// The line.
    pub line: Label,
}

/// The last line where nothing may be done.
pub(crate) fn free_line(alloc: Global, live: &BTreeSet<u32>) -> Result<LastLine, Memory>
    ensures { IfOk result (λ last. last ≡ free_line live.now.keys) }
{
    let tasks = live.iter().copied().collect(alloc)?;
    Ok(free_line_of(Seq::from_vec(tasks)))
}

/// The same, where these tasks have not exited.
fn free_line_of(tasks: Seq<u32>) -> LastLine
    ensures { result ≡ free_line tasks }
{
    match tasks.as_slice() {
        [] => LastLine {
            end: RunEnd::Done,
            line: Label::Done,
        },
        [_, ..] => LastLine {
            end: RunEnd::Deadlock,
            line: Label::Deadlock { tasks },
        },
    }
}

/// The last line where the acting task trapped, if one acts.
pub(crate) fn trap_line(parts: &Parts, name: TrapName) -> Option<LastLine>
    ensures { result ≡ trap_line name (acting_of (held parts.now)) }
{
    match parts.chain.last() {
        Some(task) => Some(LastLine {
            end: RunEnd::Trap,
            line: Label::Trap { task: *task, name },
        }),
        None => None,
    }
}

/// The last line where fuel is wanting.
pub(crate) fn fuel_line() -> LastLine
    ensures { result ≡ fuel_line }
{
    LastLine {
        end: RunEnd::Fuel,
        line: Label::Fuel,
    }
}
