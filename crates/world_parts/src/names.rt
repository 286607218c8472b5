//! The names of traps.

ghost use Rattle.std.specs.Prelude.{◌≡◌};
ghost use Rattle.world_parts.specs.Names.{refusal_name, task_name, set_name};

use res_handles::Refusal;
use tasks::TaskTrap;
use trace_labels::TrapName;
use waitables::SetRefusal;

/// The name of the reason why an index is refused.
pub fn refusal_name(why: Refusal) -> TrapName
    ensures { result ≡ refusal_name why }
{
    match why {
        Refusal::Absent => TrapName::Absent,
        Refusal::OtherKind => TrapName::OtherKind,
        Refusal::OtherType => TrapName::OtherType,
        Refusal::NotOwn => TrapName::NotOwn,
        Refusal::Lent => TrapName::Lent,
        Refusal::NotIdle => TrapName::NotIdle,
    }
}

/// The name of what a task may not do.
pub fn task_name(why: TaskTrap) -> TrapName
    ensures { result ≡ task_name why }
{
    match why {
        TaskTrap::SyncTask => TrapName::SyncTask,
        TaskTrap::NotAsked => TrapName::NotAsked,
        TaskTrap::Resolved => TrapName::Resolved,
        TaskTrap::BorrowLives => TrapName::BorrowLives,
    }
}

/// The name of the reason why a set is not dropped.
pub fn set_name(why: SetRefusal) -> TrapName
    ensures { result ≡ set_name why }
{
    match why {
        SetRefusal::Members => TrapName::Members,
        SetRefusal::Waiters => TrapName::Waiters,
    }
}
