//! The type of the result that a task returns, and the options with which it does.

ghost use Rattle.std.specs.Prelude.{◌≡◌};
ghost use Rattle.laid_types.specs.SameTypes.{same_val, AreDistinct};
ghost use Rattle.world_parts.specs.Held.{Tells};
ghost use Rattle.return_replies.specs.Returns.{type_of, same_held, same_memory, checked, return_checked, AreTold};

use comp_graph::{Graph, Options};
use graph_views::lift_of;
use laid_types::NumberedType;
use trace_labels::TrapName;
use world_parts::{Part, Parts, Stop};

/// Tests what a task returns by `task.return` with these options: a result of the type `given`, where its function gives one of the type
/// `wanted`. Both types are of one table in which no type stands twice.
///
/// # Errors
///
/// The traps `WrongResult`, where the types differ, and then `WrongOptions`, where both name a memory and these differ. `Stuck` where the task
/// runs no lifted function.
pub fn check_return(
    graph: &Graph<'_>,
    parts: &Parts,
    task: u32,
    options: &Options,
    given: Option<NumberedType<'_>>,
    wanted: Option<NumberedType<'_>>,
) -> Part<()>
    requires told { AreTold given wanted }
    ensures { Tells (return_checked graph.now task (type_of given.entry) (type_of wanted.entry) options.now) parts.now result }
{
    let callee = parts.callee_of(task)?;
    let Some(lift) = lift_of(graph, callee) else {
        return Err(Stop::Stuck);
    };
    check(parts, same_held(given, wanted), options, &lift.options)
}

/// Whether there is no result, or both are of one type.
fn same_held(given: Option<NumberedType<'_>>, wanted: Option<NumberedType<'_>>) -> bool
    requires told { AreTold given wanted }
    ensures { result ≡ same_held (type_of given.entry) (type_of wanted.entry) }
{
    match given {
        None => match wanted {
            None => true,
            Some(_) => false,
        },
        Some(given) => match wanted {
            None => false,
            Some(wanted) => same_type(&given, &wanted),
        },
    }
}

/// Whether both are one type.
#[tactic(auto, using(crate::proofs::Numbers::told_by_numbers))]
fn same_type(given: &NumberedType<'_>, wanted: &NumberedType<'_>) -> bool
    requires distinct { AreDistinct given.now.types }
    requires one { given.now.types ≡ wanted.now.types }
    ensures { result ≡ same_val given.now.val_type wanted.now.val_type }
{
    given.number() == wanted.number()
}

/// Whether two memories, by their addresses, are the same, or one is none.
fn same_memory(given: Option<usize>, lifted: Option<usize>) -> bool
    ensures { result ≡ same_memory given lifted }
{
    match (given, lifted) {
        (Some(given), Some(lifted)) => given == lifted,
        (Some(_), None) => true,
        (None, _) => true,
    }
}

/// Tests whether types are the same, and then the options.
fn check(parts: &Parts, is_same: bool, given: &Options, lifted: &Options) -> Part<()>
    ensures { Tells (checked is_same given.now lifted.now) parts.now result }
{
    if !is_same {
        return Err(Stop::Trap(TrapName::WrongResult));
    }
    if !same_memory(parts.memory_of(given), parts.memory_of(lifted)) {
        return Err(Stop::Trap(TrapName::WrongOptions));
    }
    Ok(())
}
