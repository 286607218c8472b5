//! Turns: what is chosen of what may be done.

ghost use Rattle.std.specs.Prelude.{◌≡◌, IfSome};
ghost use Rattle.world_parts.specs.Held.{Does};
ghost use Rattle.world_parts.specs.Turning.{gone, goes, task_gone, taken, turns_by, count_of, task_at};

use trace_labels::Label;
use world_parts::{Part, Parts, Rest, Stop, Turned};

/// A task goes on, by its line.
#[tactic(auto, unfolding(world_parts::specs::Turning::gone), using(world_parts::proofs::Thens::thens))]
fn go(parts: &mut Parts, task: u32) -> Part<Turned>
    ensures { Does (gone task) parts.old result parts.new }
{
    parts.spend()?;
    parts.tell(Label::Go { task })?;
    parts.chain_up(task)?;
    parts.rest = Rest::Resumes;
    Ok(Turned::GoesOn)
}

/// The acting task goes on, whose wait a cancellation ended, by its line.
#[tactic(auto, unfolding(world_parts::specs::Turning::goes), using(world_parts::proofs::Thens::thens))]
pub fn go_now(parts: &mut Parts) -> Part<()>
    ensures { Does goes parts.old result parts.new }
{
    let task = parts.acting()?;
    parts.spend()?;
    parts.tell(Label::Go { task })?;
    parts.rest = Rest::Resumes;
    Ok(())
}

/// How many alternatives there are: an item, if one is left, and the tasks.
fn count_of(has_item: bool, tasks: &[u32]) -> Option<usize>
    ensures { IfSome result (λ count. count ≡ count_of has_item tasks.now) }
{
    if has_item {
        tasks.len().checked_add(1)
    } else {
        Some(tasks.len())
    }
}

/// The task of an alternative.
fn task_at(has_item: bool, number: usize, tasks: &[u32]) -> Option<u32>
    ensures { result ≡ task_at has_item number tasks.now }
{
    if has_item {
        tasks.get(number.saturating_sub(1)).copied()
    } else {
        tasks.get(number).copied()
    }
}

/// The task of an alternative goes on.
#[tactic(auto, unfolding(world_parts::specs::Turning::task_gone), using(world_parts::proofs::Thens::thens))]
fn go_at(parts: &mut Parts, has_item: bool, number: usize, tasks: &[u32]) -> Part<Turned>
    ensures { Does (task_gone has_item number tasks.now) parts.old result parts.new }
{
    match task_at(has_item, number, tasks) {
        Some(task) => go(parts, task),
        None => Err(Stop::Stuck),
    }
}

/// One of so many alternatives is taken, one at least.
#[tactic(auto, unfolding(world_parts::specs::Turning::taken), using(world_parts::proofs::Thens::thens))]
fn take(parts: &mut Parts, count: usize, has_item: bool, tasks: &[u32]) -> Part<Turned>
    requires { count ≡ count_of has_item tasks.now }
    ensures { Does (taken has_item tasks.now) parts.old result parts.new }
{
    let number = parts.choose(count)?;
    if has_item && number == 0 {
        return Ok(Turned::TakesItem);
    }
    go_at(parts, has_item, number as usize, tasks)
}

/// Where no task runs, one of what may be done is taken: the script's next item, if one is left, or one of the tasks that can go on.
#[tactic(auto, unfolding(world_parts::specs::Turning::turns_by), using(world_parts::proofs::Thens::thens))]
pub fn turn(parts: &mut Parts, has_item: bool, tasks: &[u32]) -> Part<Turned>
    ensures { Does (turns_by has_item tasks.now) parts.old result parts.new }
{
    let Some(count) = count_of(has_item, tasks) else {
        return Err(Stop::Memory);
    };
    if count == 0 {
        return Ok(Turned::Ends);
    }
    take(parts, count, has_item, tasks)
}
