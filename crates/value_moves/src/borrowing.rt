//! Borrow handles that a task gets with its arguments.

ghost use Rattle.std.specs.Prelude.{◌≡◌, map};
ghost use Rattle.std.specs.Option.{option_map};
ghost use Rattle.res_handles.specs.Calls.{is_defined};
ghost use Rattle.world_parts.specs.Held.{Does};
ghost use Rattle.value_moves.specs.Borrowing.{all_done, payload_done, borrow_counted, borrows_counted};

use syntax_trees::{Boxed, Value};
use tasks::TaskEvent;
use world_parts::{Part, Parts};

/// Whether a resource is among these.
fn is_defined(resource: u32, home: &[u32]) -> bool
    ensures { result ≡ is_defined resource home.now }
{
    home.contains(&resource)
}

/// Counts a borrow of a resource for a task in an instance that defines these.
fn count_borrow(parts: &mut Parts, home: &[u32], task: u32, resource: u32) -> Part<()>
    ensures { Does (borrow_counted home.now task resource) parts.old result parts.new }
{
    if is_defined(resource, home) {
        Ok(())
    } else {
        parts.advance(task, TaskEvent::Borrow)
    }
}

/// Counts the borrow handles that a value makes for a task in an instance that defines these resources. The value nests as deep as its type does.
#[cycle(borrowing)]
pub(crate) fn count_borrows(parts: &mut Parts, home: &[u32], task: u32, value: &Value) -> Part<()>
    ensures { Does (borrows_counted home.now task value.now) parts.old result parts.new }
{
    match value {
        Value::List(values) => count_all(parts, home, task, values.as_slice()),
        Value::Record(values) => count_all(parts, home, task, values.as_slice()),
        Value::Variant(_, payload) => count_payload(parts, home, task, payload),
        Value::Borrow(handle) => count_borrow(parts, home, task, handle.resource),
        _ => Ok(()),
    }
}

/// Counts those of values.
#[cycle(borrowing)]
fn count_all(parts: &mut Parts, home: &[u32], task: u32, values: &[Value]) -> Part<()>
    ensures { Does (all_done (map (borrows_counted home.now task) values.now)) parts.old result parts.new }
{
    for value in values {
        count_borrows(parts, home, task, value)?;
    }
    Ok(())
}

/// Counts those of a payload, where there is one.
#[cycle(borrowing)]
fn count_payload(
    parts: &mut Parts,
    home: &[u32],
    task: u32,
    payload: &Option<Boxed<Value>>,
) -> Part<()>
    ensures { Does (payload_done (option_map (borrows_counted home.now task) payload.now)) parts.old result parts.new }
{
    match payload {
        Some(value) => count_borrows(parts, home, task, value.get()),
        None => Ok(()),
    }
}
