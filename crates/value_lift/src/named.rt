//! What the index of a value names.

ghost use Rattle.std.specs.Prelude.{◌≡◌};
ghost use Rattle.syntax_trees.specs.declared.types.ValType.{out-ValType};
ghost use Rattle.value_lift.specs.Named.{named_in, value_named};

use syntax_trees::{Handle, ValType, Value};

/// What the index of a value names, where a value is told by one.
#[derive(Clone, Copy)]
pub enum Named {
    /// An own handle of a resource.
    Own(u32),
    /// A handle of a resource, which is lent.
    Borrow(u32),
    /// The readable end of a stream.
    Stream,
    /// The readable end of a future.
    Future,
}

impl Named {
    /// What the index of a value of a type names, if a value is told by one.
    pub(crate) fn of(val_type: &ValType) -> Option<Named>
        ensures { result ≡ named_in (out-ValType val_type.now) }
    {
        match val_type {
            ValType::Own(resource) => Some(Named::Own(*resource)),
            ValType::Borrow(resource) => Some(Named::Borrow(*resource)),
            ValType::Stream(_) => Some(Named::Stream),
            ValType::Future(_) => Some(Named::Future),
            _ => None,
        }
    }

    /// The value, by the number that its index names.
    pub(crate) fn value(self, number: u32) -> Value
        ensures { result ≡ value_named self number }
    {
        match self {
            Named::Own(resource) => Value::Own(Handle {
                resource,
                rep: number,
            }),
            Named::Borrow(resource) => Value::Borrow(Handle {
                resource,
                rep: number,
            }),
            Named::Stream => Value::Stream(number),
            Named::Future => Value::Future(number),
        }
    }
}
