//! Values with their types.

use syntax_trees::{Seq, Shared, ValType, Value};

/// A value with its type, which it shares with other values. The value should be of the type (`fits`); of another one the
/// text says nothing.
#[derive(Drop)]
pub struct TypedValue {
    /// The value.
    pub value: Value,
    /// Its type.
    pub val_type: Shared<ValType>,
}

/// Values of one type, each of which should be of it.
#[derive(Drop)]
pub struct TypedValues {
    /// The values, in order.
    pub values: Seq<Value>,
    /// Their type.
    pub val_type: Shared<ValType>,
}
