//! The types of values and functions.

use crate::name::Name;
use crate::seq::Seq;
use crate::shared::Shared;

/// The type of a value (Component Model, Explainer.md, "Type Definitions": `valtype` and `defvaltype`).
///
/// A type holds its parts behind a `Shared`, so types that have a part in common share its memory.
#[cycle(types)]
#[derive(Drop)]
pub enum ValType {
    /// A truth value.
    Bool,
    /// A signed 8-bit integer.
    S8,
    /// An unsigned 8-bit integer.
    U8,
    /// A signed 16-bit integer.
    S16,
    /// An unsigned 16-bit integer.
    U16,
    /// A signed 32-bit integer.
    S32,
    /// An unsigned 32-bit integer.
    U32,
    /// A signed 64-bit integer.
    S64,
    /// An unsigned 64-bit integer.
    U64,
    /// A Unicode scalar value.
    Char,
    /// A text of Unicode scalar values.
    String,
    /// A value for each field, in order.
    Record(Seq<Field>),
    /// One of several cases, with its payload where it has one.
    Variant(Seq<Case>),
    /// Any number of values of one type.
    List(Shared<ValType>),
    /// A value for each place, in order.
    Tuple(Seq<Shared<ValType>>),
    /// A truth value for each label, in order.
    Flags(Seq<Name>),
    /// One of several labels.
    Enum(Seq<Name>),
    /// A value, or none.
    Option(Shared<ValType>),
    /// A success or a failure, each with a value where it has a type.
    Result {
        /// The type of what a success holds.
        ok: Option<Shared<ValType>>,
        /// The type of what a failure holds.
        err: Option<Shared<ValType>>,
    },
    /// An owning handle to a resource of the type with this number.
    Own(u32),
    /// A borrowing handle to a resource of the type with this number.
    Borrow(u32),
    /// The readable end of a stream of elements, which have a type where they hold anything.
    Stream(Option<Shared<ValType>>),
    /// The readable end of a future, whose value has a type where it holds anything.
    Future(Option<Shared<ValType>>),
}

/// A field of a record.
#[cycle(types)]
#[derive(Drop)]
pub struct Field {
    /// Its label.
    pub label: Name,
    /// The type of its values.
    pub val_type: Shared<ValType>,
}

/// A case of a variant.
#[cycle(types)]
#[derive(Drop)]
pub struct Case {
    /// Its label.
    pub label: Name,
    /// The type of its payload, if it has one.
    pub payload: Option<Shared<ValType>>,
}

/// A parameter of a function.
#[derive(Drop)]
pub struct Param {
    /// The label under which it is passed.
    pub label: Name,
    /// The type of its values.
    pub val_type: Shared<ValType>,
}

/// The type of a function (Component Model, Explainer.md, "Type Definitions": `functype`).
#[derive(Drop)]
pub struct FuncType {
    /// Its parameters, in order.
    pub params: Seq<Param>,
    /// The type of its result, if it has one.
    pub result: Option<Shared<ValType>>,
}
