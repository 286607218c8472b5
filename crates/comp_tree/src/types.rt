//! Types, as they are written (Component Model, Explainer.md and Binary.md).

use crate::externs::ExternDesc;
use crate::instances::Alias;
use syntax_trees::{Name, Named, Seq};

/// A primitive type of values (Component Model, Binary.md, `primvaltype`). Floats and error contexts are none of these.
#[derive(Clone, Copy, Debug)]
pub enum PrimValType {
    /// A truth value.
    Bool,
    /// A signed 8-bit integer.
    S8,
    /// An unsigned 8-bit integer.
    U8,
    /// A signed 16-bit integer.
    S16,
    /// An unsigned 16-bit integer.
    U16,
    /// A signed 32-bit integer.
    S32,
    /// An unsigned 32-bit integer.
    U32,
    /// A signed 64-bit integer.
    S64,
    /// An unsigned 64-bit integer.
    U64,
    /// A Unicode scalar value.
    Char,
    /// A text of Unicode scalar values.
    String,
}

/// A value type as it is written (Component Model, Binary.md, `valtype`).
#[derive(Clone, Copy)]
pub enum ValTypeRef {
    /// A primitive type.
    Primitive(PrimValType),
    /// The type of this index.
    Index(u32),
}

/// A field of a record type as it is written (Component Model, Binary.md, `labelvaltype`).
#[derive(Drop)]
pub struct Field {
    /// Its label.
    pub label: Name,
    /// The type of its values.
    pub val_type: ValTypeRef,
}

impl Named for Field {
    ghost name = { λ f. f.label };

    fn name(&self) -> &str {
        self.label.as_str()
    }
}

/// A case of a variant type as it is written (Component Model, Binary.md, `case`).
#[derive(Drop)]
pub struct Case {
    /// Its label.
    pub label: Name,
    /// The type of its payload, if it has one.
    pub payload: Option<ValTypeRef>,
}

impl Named for Case {
    ghost name = { λ c. c.label };

    fn name(&self) -> &str {
        self.label.as_str()
    }
}

/// A value type that is defined, as it is written (Component Model, Binary.md, `defvaltype`). Which of them have a meaning is no
/// matter of the tree: it may hold a record without fields, or labels that stand twice.
#[derive(Drop)]
pub enum DefValType {
    /// A primitive type.
    Primitive(PrimValType),
    /// A value for each field, in order.
    Record(Seq<Field>),
    /// One of several cases, with its payload where it has one.
    Variant(Seq<Case>),
    /// Any number of values of one type.
    List(ValTypeRef),
    /// A value for each place, in order.
    Tuple(Seq<ValTypeRef>),
    /// A truth value for each label, in order.
    Flags(Seq<Name>),
    /// One of several labels.
    Enum(Seq<Name>),
    /// A value, or none.
    Option(ValTypeRef),
    /// A success or a failure, each with a value where it has a type.
    Result {
        /// The type of what a success holds.
        ok: Option<ValTypeRef>,
        /// The type of what a failure holds.
        err: Option<ValTypeRef>,
    },
    /// An owning handle of a resource of the type of this index.
    Own(u32),
    /// A borrowed handle of a resource of the type of this index.
    Borrow(u32),
    /// The readable end of a stream, with the type of its elements, if they hold anything.
    Stream(Option<ValTypeRef>),
    /// The readable end of a future, with the type of its value, if it holds anything.
    Future(Option<ValTypeRef>),
}

/// A parameter of a function type as it is written (Component Model, Binary.md, `labelvaltype`).
#[derive(Drop)]
pub struct Param {
    /// The label under which it is passed.
    pub label: Name,
    /// The type of its values.
    pub val_type: ValTypeRef,
}

impl Named for Param {
    ghost name = { λ p. p.label };

    fn name(&self) -> &str {
        self.label.as_str()
    }
}

/// A function type as it is written (Component Model, Binary.md, `functype`).
#[derive(Drop)]
pub struct FuncType {
    /// Its parameters, in order.
    pub params: Seq<Param>,
    /// The type of its result, if it has one.
    pub result: Option<ValTypeRef>,
}

/// A type that is defined (Component Model, Binary.md, `deftype`).
#[cycle(def_types)]
#[derive(Drop)]
pub enum DefType {
    /// The type of values.
    Value(DefValType),
    /// The type of a function.
    Func(FuncType),
    /// The type of an instance: its declarations, in order.
    Instance(Seq<InstanceDecl>),
    /// A type of resources, with the index of the core function that destroys them, if there is one.
    Resource(Option<u32>),
}

/// A declaration of an instance type (Component Model, Binary.md, `instancedecl`). It adds an index to a space of the
/// instance type.
#[cycle(def_types)]
#[derive(Drop)]
pub enum InstanceDecl {
    /// A type.
    Type(DefType),
    /// An alias.
    Alias(Alias),
    /// An export that instances of this type have.
    Export {
        /// The name.
        name: Name,
        /// What it is.
        desc: ExternDesc,
    },
}
