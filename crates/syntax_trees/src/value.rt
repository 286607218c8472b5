//! Values.

use crate::boxed::Boxed;
use crate::name::Name;
use crate::seq::Seq;

/// A value of a component. A tuple is the record of its places, and an enum, an option and a result are variants
/// (Component Model, CanonicalABI.md, "Despecialization").
#[derive(Drop)]
pub enum Value {
    /// A truth value.
    Bool(bool),
    /// A signed 8-bit integer.
    S8(i8),
    /// An unsigned 8-bit integer.
    U8(u8),
    /// A signed 16-bit integer.
    S16(i16),
    /// An unsigned 16-bit integer.
    U16(u16),
    /// A signed 32-bit integer.
    S32(i32),
    /// An unsigned 32-bit integer.
    U32(u32),
    /// A signed 64-bit integer.
    S64(i64),
    /// An unsigned 64-bit integer.
    U64(u64),
    /// A Unicode scalar value.
    Char(char),
    /// A text.
    String(Name),
    /// The elements of a list, in order.
    List(Seq<Value>),
    /// The values of the fields of a record, or of the places of a tuple, in order.
    Record(Seq<Value>),
    /// A case, by its number counted from 0, and its payload where it has one. Of an option none is case 0 and some
    /// case 1, of a result ok is case 0 and err case 1, and of an enum each label is a case.
    Variant(u32, Option<Boxed<Value>>),
    /// Whether each label of the type is set, in the order of the labels.
    Flags(Seq<bool>),
    /// An owning handle.
    Own(Handle),
    /// A borrowing handle.
    Borrow(Handle),
    /// The readable end of the stream with this number.
    Stream(u32),
    /// The readable end of the future with this number.
    Future(u32),
}

/// What a handle refers to.
#[derive(Clone, Copy)]
pub struct Handle {
    /// The number of the resource's type.
    pub resource: u32,
    /// The resource's representation.
    pub rep: u32,
}

/// A list of values.
pub type Values = Seq<Value>;
