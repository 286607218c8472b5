//! Types of values: primitive types, and indices of types.

ghost use Rattle.std.specs.Prelude.{◌≡◌};
ghost use Rattle.ca_base.specs.Grammar.{Reads};
ghost use Rattle.part_reader.specs.Types.{primitive, val_type, maybe_val_type};

use crate::fault::{ComponentWhy, refused_type, unsupported};
use ca_base::{Kind, ReadError, Refusal, Window};
use comp_tree::{PrimValType, ValTypeRef};
use std::alloc::Global;

/// The primitive type of a byte (Component Model, Binary.md, `primvaltype`).
#[tactic(auto, unfolding(crate::specs::Types::primitive))]
pub(crate) fn primitive(byte: u8) -> Option<PrimValType>
    ensures { result ≡ primitive byte }
{
    match byte {
        0x7F => Some(PrimValType::Bool),
        0x7E => Some(PrimValType::S8),
        0x7D => Some(PrimValType::U8),
        0x7C => Some(PrimValType::S16),
        0x7B => Some(PrimValType::U16),
        0x7A => Some(PrimValType::S32),
        0x79 => Some(PrimValType::U32),
        0x78 => Some(PrimValType::S64),
        0x77 => Some(PrimValType::U64),
        0x74 => Some(PrimValType::Char),
        0x73 => Some(PrimValType::String),
        _ => None,
    }
}

/// Reads a value type (Component Model, Binary.md, `valtype`).
#[tactic(auto, unfolding(crate::specs::Types::val_type))]
pub(crate) fn read_val_type(
    window: &mut Window<ComponentWhy>,
) -> Result<ValTypeRef, Refusal<ComponentWhy>>
    ensures { Reads (λ t. t) val_type window.old window.new result }
{
    let place = window.at();
    let first = window.next().unwrap_or(0);
    let number = window.s33()?;
    if 0 <= number && number < 1 << 32 {
        return Ok(ValTypeRef::Index(number as u32));
    }
    if let Some(found) = primitive(first) {
        return Ok(ValTypeRef::Primitive(found));
    }
    Err(refused_type(place, first))
}

/// Reads a value type that may be absent (Component Model, Binary.md, `<valtype>?`).
#[tactic(auto, unfolding(crate::specs::Types::maybe_val_type))]
pub(crate) fn read_maybe_val_type(
    window: &mut Window<ComponentWhy>,
) -> Result<Option<ValTypeRef>, Refusal<ComponentWhy>>
    ensures { Reads (λ t. t) maybe_val_type window.old window.new result }
{
    let place = window.at();
    let byte = window.byte()?;
    if byte == 0 {
        return Ok(None);
    }
    if byte == 1 {
        let val_type = read_val_type(window)?;
        return Ok(Some(val_type));
    }
    Err(unsupported(place, byte))
}

/// Value types, as the places of tuples are.
pub(crate) struct ValTypes;

impl Kind for ValTypes {
    ghost use Rattle.part_reader.specs.Types.{val_type};

    type Why = ComponentWhy;

    type Item = ValTypeRef;

    ghost grammar = { val_type };

    fn read(
        _alloc: Global,
        window: &mut Window<ComponentWhy>,
    ) -> Result<ValTypeRef, ReadError<ComponentWhy>> {
        let read = read_val_type(window)?;
        Ok(read)
    }
}
