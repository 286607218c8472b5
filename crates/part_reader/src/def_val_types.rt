//! Types of values that are defined: records, variants, and the others whose parts are types before them.

ghost use Rattle.ca_base.specs.Grammar.{Reads, MayRead};
ghost use Rattle.part_reader.specs.Types.{handle_or_primitive, def_val_type};

use crate::fault::{ComponentWhy, refused_type};
use crate::names::{Labels, read_name};
use crate::val_types::{ValTypes, primitive, read_maybe_val_type, read_val_type};
use ca_base::{Kind, ReadError, Refusal, Window, read_vec};
use comp_tree::{Case, DefValType, Field};
use std::alloc::Global;

/// Fields of records (Component Model, Binary.md, `labelvaltype`).
struct Fields;

impl Kind for Fields {
    ghost use Rattle.part_reader.specs.Types.{field};

    type Why = ComponentWhy;

    type Item = Field;

    ghost grammar = { field };

    #[tactic(auto, unfolding(crate::specs::Types::field))]
    fn read(
        alloc: Global,
        window: &mut Window<ComponentWhy>,
    ) -> Result<Field, ReadError<ComponentWhy>> {
        let label = read_name(alloc, window)?;
        let val_type = read_val_type(window)?;
        Ok(Field { label, val_type })
    }
}

/// Cases of variants (Component Model, Binary.md, `case`).
struct Cases;

impl Kind for Cases {
    ghost use Rattle.part_reader.specs.Types.{variant_case};

    type Why = ComponentWhy;

    type Item = Case;

    ghost grammar = { variant_case };

    #[tactic(auto, unfolding(crate::specs::Types::variant_case))]
    fn read(
        alloc: Global,
        window: &mut Window<ComponentWhy>,
    ) -> Result<Case, ReadError<ComponentWhy>> {
        let label = read_name(alloc, window)?;
        let payload = read_maybe_val_type(window)?;
        window.marker(0)?;
        Ok(Case { label, payload })
    }
}

/// Reads the type of handles, of streams or of futures that a byte at this place begins, or a primitive one (Component Model,
/// Binary.md, `defvaltype`).
#[tactic(auto, unfolding(crate::specs::Types::handle_or_primitive))]
fn read_handle_or_primitive(
    place: usize,
    byte: u8,
    window: &mut Window<ComponentWhy>,
) -> Result<DefValType, Refusal<ComponentWhy>>
    ensures { Reads (λ t. t) (handle_or_primitive place byte) window.old window.new result }
{
    match byte {
        0x69 => Ok(DefValType::Own(window.u32()?)),
        0x68 => Ok(DefValType::Borrow(window.u32()?)),
        0x66 => Ok(DefValType::Stream(read_maybe_val_type(window)?)),
        0x65 => Ok(DefValType::Future(read_maybe_val_type(window)?)),
        _ => match primitive(byte) {
            Some(found) => Ok(DefValType::Primitive(found)),
            None => Err(refused_type(place, byte)),
        },
    }
}

/// Reads the type of values that a byte at this place begins (Component Model, Binary.md, `defvaltype`).
///
/// Its refusals are those of `def_val_type` in `specs/Types`: a byte of a type of floats (`Float`), one that no rule has in its place
/// (`Unsupported`), a number that is too long (`Leb`), a name that is not UTF-8 (`Utf8`), and the window's end. `Memory` is want of
/// memory.
#[tactic(auto, unfolding(crate::specs::Types::def_val_type))]
pub fn read_def_val_type(
    alloc: Global,
    place: usize,
    byte: u8,
    window: &mut Window<ComponentWhy>,
) -> Result<DefValType, ReadError<ComponentWhy>>
    ensures { MayRead (λ t. t) (def_val_type place byte) window.old window.new result }
{
    if byte == 0x72 {
        let fields = read_vec::<Fields>(alloc, window)?;
        return Ok(DefValType::Record(fields));
    }
    if byte == 0x71 {
        let cases = read_vec::<Cases>(alloc, window)?;
        return Ok(DefValType::Variant(cases));
    }
    if byte == 0x70 {
        let element = read_val_type(window)?;
        return Ok(DefValType::List(element));
    }
    if byte == 0x6F {
        let places = read_vec::<ValTypes>(alloc, window)?;
        return Ok(DefValType::Tuple(places));
    }
    if byte == 0x6E {
        let labels = read_vec::<Labels>(alloc, window)?;
        return Ok(DefValType::Flags(labels));
    }
    if byte == 0x6D {
        let labels = read_vec::<Labels>(alloc, window)?;
        return Ok(DefValType::Enum(labels));
    }
    if byte == 0x6B {
        let payload = read_val_type(window)?;
        return Ok(DefValType::Option(payload));
    }
    if byte == 0x6A {
        let ok = read_maybe_val_type(window)?;
        let err = read_maybe_val_type(window)?;
        return Ok(DefValType::Result { ok, err });
    }
    let found = read_handle_or_primitive(place, byte, window)?;
    Ok(found)
}
