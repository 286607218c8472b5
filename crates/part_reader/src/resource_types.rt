//! Types of resources.

ghost use Rattle.ca_base.specs.Grammar.{Reads};
ghost use Rattle.part_reader.specs.Types.{destructor, resource_type};

use crate::fault::{ComponentWhy, unsupported};
use ca_base::{Refusal, Window};

/// Reads the index of a destructor, if there is one (Component Model, Binary.md, `resourcetype`).
#[tactic(auto, unfolding(crate::specs::Types::destructor))]
fn read_destructor(window: &mut Window<ComponentWhy>) -> Result<Option<u32>, Refusal<ComponentWhy>>
    ensures { Reads (λ read. read) destructor window.old window.new result }
{
    let place = window.at();
    let byte = window.byte()?;
    match byte {
        0x00 => Ok(None),
        0x01 => Ok(Some(window.u32()?)),
        _ => Err(unsupported(place, byte)),
    }
}

/// Reads what stands behind the first byte of a type of resources, and answers the index of its destructor, if it has one
/// (Component Model, Binary.md, `resourcetype`).
///
/// It is refused where no 7F comes next, or a byte that is neither 00 nor 01 behind it (`Unsupported`), where the index is too long a
/// number (`Leb`), and where it passes the window's end.
#[tactic(auto, unfolding(crate::specs::Types::resource_type))]
pub fn read_resource_type(
    window: &mut Window<ComponentWhy>,
) -> Result<Option<u32>, Refusal<ComponentWhy>>
    ensures { Reads (λ read. read) resource_type window.old window.new result }
{
    window.marker(0x7F)?;
    read_destructor(window)
}
