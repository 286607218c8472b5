//! Names, labels, and names of imports and exports.

ghost use Rattle.ca_base.specs.Grammar.{MayRead};
ghost use Rattle.ca_base.specs.Items.{name};
ghost use Rattle.part_reader.specs.Names.{extern_name};
ghost use Rattle.part_reader.specs.Reasons.{numbers};

use crate::fault::{ComponentWhy, unsupported};
use ca_base::{Kind, ReadError, Window};
use std::alloc::Global;
use syntax_trees::Name;

/// Reads a name, and keeps it (Core 2.0, section 5.2.4).
///
/// It is refused where its length is too long a number (`Leb`), where it passes the window's end, and where it is not UTF-8 (`Utf8`).
/// `Memory` is want of memory.
pub fn read_name(
    alloc: Global,
    window: &mut Window<ComponentWhy>,
) -> Result<Name, ReadError<ComponentWhy>>
    ensures { MayRead (λ n. n) (name numbers) window.old window.new result }
{
    let text = window.name()?;
    let kept = Name::new(alloc, text)?;
    Ok(kept)
}

/// Labels, as those of flags and enums (Component Model, Binary.md, `label'`).
pub(crate) struct Labels;

impl Kind for Labels {
    ghost use Rattle.ca_base.specs.Items.{name};
    ghost use Rattle.part_reader.specs.Reasons.{numbers};

    type Why = ComponentWhy;

    type Item = Name;

    ghost grammar = { name numbers };

    fn read(
        alloc: Global,
        window: &mut Window<ComponentWhy>,
    ) -> Result<Name, ReadError<ComponentWhy>> {
        read_name(alloc, window)
    }
}

/// Reads the name of an import or an export (Component Model, Binary.md, `importname'`, `exportname'`).
///
/// It is refused where its first byte is neither 00 nor 01 (`Unsupported`), and else as a name is. `Memory` is want of memory.
#[tactic(auto, unfolding(crate::specs::Names::extern_name))]
pub fn read_extern_name(
    alloc: Global,
    window: &mut Window<ComponentWhy>,
) -> Result<Name, ReadError<ComponentWhy>>
    ensures { MayRead (λ n. n) extern_name window.old window.new result }
{
    let place = window.at();
    let byte = window.byte()?;
    if byte == 0 || byte == 1 {
        return read_name(alloc, window);
    }
    Err(ReadError::Fault(unsupported(place, byte)))
}
