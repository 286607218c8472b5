//! Sorts of definitions.

ghost use Rattle.ca_base.specs.Grammar.{Reads};
ghost use Rattle.comp_reader.specs.Binary.{core_sort, any_sort};

use ca_base::{Refusal, Window};
use comp_tree::{CoreSort, Sort};
use part_reader::{ComponentWhy, unsupported};

/// Reads a core sort (Component Model, Binary.md, `core:sort`).
#[tactic(auto, unfolding(crate::specs::Binary::core_sort))]
pub(crate) fn read_core_sort(
    window: &mut Window<ComponentWhy>,
) -> Result<CoreSort, Refusal<ComponentWhy>>
    ensures { Reads (λ sort. sort) core_sort window.old window.new result }
{
    let place = window.at();
    let byte = window.byte()?;
    match byte {
        0x00 => Ok(CoreSort::Func),
        0x01 => Ok(CoreSort::Table),
        0x02 => Ok(CoreSort::Memory),
        0x03 => Ok(CoreSort::Global),
        0x11 => Ok(CoreSort::Module),
        0x12 => Ok(CoreSort::Instance),
        _ => Err(unsupported(place, byte)),
    }
}

/// Reads a sort (Component Model, Binary.md, `sort`).
#[tactic(auto, unfolding(crate::specs::Binary::any_sort))]
pub(crate) fn read_sort(window: &mut Window<ComponentWhy>) -> Result<Sort, Refusal<ComponentWhy>>
    ensures { Reads (λ sort. sort) any_sort window.old window.new result }
{
    let place = window.at();
    let byte = window.byte()?;
    match byte {
        0x00 => {
            let inner = read_core_sort(window)?;
            Ok(Sort::Core(inner))
        }
        0x01 => Ok(Sort::Func),
        0x03 => Ok(Sort::Type),
        0x04 => Ok(Sort::Component),
        0x05 => Ok(Sort::Instance),
        _ => Err(unsupported(place, byte)),
    }
}
