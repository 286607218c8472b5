//! Options of canonical functions, and flags.

ghost use Rattle.ca_base.specs.Grammar.{Reads};
ghost use Rattle.part_reader.specs.Options.{flag};

use crate::fault::{ComponentWhy, unsupported};
use ca_base::{Kind, ReadError, Refusal, Window};
use comp_tree::CanonOption;
use std::alloc::Global;

/// Options of canonical functions (Component Model, Binary.md, `canonopt`).
pub(crate) struct CanonOptions;

impl Kind for CanonOptions {
    ghost use Rattle.part_reader.specs.Options.{canon_option};

    type Why = ComponentWhy;

    type Item = CanonOption;

    ghost grammar = { canon_option };

    #[tactic(auto, unfolding(crate::specs::Options::canon_option))]
    fn read(
        _alloc: Global,
        window: &mut Window<ComponentWhy>,
    ) -> Result<CanonOption, ReadError<ComponentWhy>> {
        let place = window.at();
        let byte = window.byte()?;
        match byte {
            0x00 => Ok(CanonOption::Utf8),
            0x03 => Ok(CanonOption::Memory(window.u32()?)),
            0x04 => Ok(CanonOption::Realloc(window.u32()?)),
            0x05 => Ok(CanonOption::PostReturn(window.u32()?)),
            0x06 => Ok(CanonOption::Async),
            0x07 => Ok(CanonOption::Callback(window.u32()?)),
            _ => Err(ReadError::Fault(unsupported(place, byte))),
        }
    }
}

/// Reads a flag (Component Model, Binary.md, `async?`, `cancel?`).
#[tactic(auto, unfolding(crate::specs::Options::flag))]
pub(crate) fn read_flag(window: &mut Window<ComponentWhy>) -> Result<bool, Refusal<ComponentWhy>>
    ensures { Reads (λ read. read) flag window.old window.new result }
{
    let place = window.at();
    let byte = window.byte()?;
    match byte {
        0x00 => Ok(false),
        0x01 => Ok(true),
        _ => Err(unsupported(place, byte)),
    }
}
