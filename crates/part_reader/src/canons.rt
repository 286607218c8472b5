//! Canonical functions.

ghost use Rattle.ca_base.specs.Grammar.{MayRead};
ghost use Rattle.part_reader.specs.Canons.{lift, lower, canon};

use crate::builtins::read_builtin;
use crate::fault::ComponentWhy;
use crate::options::CanonOptions;
use ca_base::{ReadError, Window, read_vec};
use comp_tree::Canon;
use std::alloc::Global;

/// Reads a lift behind its first byte (Component Model, Binary.md, `canon`).
#[tactic(auto, unfolding(crate::specs::Canons::lift))]
fn read_lift(
    alloc: Global,
    window: &mut Window<ComponentWhy>,
) -> Result<Canon, ReadError<ComponentWhy>>
    ensures { MayRead (λ read. read) lift window.old window.new result }
{
    window.marker(0)?;
    let core_func = window.u32()?;
    let options = read_vec::<CanonOptions>(alloc, window)?;
    let func_type = window.u32()?;
    Ok(Canon::Lift {
        core_func,
        options,
        func_type,
    })
}

/// Reads a lower, behind its first byte (Component Model, Binary.md, `canon`).
#[tactic(auto, unfolding(crate::specs::Canons::lower))]
fn read_lower(
    alloc: Global,
    window: &mut Window<ComponentWhy>,
) -> Result<Canon, ReadError<ComponentWhy>>
    ensures { MayRead (λ read. read) lower window.old window.new result }
{
    window.marker(0)?;
    let func = window.u32()?;
    let options = read_vec::<CanonOptions>(alloc, window)?;
    Ok(Canon::Lower { func, options })
}

/// Reads a canonical function (Component Model, Binary.md, `canon`).
///
/// Its refusals are those of `canon` in `specs/Canons`: a byte that no rule has in its place (`Unsupported`), that of a type of floats
/// as the result of `task.return` (`Float`), a number that is too long (`Leb`), and the window's end. `Memory` is want of memory.
#[tactic(auto, unfolding(crate::specs::Canons::canon))]
pub fn read_canon(
    alloc: Global,
    window: &mut Window<ComponentWhy>,
) -> Result<Canon, ReadError<ComponentWhy>>
    ensures { MayRead (λ read. read) canon window.old window.new result }
{
    let place = window.at();
    let byte = window.byte()?;
    if byte == 0 {
        return read_lift(alloc, window);
    }
    if byte == 1 {
        return read_lower(alloc, window);
    }
    let builtin = read_builtin(alloc, place, byte, window)?;
    Ok(Canon::Builtin(builtin))
}
