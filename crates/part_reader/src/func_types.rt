//! Types of functions.

ghost use Rattle.ca_base.specs.Grammar.{Reads, MayRead};
ghost use Rattle.part_reader.specs.Types.{func_result, func_type};

use crate::fault::{ComponentWhy, unsupported};
use crate::names::read_name;
use crate::val_types::read_val_type;
use ca_base::{Kind, ReadError, Refusal, Window, read_vec};
use comp_tree::{FuncType, Param, ValTypeRef};
use std::alloc::Global;

/// Parameters (Component Model, Binary.md, `labelvaltype`).
struct Params;

impl Kind for Params {
    ghost use Rattle.part_reader.specs.Types.{param};

    type Why = ComponentWhy;

    type Item = Param;

    ghost grammar = { param };

    #[tactic(auto, unfolding(crate::specs::Types::param))]
    fn read(
        alloc: Global,
        window: &mut Window<ComponentWhy>,
    ) -> Result<Param, ReadError<ComponentWhy>> {
        let label = read_name(alloc, window)?;
        let val_type = read_val_type(window)?;
        Ok(Param { label, val_type })
    }
}

/// Reads the result of a function (Component Model, Binary.md, `resultlist`).
#[tactic(auto, unfolding(crate::specs::Types::func_result))]
pub(crate) fn read_result(
    window: &mut Window<ComponentWhy>,
) -> Result<Option<ValTypeRef>, Refusal<ComponentWhy>>
    ensures { Reads (λ r. r) func_result window.old window.new result }
{
    let place = window.at();
    let byte = window.byte()?;
    if byte == 0 {
        let val_type = read_val_type(window)?;
        return Ok(Some(val_type));
    }
    if byte == 1 {
        window.marker(0)?;
        return Ok(None);
    }
    Err(unsupported(place, byte))
}

/// Reads the parameters and the result of a function type (Component Model, Binary.md, `functype`).
///
/// Its refusals are those of `func_type` in `specs/Types`, of the same kinds as those of types of values. `Memory` is want of memory.
#[tactic(auto, unfolding(crate::specs::Types::func_type))]
pub fn read_func_type(
    alloc: Global,
    window: &mut Window<ComponentWhy>,
) -> Result<FuncType, ReadError<ComponentWhy>>
    ensures { MayRead (λ t. t) func_type window.old window.new result }
{
    let params = read_vec::<Params>(alloc, window)?;
    let returned = read_result(window)?;
    Ok(FuncType {
        params,
        result: returned,
    })
}
