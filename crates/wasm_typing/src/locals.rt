//! The types of the locals of a function (Core 2.0, section 2.5.3), in a list.

ghost use Rattle.std.specs.Prelude.{◌≡◌, ◌++◌, replicate, IfOk};
ghost use Rattle.syntax_trees.specs.Locals.{local_types};

use std::alloc::{AllocError, Global};
use syntax_trees::Locals;
use syntax_trees::module_types::{FuncType, ValType};

/// The types of all locals of a function of this type (Core 2.0, section 2.5.3): its parameters, and behind them the
/// declared ones. It fails for want of memory alone.
pub fn local_types(
    alloc: Global,
    func_type: &FuncType,
    locals: &[Locals],
) -> Result<Vec<ValType>, AllocError>
    ensures { IfOk result (λ v. v.items ≡ local_types func_type.now locals.now) }
{
    let mut types = Vec::from_slice(alloc, func_type.params.as_slice())?;
    for group in locals {
        let read = *group;
        push_copies(&mut types, read.count, read.val_type)?;
    }
    Ok(types)
}

/// Puts so many copies of a type behind the others.
fn push_copies(types: &mut Vec<ValType>, count: u32, val_type: ValType) -> Result<(), AllocError>
    ensures { IfOk result (λ _. types.new.items ≡ types.old.items ++ replicate count val_type) }
{
    for index in 0..count {
        types.push(val_type)?;
    }
    Ok(())
}
