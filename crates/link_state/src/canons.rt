//! The core functions that functions are lowered to.

ghost use Rattle.std.specs.Prelude.{◌≡◌, IfOk, IfSome, Some};
ghost use Rattle.syntax_trees.specs.declared.types.FuncType as closed;
ghost use Rattle.comp_graph.specs.declared.graph.CanonFunc.TheVariants as canon_func;
ghost use Rattle.comp_graph.specs.Passed.{HasCanonType};
ghost use Rattle.link_types.specs.Table.{IsFunc};
ghost use Rattle.link_state.specs.State.{type_table};

use comp_graph::{CanonFunc, Lower, Options};
use link_instances::LiftedRef;
use link_types::Types;
use std::alloc::{AllocError, Global};
use syntax_trees::Boxed;

/// The core function that a function is lowered to, with these options, in the component instance of this number, where its type is
/// there. The tree of the type is shared. It fails for want of memory alone.
pub fn lowered_to(
    alloc: Global,
    types: &Types<'_>,
    instance: u32,
    func: LiftedRef,
    options: Options,
) -> Result<Option<CanonFunc>, AllocError>
    ensures lowered { IfOk result (λ made. (f : closed.FuncType) → IsFunc types.now func.func_type f → made ≡ Some (canon_func.Lower (record { instance = instance; lift = record { instance = func.instance; core = func.core; options = func.options }; func_type = f; options = options }))) }
    ensures typed { IfOk result (λ made. IfSome made (λ f. HasCanonType (type_table types.now) (Some func.func_type.number) f)) }
{
    let Some(func_type) = types.func_at(func.func_type) else {
        return Ok(None);
    };
    let func_type = func_type.share()?;
    let lower = Lower {
        instance,
        lift: func.lift(),
        func_type,
        options,
    };
    Ok(Some(CanonFunc::Lower(Boxed::new(alloc, lower)?)))
}
