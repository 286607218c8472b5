//! Function types, each with what lifts and lowers ask of it.

ghost use Rattle.std.specs.Prelude.{◌≡◌, IfOk};
ghost use Rattle.link_types.specs.Labels.{AreValues, IsFuncOf};
ghost use Rattle.link_types.specs.Laid.{IsLaid};

use crate::labels::{LabelledType, closed_func};
use crate::laid_func::LaidFunc;
use comp_graph::{NumberedFunc, graph_number};
use link_values::ValueTypes;
use std::alloc::{AllocError, Global};
use std::marker::Model;
use syntax_trees::{FuncType, Shared};

/// A function type, with what lifts and lowers ask of it. Contracts see the function type.
#[derive(Drop)]
pub(crate) struct KeptFunc {
    func_type: Shared<FuncType>,
    laid: LaidFunc,
}

impl Model for KeptFunc {
    ghost use Rattle.syntax_trees.specs.declared.types.FuncType.{FuncType};
    ghost use Rattle.syntax_trees.specs.contracts.types.FuncType as func_type_row;
    ghost use Rattle.link_types.specs.Laid.{IsLaid};

    ghost Value = { FuncType };

    ghost coded = { func_type_row.the_row.coded };

    ghost view = { λ f. f.func_type };

    ghost invariant = { λ f. IsLaid f.laid f.func_type };
}

impl KeptFunc {
    /// The function type of parameters and a result, each by the number of its value type. It fails for want of memory alone.
    pub(crate) fn of(
        alloc: Global,
        values: &ValueTypes<'_>,
        params: &[LabelledType<'_>],
        returned: Option<usize>,
    ) -> Result<KeptFunc, AllocError>
        requires { AreValues values.now params.now returned }
        ensures { IfOk result (λ f. IsFuncOf values.now params.now returned f) }
    {
        let func_type = closed_func(alloc, values, params, returned)?;
        let laid = LaidFunc::of(alloc, values, params, returned)?;
        let func_type = Shared::new(alloc, func_type)?;
        Ok(KeptFunc { func_type, laid })
    }

    /// The function type.
    pub(crate) fn func_type(&self) -> &Shared<FuncType>
        ensures { result.now ≡ self.now }
    {
        &self.func_type
    }

    /// The function type with the numbers of the types of what is passed. It fails where there are as many owners as can be counted,
    /// or where a number has more than 32 bits.
    pub(crate) fn numbered(
        &self,
        params: usize,
        returned: Option<usize>,
    ) -> Result<NumberedFunc, AllocError>
        ensures { IfOk result (λ f. f ≡ record { func_type = self.now; params = params; returned = returned }) }
    {
        let func_type = self.func_type.share()?;
        Ok(NumberedFunc {
            func_type,
            params: graph_number(params)?,
            returned: held_number(returned)?,
        })
    }

    /// What lifts and lowers ask of it.
    pub(crate) fn laid(&self) -> &LaidFunc
        ensures { IsLaid result.now self.now }
    {
        &self.laid
    }
}

/// The number, as graphs have it, if there is one.
fn held_number(number: Option<usize>) -> Result<Option<u32>, AllocError>
    ensures { IfOk result (λ n. n ≡ number) }
{
    match number {
        Some(number) => Ok(Some(graph_number(number)?)),
        None => Ok(None),
    }
}
