//! Types of core functions of few parameters.

ghost use Rattle.std.specs.Prelude.{◌≡◌, option_to_list};

use crate::few_types::FewTypes;
use std::marker::Model;
use std::slice;
use syntax_trees::module_types::ValType;

/// The type of a core function that the Canonical ABI makes or asks for (Component Model, CanonicalABI.md, "Flattening"): at most 17
/// parameters, and one result. Contracts see the type.
#[derive(Drop)]
pub struct CoreFuncType {
    params: FewTypes,
    returned: Option<ValType>,
}

impl Model for CoreFuncType {
    ghost use Rattle.std.specs.Prelude.{option_to_list};
    ghost use Rattle.syntax_trees.specs.declared.module_types.FuncType as func_types;
    ghost use Rattle.syntax_trees.specs.contracts.module_types.FuncType as func_type;

    ghost Value = { func_types.FuncType };

    ghost coded = { func_type.the_row.coded };

    ghost view = { λ t. record { params = t.params; results = option_to_list t.returned } };
}

impl CoreFuncType {
    /// The type of these parameters, and of this result, if there is one.
    pub fn new(params: FewTypes, returned: Option<ValType>) -> CoreFuncType
        ensures { result ≡ record { params = params; results = option_to_list returned } }
    {
        CoreFuncType { params, returned }
    }

    /// The types of its parameters.
    pub fn params(&self) -> &[ValType]
        ensures { result.now ≡ self.now.params }
    {
        self.params.as_slice()
    }

    /// The types of its results.
    pub fn results(&self) -> &[ValType]
        ensures { result.now ≡ self.now.results }
    {
        match &self.returned {
            Some(only) => slice::from_ref(only),
            None => &[],
        }
    }

    /// The same type.
    pub fn again(&self) -> CoreFuncType
        ensures { result ≡ self.now }
    {
        CoreFuncType {
            params: self.params.again(),
            returned: self.returned,
        }
    }
}
