//! Functions of a store.

ghost use Rattle.std.specs.Prelude.{◌≡◌, length};
ghost use Rattle.std.specs.List.{slice_get};
ghost use Rattle.wasm_typing.specs.Context.{arrow, found_type};
ghost use Rattle.wasm_store.specs.Store.{type_of};
ghost use Rattle.wasm_store.specs.Step.{same_signature};
ghost use Rattle.wasm_store.specs.Views.{function_of};

use std::rc::Rc;
use syntax_trees::module_types::{FuncType, ValType};
use syntax_trees::{DeclaredLocals, Seq, are_same};
use wasm_code::Code;

/// A function of an instance (Core 2.0, section 4.2.6).
#[derive(Drop)]
pub struct OwnFunction {
    /// The types of its module.
    pub types: Rc<Seq<FuncType>>,
    /// The index of its type among them.
    pub type_index: usize,
    /// The address of its instance.
    pub instance: usize,
    /// Its locals behind the parameters.
    pub locals: DeclaredLocals,
    /// What it does.
    pub code: Rc<Code>,
}

/// A function of a store (Core 2.0, section 4.2.6).
#[derive(Drop)]
pub enum FunctionInstance {
    /// One of an instance.
    Own(OwnFunction),
    /// One of the host, with its type.
    Host(FuncType),
}

impl OwnFunction {
    /// How many parameters it has.
    pub fn param_count(&self) -> usize
        ensures { result ≡ length (found_type (slice_get self.now.types.value self.now.type_index)).params }
    {
        match self.types.as_slice().get(self.type_index) {
            None => 0,
            Some(found) => found.params.as_slice().len(),
        }
    }

    /// How many results it gives.
    pub fn result_count(&self) -> usize
        ensures { result ≡ length (found_type (slice_get self.now.types.value self.now.type_index)).results }
    {
        match self.types.as_slice().get(self.type_index) {
            None => 0,
            Some(found) => found.results.as_slice().len(),
        }
    }
}

impl FunctionInstance {
    /// The types of its parameters.
    pub fn params(&self) -> &[ValType]
        ensures { result.now ≡ (type_of (function_of self.now)).params }
    {
        match self {
            FunctionInstance::Own(own) => match own.types.as_slice().get(own.type_index) {
                None => &[],
                Some(found) => found.params.as_slice(),
            },
            FunctionInstance::Host(found) => found.params.as_slice(),
        }
    }

    /// The types of its results.
    pub fn results(&self) -> &[ValType]
        ensures { result.now ≡ (type_of (function_of self.now)).results }
    {
        match self {
            FunctionInstance::Own(own) => match own.types.as_slice().get(own.type_index) {
                None => &[],
                Some(found) => found.results.as_slice(),
            },
            FunctionInstance::Host(found) => found.results.as_slice(),
        }
    }

    /// Whether it is of a type.
    pub fn has_type(&self, func_type: &FuncType) -> bool
        ensures { result ≡ same_signature func_type.now (type_of (function_of self.now)) }
    {
        is_like(func_type, self.params(), self.results())
    }
}

/// Whether a function type has these parameters and these results.
fn is_like(func_type: &FuncType, params: &[ValType], results: &[ValType]) -> bool
    ensures { result ≡ same_signature func_type.now (arrow params.now results.now) }
{
    are_same(func_type.params.as_slice(), params) && are_same(func_type.results.as_slice(), results)
}
