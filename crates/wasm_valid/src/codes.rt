//! The bodies of functions, each in the context of its function (Core 2.0, section 3.4.1).

use crate::walk::body_fault;
use faults::{MemoryOr, Rule};
use std::alloc::Global;
use syntax_trees::Func;
use wasm_typing::{Context, Fault, LocalTypes, Space, Spot};

/// Bodies of functions whose types are there.
#[derive(Drop)]
pub(crate) struct CodeRule<'a> {
    /// The module.
    pub space: &'a Space<'a>,
}

impl<'a> Rule for CodeRule<'a> {
    ghost use Rattle.wasm_typing.specs.Finding.{code_fault};

    type Item = Func;

    type Fault = Fault;

    ghost fault = { λ rule. code_fault rule.space.now };

    fn check(&self, alloc: Global, before: &[Func], func: &Func) -> Result<(), MemoryOr<Fault>> {
        let types = self.space.tree().types.as_slice();
        let Some(func_type) = types.get(func.type_index as usize) else {
            return Ok(());
        };
        let params = func_type.params.as_slice();
        let locals = LocalTypes::of(alloc, params, func.locals.as_slice())?;
        let context = Context {
            types,
            funcs: self.space.funcs(),
            tables: self.space.table_count(),
            memories: self.space.memory_count(),
            globals: self.space.globals(),
            locals,
            results: func_type.results.as_slice(),
        };
        match body_fault(alloc, &context, func.type_index, &func.body)? {
            None => Ok(()),
            Some(found) => {
                let spot = Spot::Op(before.len(), found.at);
                Err(MemoryOr::Fault(Fault::at(spot, found.why)))
            }
        }
    }
}
