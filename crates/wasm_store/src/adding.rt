//! Instances of modules (Core 2.0, sections 4.5.3 and 4.5.4).

ghost use Rattle.std.specs.Prelude.{◌≡◌, ◌+◌, ◌<◌, ◌≤◌, ◌++◌, length, map, IfOk, OnOk, OnErr, IfErr, Some, vec_len, vec_capacity};
ghost use Rattle.std.specs.List.{slice_get};
ghost use Rattle.std.specs.Option.{option_and_then};
ghost use Rattle.wasm_store.specs.Store.{Instance};
ghost use Rattle.wasm_store.specs.Instantiation.{with_host, instantiated, allocated, ImportsMatch, InRange, Makes};
ghost use Rattle.wasm_typing.specs.Modules.{Typed};
ghost use Rattle.wasm_store.specs.Views.{address_of};
ghost use Rattle.wasm_store.specs.Parts.{ArePartsOf, FailsBy, ToldRange};

use crate::addresses::address_at;
use crate::function::FunctionInstance;
use crate::parts::Parts;
use crate::store::Store;
use faults::Memory;
use std::alloc::{AllocError, Global};
use syntax_trees::module_types::FuncType;
use thiserror::Error;
use wasm_code::External;
use wasm_typing::Valid;

/// Why a module has no instance.
#[derive(Clone, Copy, Debug, Error)]
pub enum AddFault {
    /// A segment does not fit into its table or memory. The segments before it stay written.
    #[error("a segment does not fit into its table or memory")]
    SegmentBounds,
    /// No memory was left.
    #[error("no memory was left")]
    Memory,
}

impl From<AllocError> for AddFault {
    ghost use Rattle.wasm_store.specs.declared.adding.AddFault.TheVariants.{Memory};

    ghost from_gives = { λ _ e. e ≡ Memory };

    fn from(_error: AllocError) -> AddFault {
        AddFault::Memory
    }
}

impl Store {
    /// Adds a function of the host, of this type, and answers its address.
    ///
    /// `Memory` comes where memory runs out, and then nothing changes.
    pub fn host(&mut self, func_type: FuncType) -> Result<usize, Memory>
        ensures address { IfOk result (λ address. address ≡ length self.old.funcs) }
        ensures added { OnOk result (self.new ≡ with_host func_type self.old) }
        ensures unchanged { OnErr result (self.new ≡ self.old) }
    {
        let address = self.functions.len();
        self.functions.push(FunctionInstance::Host(func_type))?;
        Ok(address)
    }

    /// Makes an instance of a module with imports of the types that it asks for, and answers its address.
    ///
    /// `SegmentBounds` comes where a segment does not fit: what stands before it stays, the instance and its memories among
    /// it. `Memory` comes where memory runs out, and then nothing changes. With the clause `range` the law
    /// `added_modules_are_typed` says of the new store that it extends the old one.
    pub fn add(
        &mut self,
        alloc: Global,
        valid: &Valid,
        imports: &[External],
    ) -> Result<usize, AddFault>
        requires { ImportsMatch self.old valid.now (map address_of imports.now) }
        ensures address { IfOk result (λ address. address ≡ length self.old.instances) }
        ensures makes { IfOk result (λ _. instantiated valid.now (map address_of imports.now) self.old ≡ Makes self.new) }
        ensures range { ToldRange result valid.now }
        ensures fails { IfErr result (λ fault. FailsBy fault (instantiated valid.now (map address_of imports.now) self.old) self.old self.new) }
    {
        let tree = valid.tree();
        let address = self.instances.len();
        let parts = Parts::of(alloc, self, tree, imports)?;
        self.join(valid, imports, parts)?;
        self.write_elements(address, tree.element_segments.as_slice())?;
        self.write_data(address, tree.data_segments.as_slice())?;
        Ok(address)
    }

    /// The address of the function that runs first in an instance of a module, where there is one.
    pub fn start_of(&self, valid: &Valid, instance: usize) -> Option<usize>
        requires { instance < length self.now.instances }
        ensures { (i : Instance) → slice_get self.now.instances instance ≡ Some i → result ≡ option_and_then (λ index. slice_get i.funcs index) valid.now.start }
    {
        let index = valid.tree().start?;
        address_at(self.instances[instance].funcs.as_slice(), index)
    }

    /// Puts the parts of a module behind what is there.
    fn join(&mut self, valid: &Valid, imports: &[External], parts: Parts) -> Result<(), AllocError>
        requires matches { ImportsMatch self.old valid.now (map address_of imports.now) }
        requires typed { Typed valid.now }
        requires range { InRange valid.now }
        requires parts { ArePartsOf valid.now (map address_of imports.now) self.old parts }
        ensures joined { OnOk result (self.new ≡ allocated valid.now (map address_of imports.now) self.old) }
        ensures unchanged { OnErr result (self.new ≡ self.old) }
    {
        let Parts {
            functions,
            tables,
            memories,
            globals,
            instances,
        } = parts;
        self.functions.reserve(functions.len())?;
        self.tables.reserve(tables.len())?;
        self.memories.reserve(memories.len())?;
        self.globals.reserve(globals.len())?;
        self.instances.reserve(instances.len())?;
        append(&mut self.functions, functions);
        append(&mut self.tables, tables);
        append(&mut self.memories, memories);
        append(&mut self.globals, globals);
        append(&mut self.instances, instances);
        Ok(())
    }
}

/// Puts items behind others, where there is room for them.
fn append<T: Drop>(items: &mut Vec<T>, mut others: Vec<T>)
    requires { vec_len items.old + vec_len others ≤ vec_capacity items.old }
    ensures { items.new.items ≡ items.old.items ++ others.items }
{
    match items.append(&mut others) {
        Ok(()) => {}
        Err(_) => unreachable!(),
    }
}
