//! Imports, compared with what a module asks for (Core 2.0, section 3.2.8).

ghost use Rattle.std.specs.Prelude.{◌≡◌, true, false, cond, map};
ghost use Rattle.std.specs.List.{slice_get};
ghost use Rattle.syntax_trees.specs.SameTypes.{same_type};
ghost use Rattle.wasm_store.specs.Instantiation.{ImportsMatch};
ghost use Rattle.wasm_store.specs.Views.{address_of};
ghost use Rattle.wasm_store.specs.Matching.{func_fits, max_fits, limits_fit, table_fits, memory_fits, same_mutability, global_fits, import_fits, imports_fit};

use crate::store::Store;
use syntax_trees::module_types::FuncType;
use syntax_trees::{GlobalType, Import, ImportDesc, Limits, Mutability};
use wasm_code::External;
use wasm_typing::Valid;

impl Store {
    /// Whether imports are of the types that a module asks for, one for each of its imports: so whether `add` may be called
    /// with them. It takes no memory.
    #[tactic(auto, using(crate::proofs::Imports::fits_sound))]
    pub fn matches(&self, valid: &Valid, imports: &[External]) -> bool
        ensures sound { result ≡ true → ImportsMatch self.now valid.now (map address_of imports.now) }
        ensures complete { ImportsMatch self.now valid.now (map address_of imports.now) → result ≡ true }
    {
        let tree = valid.tree();
        self.all_fit(tree.types.as_slice(), tree.imports.as_slice(), imports)
    }

    /// Whether there are as many imports as are asked for, each of its type.
    fn all_fit(&self, types: &[FuncType], asked: &[Import], imports: &[External]) -> bool
        ensures { result ≡ imports_fit self.now types.now asked.now (map address_of imports.now) }
    {
        if asked.len() != imports.len() {
            return false;
        }
        for at in 0..asked.len() {
            if !self.fits(types, &asked[at].desc, imports[at]) {
                return false;
            }
        }
        true
    }

    /// Whether an import is of the type that is asked for.
    fn fits(&self, types: &[FuncType], desc: &ImportDesc, external: External) -> bool
        ensures { result ≡ import_fits self.now types.now desc.now (address_of external) }
    {
        match external {
            External::Func(address) => match desc {
                ImportDesc::Func(index) => self.func_fits(types, *index as usize, address),
                _ => false,
            },
            External::Table(address) => match desc {
                ImportDesc::Table(table) => self.table_fits(table.limits(), address),
                _ => false,
            },
            External::Memory(address) => match desc {
                ImportDesc::Memory(memory) => self.memory_fits(memory.limits(), address),
                _ => false,
            },
            External::Global(address) => match desc {
                ImportDesc::Global(global_type) => self.global_fits(global_type, address),
                _ => false,
            },
        }
    }

    /// Whether a function of the type of this index stands at an address.
    fn func_fits(&self, types: &[FuncType], index: usize, address: usize) -> bool
        ensures { result ≡ func_fits (slice_get types.now index) (slice_get self.now.funcs address) }
    {
        let Some(function) = self.functions.get(address) else {
            return false;
        };
        match types.get(index) {
            Some(func_type) => function.has_type(func_type),
            None => false,
        }
    }

    /// Whether a table within these limits stands at an address.
    fn table_fits(&self, limits: Limits, address: usize) -> bool
        ensures { result ≡ table_fits limits (slice_get self.now.tables address) }
    {
        match self.tables.get(address) {
            Some(table) => limits_fit(limits, table.entries.len(), table.max),
            None => false,
        }
    }

    /// Whether a memory within these limits stands at an address.
    fn memory_fits(&self, limits: Limits, address: usize) -> bool
        ensures { result ≡ memory_fits limits (slice_get self.now.memories address) }
    {
        match self.memories.get(address) {
            Some(memory) => limits_fit(limits, memory.pages() as usize, memory.max()),
            None => false,
        }
    }

    /// Whether a global of a type stands at an address.
    fn global_fits(&self, global_type: &GlobalType, address: usize) -> bool
        ensures { result ≡ global_fits global_type.now (slice_get self.now.globals address) }
    {
        match self.globals.get(address) {
            Some(global) => is_same(global_type, &global.global_type),
            None => false,
        }
    }
}

/// Whether what has a size and a maximum is within limits.
fn limits_fit(limits: Limits, size: usize, max: Option<u32>) -> bool
    ensures { result ≡ limits_fit limits size max }
{
    limits.min as usize <= size && max_fits(limits.max, max)
}

/// Whether a maximum is no greater than one that is asked for.
fn max_fits(wanted: Option<u32>, max: Option<u32>) -> bool
    ensures { result ≡ max_fits wanted max }
{
    let Some(wanted) = wanted else {
        return true;
    };
    match max {
        Some(most) => most <= wanted,
        None => false,
    }
}

/// Whether two types of globals are the same.
fn is_same(global_type: &GlobalType, other: &GlobalType) -> bool
    ensures { result ≡ cond (same_type global_type.now.val_type other.now.val_type) (same_mutability global_type.now.mutability other.now.mutability) false }
{
    global_type.val_type.is_same(other.val_type)
        && has_mutability(global_type.mutability, other.mutability)
}

/// Whether two mutabilities are the same.
fn has_mutability(mutability: Mutability, other: Mutability) -> bool
    ensures { result ≡ same_mutability mutability other }
{
    match mutability {
        Mutability::Constant => other == Mutability::Constant,
        Mutability::Variable => other == Mutability::Variable,
    }
}
