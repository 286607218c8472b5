//! The definitions of core instances, and the core functions that the Canonical ABI makes.

ghost use Rattle.std.specs.Prelude.{◌≡◌, true, Some, None, MatchOption};
ghost use Rattle.std.specs.List.{slice_get};
ghost use Rattle.std.specs.Option.{option_and_then};
ghost use Rattle.syntax_trees.specs.declared.module.ModuleTree.{ModuleTree};
ghost use Rattle.comp_graph.specs.declared.graph.CoreRef.{CoreRef};
ghost use Rattle.comp_graph.specs.declared.graph.FuncRef.{FuncRef};
ghost use Rattle.comp_graph.specs.declared.graph.FuncRef.TheVariants as func_ref;
ghost use Rattle.comp_graph.specs.CoreItems as items;
ghost use Rattle.comp_graph.specs.CoreItems.{core_func_of, core_memory_of, extern_of, func_part};
ghost use Rattle.link_spec.specs.Canons.{is_of_core_type};
ghost use Rattle.link_spec.specs.Tests as tests;
ghost use Rattle.link_spec.specs.Tests.{is_of_core_sort, is_core_of, core_fits};

use comp_graph::{CoreExtern, CoreRef, FuncRef};
use comp_tree::{CoreSort, Sort};
use link_core_types::CoreFuncType;
use std::marker::Model;
use syntax_trees::module_types::{FuncType, ValType};
use syntax_trees::{GlobalType, ImportDesc, Limits, ModuleTree, Mutability, are_same};

/// What a core definition is, with its type: that which the module of its core instance gives it, or what the Canonical ABI makes.
#[derive(Drop)]
enum Held<'a> {
    /// A function of a core instance.
    Func(CoreRef, &'a FuncType),
    /// The core function that the canonical definition of this number makes.
    Made(u32, CoreFuncType),
    /// A table.
    Table(CoreRef, Limits),
    /// A memory.
    Memory(CoreRef, Limits),
    /// A global.
    Global(CoreRef, GlobalType),
}

/// A definition of a core instance, or a core function that the Canonical ABI makes, with its type.
#[derive(Drop)]
pub struct CoreItem<'a> {
    held: Held<'a>,
}

impl<'a> Model for CoreItem<'a> {
    ghost use Rattle.std.specs.Coded.{codes};
    ghost use Rattle.syntax_trees.specs.contracts.module_types.FuncType as func_type;
    ghost use Rattle.syntax_trees.specs.contracts.module_types.Limits as limits;
    ghost use Rattle.syntax_trees.specs.contracts.module_types.GlobalType as global_type;
    ghost use Rattle.comp_graph.specs.contracts.graph.CoreRef as core_ref;
    ghost use Rattle.comp_graph.specs.contracts.graph.FuncRef as func_ref;
    ghost use Rattle.comp_graph.specs.CoreItems as items;

    ghost Value = { items.CoreItem };

    ghost coded = { Prim.hlevel (codes, func_type.the_row.coded, limits.the_row.coded, global_type.the_row.coded, core_ref.the_row.coded, func_ref.the_row.coded) };

    ghost use Rattle.link_core_exports.specs.Held.{item_held};

    ghost view = { λ i. item_held i.held };
}

/// The type of a core function.
#[derive(Clone, Copy)]
struct CoreFunc<'r> {
    /// The types of its parameters.
    params: &'r [ValType],
    /// The types of its results.
    results: &'r [ValType],
}

impl<'a> CoreItem<'a> {
    /// A function of a core instance, of this type.
    pub fn func(core: CoreRef, func_type: &'a FuncType) -> CoreItem<'a>
        ensures { result ≡ items.Func (func_ref.Instance core) func_type.now }
    {
        CoreItem {
            held: Held::Func(core, func_type),
        }
    }

    /// The core function that the canonical definition of this number makes, of this type.
    pub fn made(number: u32, func_type: CoreFuncType) -> CoreItem<'a>
        ensures { result ≡ items.Func (func_ref.Canon number) func_type }
    {
        CoreItem {
            held: Held::Made(number, func_type),
        }
    }

    /// A table.
    pub fn table(core: CoreRef, limits: Limits) -> CoreItem<'a>
        ensures { result ≡ items.Table core limits }
    {
        CoreItem {
            held: Held::Table(core, limits),
        }
    }

    /// A memory.
    pub fn memory(core: CoreRef, limits: Limits) -> CoreItem<'a>
        ensures { result ≡ items.Memory core limits }
    {
        CoreItem {
            held: Held::Memory(core, limits),
        }
    }

    /// A global.
    pub fn global(core: CoreRef, global_type: GlobalType) -> CoreItem<'a>
        ensures { result ≡ items.Global core global_type }
    {
        CoreItem {
            held: Held::Global(core, global_type),
        }
    }

    /// The same definition.
    pub fn again(&self) -> CoreItem<'a>
        ensures { result ≡ self.now }
    {
        let held = match &self.held {
            Held::Func(core, func_type) => Held::Func(*core, *func_type),
            Held::Made(number, made) => Held::Made(*number, made.again()),
            Held::Table(core, limits) => Held::Table(*core, *limits),
            Held::Memory(core, limits) => Held::Memory(*core, *limits),
            Held::Global(core, global_type) => Held::Global(*core, *global_type),
        };
        CoreItem { held }
    }

    /// Its sort, which is that of functions, tables, memories or globals.
    pub fn sort(&self) -> CoreSort
        ensures { is_of_core_sort self.now result ≡ true }
    {
        match &self.held {
            Held::Func(_, _) | Held::Made(_, _) => CoreSort::Func,
            Held::Table(_, _) => CoreSort::Table,
            Held::Memory(_, _) => CoreSort::Memory,
            Held::Global(_, _) => CoreSort::Global,
        }
    }

    /// Whether it is of a core sort.
    fn is_of_core(&self, sort: CoreSort) -> bool
        ensures { result ≡ is_of_core_sort self.now sort }
    {
        match &self.held {
            Held::Func(_, _) | Held::Made(_, _) => sort == CoreSort::Func,
            Held::Table(_, _) => sort == CoreSort::Table,
            Held::Memory(_, _) => sort == CoreSort::Memory,
            Held::Global(_, _) => sort == CoreSort::Global,
        }
    }

    /// Whether it is of a sort.
    pub fn is_of(&self, sort: Sort) -> bool
        ensures { result ≡ is_core_of self.now sort }
    {
        match sort {
            Sort::Core(sort) => self.is_of_core(sort),
            Sort::Func | Sort::Type | Sort::Component | Sort::Instance => false,
        }
    }

    /// Which definition it is, without its type.
    pub fn core_extern(&self) -> CoreExtern
        ensures { result ≡ extern_of self.now }
    {
        match &self.held {
            Held::Func(core, _) => CoreExtern::Func(FuncRef::Instance(*core)),
            Held::Made(number, _) => CoreExtern::Func(FuncRef::Canon(*number)),
            Held::Table(core, _) => CoreExtern::Table(*core),
            Held::Memory(core, _) => CoreExtern::Memory(*core),
            Held::Global(core, _) => CoreExtern::Global(*core),
        }
    }

    /// Which core function it is, where it is one.
    pub fn core_func(&self) -> Option<FuncRef>
        ensures { result ≡ core_func_of self.now }
    {
        match &self.held {
            Held::Func(core, _) => Some(FuncRef::Instance(*core)),
            Held::Made(number, _) => Some(FuncRef::Canon(*number)),
            Held::Table(_, _) | Held::Memory(_, _) | Held::Global(_, _) => None,
        }
    }

    /// Which memory it is, where it is one.
    pub fn core_memory(&self) -> Option<CoreRef>
        ensures { result ≡ core_memory_of self.now }
    {
        match &self.held {
            Held::Memory(core, _) => Some(*core),
            Held::Func(_, _) | Held::Made(_, _) | Held::Table(_, _) | Held::Global(_, _) => None,
        }
    }

    /// Its type, where it is a function.
    fn func_type(&self) -> Option<CoreFunc<'_>>
        ensures { MatchOption result (func_part self.now ≡ None) (λ t. func_part self.now ≡ Some (record { params = t.params.now; results = t.results.now })) }
    {
        match &self.held {
            Held::Func(_, func_type) => Some(CoreFunc {
                params: func_type.params.as_slice(),
                results: func_type.results.as_slice(),
            }),
            Held::Made(_, made) => Some(CoreFunc {
                params: made.params(),
                results: made.results(),
            }),
            Held::Table(_, _) | Held::Memory(_, _) | Held::Global(_, _) => None,
        }
    }

    /// Whether it is a function of this type.
    pub fn is_of_type(&self, func_type: &CoreFuncType) -> bool
        ensures { result ≡ is_of_core_type func_type.now self.now }
    {
        match self.func_type() {
            Some(other) => {
                are_same(other.params, func_type.params())
                    && are_same(other.results, func_type.results())
            }
            None => false,
        }
    }

    /// Whether it is what an import of a module asks for.
    pub fn fits(&self, tree: &ModuleTree, desc: ImportDesc) -> bool
        ensures { result ≡ core_fits tree.now self.now desc }
    {
        match (&self.held, desc) {
            (Held::Func(_, func_type), ImportDesc::Func(index)) => is_type(
                tree,
                index,
                func_type.params.as_slice(),
                func_type.results.as_slice(),
            ),
            (Held::Made(_, made), ImportDesc::Func(index)) => {
                is_type(tree, index, made.params(), made.results())
            }
            (Held::Table(_, limits), ImportDesc::Table(asked)) => {
                is_within(*limits, asked.limits())
            }
            (Held::Memory(_, limits), ImportDesc::Memory(asked)) => {
                is_within(*limits, asked.limits())
            }
            (Held::Global(_, global_type), ImportDesc::Global(asked)) => {
                is_global(*global_type, asked)
            }
            (_, _) => false,
        }
    }
}

/// The item of an index.
pub fn item_at<'a>(items: &[CoreItem<'a>], index: u32) -> Option<CoreItem<'a>>
    ensures { result ≡ slice_get items.now index }
{
    let item = items.get(index as usize)?;
    Some(item.again())
}

/// The item of an index, if there is an index.
pub fn item_named<'a>(items: &[CoreItem<'a>], index: Option<u32>) -> Option<CoreItem<'a>>
    ensures { result ≡ option_and_then (slice_get items.now) index }
{
    item_at(items, index?)
}

/// Whether a function type is that of these types of parameters and of results.
fn is_same_func(func_type: &FuncType, params: &[ValType], results: &[ValType]) -> bool
    ensures { result ≡ tests.same_core_func func_type.now (record { params = params.now; results = results.now }) }
{
    are_same(func_type.params.as_slice(), params) && are_same(func_type.results.as_slice(), results)
}

/// Whether the type of an index of a module is there, and that of these types of parameters and of results.
fn is_type(tree: &ModuleTree, index: u32, params: &[ValType], results: &[ValType]) -> bool
    ensures { result ≡ tests.is_core_func (slice_get tree.now.types index) (record { params = params.now; results = results.now }) }
{
    match tree.types.as_slice().get(index as usize) {
        Some(asked) => is_same_func(asked, params, results),
        None => false,
    }
}

/// Whether two types of globals are the same.
fn is_global(global_type: GlobalType, asked: GlobalType) -> bool
    ensures { result ≡ tests.same_global global_type asked }
{
    global_type.val_type.is_same(asked.val_type)
        && is_same_mutability(global_type.mutability, asked.mutability)
}

/// Whether both may be set, or neither.
fn is_same_mutability(mutability: Mutability, other: Mutability) -> bool
    ensures { result ≡ tests.same_mutability mutability other }
{
    match mutability {
        Mutability::Constant => other == Mutability::Constant,
        Mutability::Variable => other == Mutability::Variable,
    }
}

/// Whether a maximum is within the one that is asked for, if one is.
fn max_is_within(max: Option<u32>, asked: Option<u32>) -> bool
    ensures { result ≡ tests.max_is_within max asked }
{
    match (max, asked) {
        (_, None) => true,
        (None, Some(_)) => false,
        (Some(max), Some(most)) => max <= most,
    }
}

/// Whether limits are within others.
fn is_within(limits: Limits, asked: Limits) -> bool
    ensures { result ≡ tests.is_within limits asked }
{
    asked.min <= limits.min && max_is_within(limits.max, asked.max)
}
