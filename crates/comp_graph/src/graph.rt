//! What a component is linked to.

ghost use Rattle.std.specs.Prelude.{◌≡◌, ◌≤◌, ◌<◌, true, Some, length};
ghost use Rattle.std.specs.List.{slice_get};
ghost use Rattle.syntax_trees.specs.declared.exports.Export.{Export};
ghost use Rattle.comp_graph.specs.declared.graph.Builtin.{Builtin};
ghost use Rattle.comp_graph.specs.declared.graph.Lower.{Lower};
ghost use Rattle.comp_graph.specs.declared.graph.CanonFunc.TheVariants as canon_func;
ghost use Rattle.comp_graph.specs.Graph as graphs;
ghost use Rattle.comp_graph.specs.Graph.{core_instance_limit, instance_limit, is_lower, numbered_value, passed_value};
ghost use Rattle.comp_graph.specs.Passed.{AreCanonTypes, AreExportTypes, ArePassed, types_at};

use crate::func_types::{GraphTypes, PassedTypes, element_of, number_at, passed_at};
use builtin_kinds::{ContextOp, EndKind, EndSide, PlainBuiltin, ResourceOp, WaitOp};
use laid_types::LaidType;
use std::marker::Model;
use syntax_trees::{Boxed, Exports, FuncType, Seq, Shared, ValType};
use wasm_typing::Valid;

/// A definition of a core instance.
#[derive(Clone, Copy)]
pub struct CoreRef {
    /// The number of the core instance, in order of making.
    pub instance: u32,
    /// The index of the definition, in the space of its sort of the instance's module.
    pub index: u32,
}

/// A core function: of a core instance, or one that the Canonical ABI makes (Component Model, Explainer.md, "Canonical
/// Definitions").
#[derive(Clone, Copy)]
pub enum FuncRef {
    /// A function of a core instance.
    Instance(CoreRef),
    /// The function that the canonical definition of this number makes, in order of making.
    Canon(u32),
}

/// What an import of a core module is: a definition of a core instance, or a core function that the Canonical ABI makes (Core 2.0,
/// section 4.5.4).
#[derive(Clone, Copy)]
pub enum CoreExtern {
    /// A function.
    Func(FuncRef),
    /// A table.
    Table(CoreRef),
    /// A memory.
    Memory(CoreRef),
    /// A global.
    Global(CoreRef),
}

/// What is made when a component is instantiated.
#[derive(Clone, Copy)]
pub enum Action {
    /// The component instance of this number begins.
    Begin(u32),
    /// The core instance of this number is made.
    Make(u32),
}

/// What a canonical function uses of core definitions (Component Model, CanonicalABI.md, "Canonical ABI Options"). All texts are
/// in UTF-8.
#[derive(Clone, Copy)]
pub struct Options {
    /// The memory where what is passed in memory stands.
    pub memory: Option<CoreRef>,
    /// The core function that gives places in the memory.
    pub realloc: Option<FuncRef>,
    /// The core function that is called when the result was lifted.
    pub post_return: Option<FuncRef>,
    /// The core function that is called with each event of a task.
    pub callback: Option<FuncRef>,
    /// Whether a task returns by `task.return`, or a caller goes on before what it called has returned.
    pub is_async: bool,
}

/// The core function that a function lifts (Component Model, CanonicalABI.md, `canon lift`).
#[derive(Clone, Copy)]
pub struct Lift {
    /// The number of the component instance that lifts it, in order of beginning.
    pub instance: u32,
    /// The core function.
    pub core: FuncRef,
    /// What else the lift uses.
    pub options: Options,
}

/// A function that is lowered (Component Model, CanonicalABI.md, `canon lower`).
#[derive(Drop)]
pub struct Lower {
    /// The number of the component instance that lowers it, in order of beginning.
    pub instance: u32,
    /// The core function that the function lifts.
    pub lift: Lift,
    /// The type of the function.
    pub func_type: Shared<FuncType>,
    /// What else the lowering uses.
    pub options: Options,
}

/// What a built-in does with the end of a stream or a future (Component Model, CanonicalABI.md, `canon stream.new` and its fellows).
#[derive(Drop)]
pub enum EndOp {
    /// Both ends are made.
    New,
    /// Elements are read or written.
    Copy {
        /// The end: the readable one reads, the writable one writes.
        side: EndSide,
        /// What else it uses.
        options: Boxed<Options>,
    },
    /// A read or a write is cancelled.
    Cancel {
        /// The end.
        side: EndSide,
        /// Whether it answers before the other side has come to its end.
        is_async: bool,
    },
    /// The end is dropped.
    Drop {
        /// The end.
        side: EndSide,
    },
}

/// What a built-in is (Component Model, Explainer.md, "Canonical Built-ins").
#[derive(Drop)]
pub enum BuiltinKind {
    /// A built-in of a resource.
    Resource {
        /// What it does.
        op: ResourceOp,
        /// The resource's number, in order of making, counted from 1.
        resource: u32,
    },
    /// `task.return`: the task returns its result.
    TaskReturn {
        /// The type of the result, if there is one.
        result: Option<Shared<ValType>>,
        /// What else it uses.
        options: Boxed<Options>,
    },
    /// A built-in that names nothing.
    Plain(PlainBuiltin),
    /// A built-in of a word of the task.
    Context {
        /// What it does.
        op: ContextOp,
        /// The number of the word, 0 or 1.
        slot: u32,
    },
    /// A built-in that asks for an event of a set.
    Wait {
        /// How it asks.
        op: WaitOp,
        /// Whether a cancellation ends the wait.
        cancellable: bool,
        /// The memory into which the event goes.
        memory: CoreRef,
    },
    /// A built-in of the ends of streams or futures.
    End {
        /// What the ends belong to.
        kind: EndKind,
        /// The type of the elements, where they hold anything.
        element: Option<Shared<ValType>>,
        /// What it does.
        op: EndOp,
    },
}

/// A built-in of a component instance (Component Model, Explainer.md, "Canonical Built-ins").
#[derive(Drop)]
pub struct Builtin {
    /// The number of the component instance that makes it, in order of beginning.
    pub instance: u32,
    /// What it is.
    pub kind: BuiltinKind,
}

/// A core function that the Canonical ABI makes (Component Model, Explainer.md, "Canonical Definitions").
#[derive(Drop)]
pub enum CanonFunc {
    /// It calls a function that is lowered.
    Lower(Boxed<Lower>),
    /// It is a built-in.
    Builtin(Builtin),
}

/// A type of resources that a component instance defines (Component Model, Explainer.md, "Type Definitions": `resourcetype`).
#[derive(Clone, Copy)]
pub struct Resource {
    /// The number of the component instance that defines it, in order of beginning.
    pub instance: u32,
    /// The core function that is called with the representation when an owning handle is dropped.
    pub destructor: Option<FuncRef>,
}

/// A core instance that is made of a module. Contracts see the module in place of what is valid.
#[derive(Drop)]
pub struct CoreMake<'a> {
    valid: &'a Valid,
    imports: Seq<CoreExtern>,
    owner: u32,
}

impl<'a> Model for CoreMake<'a> {
    ghost use Rattle.std.specs.Coded.{codes};
    ghost use Rattle.syntax_trees.specs.contracts.module.ModuleTree as tree;
    ghost use Rattle.comp_graph.specs.contracts.graph.CoreExtern as core_extern;
    ghost use Rattle.comp_graph.specs.Graph as graph;

    ghost Value = { graph.CoreMake };

    ghost coded = { Prim.hlevel (codes, tree.the_row.coded, core_extern.the_row.coded) };

    ghost view = { λ c. record { of_module = c.valid.now; imports = c.imports; owner = c.owner } };
}

impl<'a> CoreMake<'a> {
    /// A core instance of this module, whose imports are these, in order, and which the component instance of this number
    /// makes.
    pub fn new(valid: &'a Valid, imports: Seq<CoreExtern>, owner: u32) -> CoreMake<'a>
        ensures { result ≡ record { of_module = valid.now; imports = imports; owner = owner } }
    {
        CoreMake {
            valid,
            imports,
            owner,
        }
    }

    /// The module.
    pub fn valid(&self) -> &'a Valid
        ensures { result.now ≡ self.now.of_module }
    {
        self.valid
    }

    /// What the module's imports are, in order.
    pub fn imports(&self) -> &[CoreExtern]
        ensures { result.now ≡ self.now.imports }
    {
        self.imports.as_slice()
    }

    /// The number of the component instance that makes it.
    pub fn owner(&self) -> u32
        ensures { result ≡ self.now.owner }
    {
        self.owner
    }
}

/// A component that is linked (Component Model, Explainer.md, "Instance Definitions"): what is made, in file order; the core
/// instances, at most 256; the core functions that the Canonical ABI makes; the types of resources; the functions that can be called,
/// and of each one the core function that it lifts; the types of streams and futures. At most 256 component instances begin.
///
/// Beside what contracts see it has the types of what its functions and built-ins pass, each laid out once: a type shares its parts,
/// and a walk over it as a tree may take far longer than its file is long.
#[derive(Drop)]
pub struct Graph<'a> {
    plan: Seq<Action>,
    instance_count: u32,
    cores: Vec<CoreMake<'a>>,
    canons: Seq<CanonFunc>,
    resources: Seq<Resource>,
    exports: Exports,
    lifts: Seq<Lift>,
    types: GraphTypes,
}

impl<'a> Model for Graph<'a> {
    ghost use Rattle.std.specs.Prelude.{◌≡◌, ◌≤◌, length};
    ghost use Rattle.std.specs.Coded.{codes};
    ghost use Rattle.syntax_trees.specs.contracts.module.ModuleTree as tree;
    ghost use Rattle.syntax_trees.specs.contracts.exports.Export as export;
    ghost use Rattle.comp_graph.specs.contracts.graph.Action as action;
    ghost use Rattle.comp_graph.specs.contracts.graph.CoreExtern as core_extern;
    ghost use Rattle.comp_graph.specs.contracts.graph.CanonFunc as canon_func;
    ghost use Rattle.comp_graph.specs.contracts.graph.Resource as a_resource;
    ghost use Rattle.syntax_trees.specs.contracts.types.ValType as val_type;
    ghost use Rattle.comp_graph.specs.contracts.graph.Lift as lift;
    ghost use Rattle.comp_graph.specs.Graph as graph;
    ghost use Rattle.comp_graph.specs.Passed.{AreCanonTypes, AreExportTypes, types_at};

    ghost Value = { graph.Graph };

    ghost coded = { Prim.hlevel (codes, tree.the_row.coded, core_extern.the_row.coded, export.the_row.coded, action.the_row.coded, canon_func.the_row.coded, a_resource.the_row.coded, val_type.the_row.coded, lift.the_row.coded) };

    ghost view = { λ g. record { plan = g.plan; instance_count = g.instance_count; cores = g.cores.items; canons = g.canons; resources = g.resources; exports = g.exports; lifts = g.lifts; end_types = types_at g.types.types.values g.types.ends } };

    ghost invariant = { λ g. (g.instance_count ≤ graph.instance_limit) × (length g.cores.items ≤ graph.core_instance_limit) × (length g.lifts ≡ length g.exports) × AreCanonTypes g.types.types g.types.canons g.canons × AreExportTypes g.types.types.funcs g.types.exports g.exports };
}

impl<'a> Graph<'a> {
    /// The graph of so many component instances, these core instances, these core functions that the Canonical ABI makes and these
    /// types of resources, each in order of making, and these exports with the core function of each, over the types of all.
    pub fn new(
        plan: Seq<Action>,
        instance_count: u32,
        cores: Vec<CoreMake<'a>>,
        canons: Seq<CanonFunc>,
        resources: Seq<Resource>,
        exports: Exports,
        lifts: Seq<Lift>,
        types: GraphTypes,
    ) -> Graph<'a>
        requires few_instances { instance_count ≤ instance_limit }
        requires few { length cores.items ≤ core_instance_limit }
        requires lifted { length lifts ≡ length exports }
        requires canon_types { AreCanonTypes types.types types.canons canons }
        requires export_types { AreExportTypes types.types.funcs types.exports exports }
        ensures { result ≡ record { plan = plan; instance_count = instance_count; cores = cores.entry.items; canons = canons; resources = resources; exports = exports; lifts = lifts; end_types = types_at types.types.values types.ends } }
    {
        Graph {
            plan,
            instance_count,
            cores,
            canons,
            resources,
            exports,
            lifts,
            types,
        }
    }

    /// What is made, in file order.
    pub fn plan(&self) -> &[Action]
        ensures { result.now ≡ self.now.plan }
    {
        self.plan.as_slice()
    }

    /// How many component instances begin: at most 256.
    pub fn instance_count(&self) -> u32
        ensures value { result ≡ self.now.instance_count }
        ensures few { self.now.instance_count ≤ instance_limit }
    {
        self.instance_count
    }

    /// The core instances, in order of making: at most 256.
    pub fn cores(&self) -> &[CoreMake<'a>]
        ensures value { result.now ≡ self.now.cores }
        ensures few { length self.now.cores ≤ core_instance_limit }
    {
        &self.cores
    }

    /// The core functions that the Canonical ABI makes, in order of making.
    pub fn canons(&self) -> &[CanonFunc]
        ensures { result.now ≡ self.now.canons }
    {
        self.canons.as_slice()
    }

    /// The types of resources, in order of making.
    pub fn resources(&self) -> &[Resource]
        ensures { result.now ≡ self.now.resources }
    {
        self.resources.as_slice()
    }

    /// The functions that can be called, in order.
    pub fn exports(&self) -> &Exports
        ensures { result.now ≡ self.now.exports }
    {
        &self.exports
    }

    /// What each function that can be called lifts, in order.
    pub fn lifts(&self) -> &[Lift]
        ensures { result.now ≡ self.now.lifts }
    {
        self.lifts.as_slice()
    }

    /// What the export of this number lifts.
    pub fn lift(&self, number: usize) -> Lift
        requires { number < length self.now.exports }
        ensures { slice_get self.now.lifts number ≡ Some result }
    {
        self.lifts.as_slice()[number]
    }

    /// The types of what functions and built-ins pass: the table of types, and which of them each one has.
    pub fn types(&self) -> &GraphTypes
        ensures canons { AreCanonTypes result.now.types result.now.canons self.now.canons }
        ensures exports { AreExportTypes result.now.types.funcs result.now.exports self.now.exports }
        ensures ends { types_at result.now.types.values result.now.ends ≡ self.now.end_types }
    {
        &self.types
    }

    /// The types of what the export of this number passes, which is there.
    pub fn export_types(&self, number: usize) -> PassedTypes<'_>
        requires { number < length self.now.exports }
        ensures { (e : Export) → slice_get self.now.exports number ≡ Some e → ArePassed result e.func_type }
    {
        passed_at(&self.types.types, self.types.exports.as_slice(), number)
    }

    /// The types of what the function passes that the core function of this number calls, of those that the Canonical ABI makes,
    /// which is there and calls one.
    pub fn canon_types(&self, number: usize) -> PassedTypes<'_>
        requires { is_lower (slice_get self.now.canons number) ≡ true }
        ensures { (l : Lower) → slice_get self.now.canons number ≡ Some (canon_func.Lower l) → ArePassed result l.func_type }
    {
        match number_at(self.types.canons.as_slice(), number) {
            Some(func) => self.types.types.passed(func as usize),
            None => unreachable!(),
        }
    }

    /// The type of the result or of the elements of the built-in of this number, of the core functions that the Canonical ABI makes,
    /// if it has one.
    pub fn canon_value(&self, number: usize) -> Option<LaidType<'_>>
        requires { number < length self.now.canons }
        ensures { (b : Builtin) → slice_get self.now.canons number ≡ Some (canon_func.Builtin b) → result ≡ passed_value b.kind }
    {
        let value = self.numbered(number);
        match canon_at(self.canons.as_slice(), number) {
            CanonFunc::Builtin(builtin) => passed_of(&builtin.kind, value),
            CanonFunc::Lower(_) => None,
        }
    }

    /// The type of the result of the built-in of this number, or of the ends that it is of, if it has one.
    fn numbered(&self, number: usize) -> Option<LaidType<'_>>
        requires { number < length self.now.canons }
        ensures { (b : Builtin) → slice_get self.now.canons number ≡ Some (canon_func.Builtin b) → result ≡ numbered_value b.kind }
    {
        let number = number_at(self.types.canons.as_slice(), number);
        self.types.types.value(number)
    }
}

/// The core function of a number that is there, of those that the Canonical ABI makes.
fn canon_at(canons: &[CanonFunc], number: usize) -> &CanonFunc
    requires { number < length canons.now }
    ensures { slice_get canons.now number ≡ Some result.now }
{
    &canons[number]
}

/// The type of the result or of the elements of a built-in, of the type by whose number it is known.
fn passed_of<'a>(kind: &BuiltinKind, value: Option<LaidType<'a>>) -> Option<LaidType<'a>>
    requires { value ≡ numbered_value kind.now }
    ensures { result ≡ passed_value kind.now }
{
    match kind {
        BuiltinKind::End { .. } => element_of(value),
        _ => value,
    }
}
