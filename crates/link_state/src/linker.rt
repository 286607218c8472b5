//! Linking as it stands: what the component instances that have begun have in their index spaces, and what was made.

ghost use Rattle.std.specs.Prelude.{◌≡◌, ◌≢◌, ◌<◌, ◌+◌, ◌∷◌, ◌++◌, [], List, ℕ, true, false, Some, Ok, Err, map, length, IfSome, IfOk, OnOk, MatchResult, IsTrue};
ghost use Rattle.std.specs.List.{slice_get};
ghost use Rattle.std.specs.Option.{option_and_then, option_copied};
ghost use Rattle.faults.specs.Faults.{IfFault};
ghost use Rattle.syntax_trees.specs.declared.module.ModuleTree.{ModuleTree};
ghost use Rattle.comp_graph.specs.Closed.{Closed, Extern, Externs};
ghost use Rattle.comp_graph.specs.Graph.{canon_type};
ghost use Rattle.comp_graph.specs.Passed.{HasCanonType};
ghost use Rattle.canon_types.specs.Built.{IsBuilt};
ghost use Rattle.link_spec.specs.Definitions.{CoreItem, extern_of, Lifted, Closure, Definition, AComponent, AModule, Exports, types_of};
ghost use Rattle.link_spec.specs.Tests.{are_types};
ghost use Rattle.link_spec.specs.Spaces.{Spaces, Linking, with_core_item, with_core_instance, with_definition, with_spaces};
ghost use Rattle.link_spec.specs.Canons.{Given, options_of};
ghost use Rattle.link_spec.specs.Brought.{asked_of};
ghost use Rattle.link_spec.specs.Resources.{with_resource};
ghost use Rattle.link_spec.specs.Items.{core_made, type_made, with_canon, lower_made, builtin_made, with_import, with_export};
ghost use Rattle.link_spec.specs.Linked.{root_begun, begun, with_instance};
ghost use Rattle.link_spec.specs.Computed.{imports_outcome};
ghost use Rattle.link_types.specs.Table.{IsName, IsExtern, IsType, IsInstanceType, Grows};
ghost use Rattle.link_instances.specs.declared.references.DefinitionRef.{DefinitionRef};
ghost use Rattle.link_instances.specs.References.{IsInstance, IsLifted, IsListing};
ghost use Rattle.link_instances.specs.References as references;
ghost use Rattle.link_instances.specs.Fit.{IsFit};
ghost use Rattle.link_meanings.specs.Meant.{IsFoundAs};
ghost use Rattle.link_state.specs.Reached.{IsReached};
ghost use Rattle.link_state.specs.State.{world_of, type_table, IsScope, IsKept, IsState, IsAt, IsThere, IsLive, Stands, ended};

use crate::canons::lowered_to;
use crate::scope::Scope;
use canon_types::{Built, EndNumbers, canon_number, lower_type, note, type_number};
use comp_graph::{
    Action, Builtin, CanonFunc, CoreExtern, FuncRef, Options, Resource, graph_number,
};
use comp_tree::{Component, CoreArgument};
use link_core_exports::{CoreExports, CoreItem, CoreModule, Cores, InlineExports};
use link_core_types::CoreFuncType;
use link_instances::{DefinitionRef, Fit, InstanceRef, Instances, LiftedRef};
use link_meanings::moved_extern;
use link_parts::{ItemError, Standing};
use link_types::{Change, ExternRef, InstanceTypeRef, Listing, TypeRef, Types};
use std::alloc::{AllocError, Global};
use syntax_trees::{Name, Seq, Shared};

/// The number of the root, which begins first.
pub const ROOT: usize = 0;

/// How many component instances there may be, and how many core instances that are made of modules.
pub const INSTANCE_LIMIT: usize = 256;

/// Linking as it stands.
#[derive(Drop)]
pub struct Linker<'a> {
    /// The types, and the texts of names.
    pub types: Types<'a>,
    /// The instances.
    pub instances: Instances,
    /// The components, by their numbers.
    pub components: Vec<Standing<'a>>,
    /// The component instances that have begun, in order of beginning.
    pub scopes: Vec<Scope<'a>>,
    /// The core modules, by their numbers, and the core instances that are made of them, in order of making.
    pub cores: Cores<'a>,
    /// The core functions that the Canonical ABI makes, in order of making.
    pub canons: Vec<CanonFunc>,
    /// The number of the type of the function that each of them calls, or of the values that it passes, if it has one.
    pub canon_types: Vec<Option<u32>>,
    /// The resources, in order of making.
    pub resources: Vec<Resource>,
    /// What is made, in file order.
    pub plan: Vec<Action>,
    /// The numbers of the types of streams and futures that components define and built-ins name.
    pub end_types: EndNumbers,
}

impl<'a> Linker<'a> {
    /// The root begins. It fails for want of memory alone, as do all calls here that fail.
    pub fn new(alloc: Global) -> Result<Linker<'a>, AllocError>
        ensures ok { IfOk result (λ k. IsState [] k root_begun) }
        ensures there { IfOk result (λ k. length k.scopes.items ≡ 1) }
        ensures live { IfOk result (λ k. IsLive k 0) }
    {
        let mut plan = Vec::new(alloc);
        plan.push(Action::Begin(0))?;
        let mut scopes = Vec::new(alloc);
        let around = Shared::new(alloc, Seq::new(alloc))?;
        scopes.push(Scope::new(alloc, None, around))?;
        Ok(Linker {
            types: Types::new(alloc),
            instances: Instances::new(alloc),
            components: Vec::new(alloc),
            scopes,
            cores: Cores::new(alloc),
            canons: Vec::new(alloc),
            canon_types: Vec::new(alloc),
            resources: Vec::new(alloc),
            plan,
            end_types: EndNumbers::new(alloc),
        })
    }

    /// The index spaces of a component instance that has begun.
    pub fn scope(&self, n: usize) -> &Scope<'a>
        requires { n < length self.now.scopes.items }
        ensures { (bases : List Exports) (l : Linking) (s : Spaces) → IsAt bases self.now n l s → IsScope self.now.types (world_of bases self.now) result.now s }
    {
        &self.scopes[n]
    }

    /// The index spaces of a component instance, if it has begun.
    pub fn scope_at(&self, n: usize) -> Option<&Scope<'a>>
        ensures { (bases : List Exports) (l : Linking) → IsState bases self.now l → IsFoundAs (λ scope s. IsKept self.now.types (world_of bases self.now) scope.now s) result (slice_get l.scopes n) }
    {
        item_numbered(&self.scopes, Some(n))
    }

    /// The component of an index of a component instance.
    pub fn standing(&self, n: usize, index: u32) -> Option<&Standing<'a>>
        requires { n < length self.now.scopes.items }
        ensures { (bases : List Exports) (l : Linking) (s : Spaces) → IsAt bases self.now n l s → IsFoundAs (λ c x. c.now ≡ x) result (slice_get s.components index) }
    {
        item_numbered(&self.components, self.scopes[n].component(index))
    }

    /// The number of the core module of an index of a component instance.
    pub fn module(&self, n: usize, index: u32) -> Option<usize>
        requires { n < length self.now.scopes.items }
        ensures found { (bases : List Exports) (l : Linking) (s : Spaces) → IsAt bases self.now n l s → IsFoundAs (λ number m. slice_get self.now.cores.modules number ≡ Some m) result (slice_get s.core_modules index) }
        ensures there { IfSome result (λ number. number < length self.now.cores.modules) }
    {
        let Some(number) = self.scopes[n].module(index) else {
            return None;
        };
        // Each number in an index space is one of a core module. The test shows it, also to callers that know of no linking.
        if number >= self.cores.module_count() {
            return None;
        }
        Some(number)
    }

    /// What the imports of the core module of a number are passed, of the core instances of a component instance and these
    /// arguments; or why it is not instantiated.
    pub fn passed(
        &mut self,
        alloc: Global,
        n: usize,
        number: usize,
        arguments: &[CoreArgument],
    ) -> Result<Vec<CoreItem<'a>>, ItemError>
        requires { n < length self.old.scopes.items }
        ensures told { (bases : List Exports) (l : Linking) (s : Spaces) (m : ModuleTree) → IsAt bases self.old n l s → IsReached l → slice_get self.old.cores.modules number ≡ Some m → MatchResult result (λ v. imports_outcome s.core_instances m arguments.now ≡ Ok v.items) (λ e. IfFault e (λ w. imports_outcome s.core_instances m arguments.now ≡ Err w)) }
        ensures same { self.new ≡ self.old }
    {
        let instances = self.scopes[n].core_instances.as_slice();
        self.cores.passed(alloc, number, instances, arguments)
    }

    /// How many component instances have begun.
    pub fn instance_count(&self) -> usize
        ensures { (bases : List Exports) (l : Linking) → IsState bases self.now l → result ≡ length l.scopes }
    {
        self.scopes.len()
    }

    /// How many core instances are made of modules.
    pub fn core_count(&self) -> usize
        ensures { (bases : List Exports) (l : Linking) → IsState bases self.now l → result ≡ length l.cores }
    {
        self.cores.count()
    }

    /// The number of a name.
    pub fn name(&mut self, name: &'a Name) -> Result<usize, AllocError>
        ensures ok { IfOk result (λ number. IsName self.new.types number name.now) }
        ensures state { (bases : List Exports) (l : Linking) → IsState bases self.old l → IsState bases self.new l }
        ensures at { (bases : List Exports) (n : ℕ) (l : Linking) (s : Spaces) → IsAt bases self.old n l s → IsAt bases self.new n l s }
        ensures listing { (bases : List Exports) (listing : List (ℕ × DefinitionRef)) (exports : Exports) → IsListing self.old.types (world_of bases self.old) listing exports → IsListing self.new.types (world_of bases self.new) listing exports }
        ensures scopes { self.new.scopes ≡ self.old.scopes }
    {
        self.types.name(name.as_str())
    }

    /// What is asked for of a definition, where that stands for what it brings.
    pub fn filled(
        &mut self,
        alloc: Global,
        given: DefinitionRef,
        asked: ExternRef,
    ) -> Result<ExternRef, AllocError>
        ensures ok { IfOk result (λ ref. (bases : List Exports) (l : Linking) (d : Definition) (x : Extern) → IsState bases self.old l → references.Stands self.old.types (world_of bases self.old) given d → IsExtern self.old.types asked x → IsExtern self.new.types ref (asked_of d x)) }
        ensures state { (bases : List Exports) (l : Linking) → IsState bases self.old l → IsState bases self.new l }
        ensures stay { (bases : List Exports) (d : Definition) → references.Stands self.old.types (world_of bases self.old) given d → references.Stands self.new.types (world_of bases self.new) given d }
        ensures rest { self.new ≡ record self.old { types = self.new.types } }
        ensures grows { Grows self.old.types self.new.types }
    {
        let found = self
            .instances
            .found_for(alloc, &mut self.types, given, asked)?;
        let given = found.as_slice();
        if given.is_empty() {
            return Ok(asked);
        }
        Ok(moved_extern(alloc, &mut self.types, asked, Change::FilledIn(given))?)
    }

    /// Whether a definition is what is asked for.
    pub fn fit(
        &mut self,
        alloc: Global,
        given: DefinitionRef,
        asked: ExternRef,
    ) -> Result<Fit, AllocError>
        ensures ok { (bases : List Exports) (l : Linking) (d : Definition) (x : Extern) → IsState bases self.old l → references.Stands self.old.types (world_of bases self.old) given d → IsExtern self.old.types asked x → IfOk result (IsFit self.old.types d x) }
        ensures state { (bases : List Exports) (l : Linking) (d : Definition) (x : Extern) → IsState bases self.old l → references.Stands self.old.types (world_of bases self.old) given d → IsExtern self.old.types asked x → IsState bases self.new l }
        ensures rest { self.new ≡ record self.old { instances = self.new.instances } }
    {
        self.instances.fit(alloc, &self.types, given, asked)
    }

    /// Adds a definition to the space of its sort.
    pub fn add(&mut self, n: usize, definition: DefinitionRef) -> Result<(), AllocError>
        requires { n < length self.old.scopes.items }
        ensures ok { OnOk result ((bases : List Exports) (l : Linking) (s : Spaces) (d : Definition) → IsAt bases self.old n l s → references.Stands self.old.types (world_of bases self.old) definition d → IsState bases self.new (with_spaces l n (with_definition s d))) }
        ensures scopes { OnOk result (length self.new.scopes.items ≡ length self.old.scopes.items) }
        ensures live { OnOk result (ended self.new ≡ ended self.old) }
    {
        self.scopes[n].add(definition)?;
        Ok(())
    }

    /// Adds a resource that a component instance defines, with this destructor, if it has one: one type more.
    pub fn add_resource(&mut self, n: usize, destructor: Option<FuncRef>) -> Result<(), AllocError>
        requires { n < length self.old.scopes.items }
        ensures ok { OnOk result ((bases : List Exports) (l : Linking) (s : Spaces) → IsAt bases self.old n l s → IsState bases self.new (with_resource l n s destructor)) }
        ensures scopes { OnOk result (length self.new.scopes.items ≡ length self.old.scopes.items) }
        ensures live { OnOk result (ended self.new ≡ ended self.old) }
    {
        let instance = graph_number(n)?;
        let before = self.resources.len();
        self.resources.push(Resource {
            instance,
            destructor,
        })?;
        self.add(n, DefinitionRef::Type(TypeRef::Resource(before + 1)))?;
        Ok(())
    }

    /// Adds a type, which is noted where it is one of streams or futures.
    pub fn add_type(&mut self, n: usize, of: TypeRef) -> Result<(), AllocError>
        requires { n < length self.old.scopes.items }
        ensures ok { OnOk result ((bases : List Exports) (l : Linking) (s : Spaces) (closed : Closed) → IsAt bases self.old n l s → IsType self.old.types of closed → IsState bases self.new (type_made l n s true closed)) }
        ensures scopes { OnOk result (length self.new.scopes.items ≡ length self.old.scopes.items) }
        ensures live { OnOk result (ended self.new ≡ ended self.old) }
    {
        // No type stands at two numbers.
        self.types.are_distinct();
        let number = type_number(&self.types, of)?;
        note(&mut self.end_types, number)?;
        self.add(n, DefinitionRef::Type(of))?;
        Ok(())
    }

    /// Adds a core module.
    pub fn add_module(&mut self, n: usize, made: Shared<CoreModule<'a>>) -> Result<(), AllocError>
        requires { n < length self.old.scopes.items }
        ensures ok { OnOk result ((bases : List Exports) (l : Linking) (s : Spaces) → IsAt bases self.old n l s → IsState bases self.new (with_spaces l n (with_definition s (AModule made.entry)))) }
        ensures scopes { OnOk result (length self.new.scopes.items ≡ length self.old.scopes.items) }
        ensures live { OnOk result (ended self.new ≡ ended self.old) }
    {
        let number = self.cores.add_module(made)?;
        self.add(n, DefinitionRef::Module(number))?;
        Ok(())
    }

    /// Adds a component, which stands in this component instance.
    pub fn add_component(
        &mut self,
        alloc: Global,
        n: usize,
        component: &'a Component,
    ) -> Result<(), AllocError>
        requires { n < length self.old.scopes.items }
        ensures ok { OnOk result ((bases : List Exports) (l : Linking) (s : Spaces) → IsAt bases self.old n l s → IsState bases self.new (with_spaces l n (with_definition s (AComponent (record { items = component.now.items; around = n ∷ s.around }))))) }
        ensures scopes { OnOk result (length self.new.scopes.items ≡ length self.old.scopes.items) }
        ensures live { OnOk result (ended self.new ≡ ended self.old) }
    {
        let around = put_before(alloc, n, self.scopes[n].around.get().as_slice())?;
        let around = Shared::new(alloc, around)?;
        let number = self.components.len();
        self.components.push(Standing::new(component, around))?;
        self.add(n, DefinitionRef::Component(number))?;
        Ok(())
    }

    /// Adds a core item to the space of its sort.
    pub fn add_core_item(&mut self, n: usize, item: CoreItem<'a>) -> Result<(), AllocError>
        requires { n < length self.old.scopes.items }
        ensures ok { OnOk result ((bases : List Exports) (l : Linking) (s : Spaces) → IsAt bases self.old n l s → IsState bases self.new (with_spaces l n (with_core_item s item.entry))) }
        ensures scopes { OnOk result (length self.new.scopes.items ≡ length self.old.scopes.items) }
        ensures live { OnOk result (ended self.new ≡ ended self.old) }
    {
        self.scopes[n].add_core_item(item)?;
        Ok(())
    }

    /// Adds a core instance of inline exports.
    pub fn add_inline(&mut self, n: usize, exports: InlineExports<'a>) -> Result<(), AllocError>
        requires { n < length self.old.scopes.items }
        ensures ok { OnOk result ((bases : List Exports) (l : Linking) (s : Spaces) → IsAt bases self.old n l s → IsState bases self.new (with_spaces l n (with_core_instance s exports.entry))) }
        ensures scopes { OnOk result (length self.new.scopes.items ≡ length self.old.scopes.items) }
        ensures live { OnOk result (ended self.new ≡ ended self.old) }
    {
        self.scopes[n].add_core_instance(CoreExports::inline(exports))?;
        Ok(())
    }

    /// Adds a core instance of the module of a number, whose imports are these items.
    pub fn add_core_instance(
        &mut self,
        n: usize,
        number: usize,
        imports: Seq<CoreExtern>,
    ) -> Result<(), AllocError>
        requires here { n < length self.old.scopes.items }
        requires there { number < length self.old.cores.modules }
        ensures ok { OnOk result ((bases : List Exports) (l : Linking) (s : Spaces) (m : ModuleTree) (items : List CoreItem) → IsAt bases self.old n l s → slice_get self.old.cores.modules number ≡ Some m → imports ≡ map extern_of items → IsState bases self.new (core_made l n s m items)) }
        ensures scopes { OnOk result (length self.new.scopes.items ≡ length self.old.scopes.items) }
        ensures live { OnOk result (ended self.new ≡ ended self.old) }
    {
        let instance = graph_number(self.cores.count())?;
        let owner = graph_number(n)?;
        let exports = self.cores.add_instance(number, imports, owner)?;
        self.plan.push(Action::Make(instance))?;
        self.scopes[n].add_core_instance(exports)?;
        Ok(())
    }

    /// Adds a core function that the Canonical ABI makes, with the number of the type of what it passes, which is noted where it is one
    /// of streams or futures, and with its core type.
    fn add_canon(
        &mut self,
        n: usize,
        canon: CanonFunc,
        passed: Option<u32>,
        core_type: CoreFuncType,
    ) -> Result<(), AllocError>
        requires { n < length self.old.scopes.items }
        ensures ok { OnOk result ((bases : List Exports) (l : Linking) (s : Spaces) → IsAt bases self.old n l s → HasCanonType (type_table self.old.types) passed canon → core_type ≡ canon_type canon → IsState bases self.new (with_canon l n s canon)) }
        ensures scopes { OnOk result (length self.new.scopes.items ≡ length self.old.scopes.items) }
        ensures live { OnOk result (ended self.new ≡ ended self.old) }
    {
        // No type stands at two numbers.
        self.types.are_distinct();
        let number = graph_number(self.canons.len())?;
        let item = CoreItem::made(number, core_type);
        let named = canon_number(&canon, passed);
        note(&mut self.end_types, named)?;
        self.canon_types.push(passed)?;
        self.canons.push(canon)?;
        self.scopes[n].add_core_item(item)?;
        Ok(())
    }

    /// Lowers a function whose type is there, with these options: one core function more.
    pub fn add_lower(
        &mut self,
        alloc: Global,
        n: usize,
        func: LiftedRef,
        options: Options,
    ) -> Result<(), AllocError>
        requires { n < length self.old.scopes.items }
        ensures ok { OnOk result ((bases : List Exports) (l : Linking) (s : Spaces) (lifted : Lifted) (given : Given) → IsAt bases self.old n l s → IsLifted self.old.types func lifted → options ≡ options_of given → IsState bases self.new (lower_made l n s lifted given)) }
        ensures scopes { OnOk result (length self.new.scopes.items ≡ length self.old.scopes.items) }
        ensures live { OnOk result (ended self.new ≡ ended self.old) }
    {
        let instance = graph_number(n)?;
        let Some(made) = lowered_to(alloc, &self.types, instance, func, options)? else {
            return Ok(());
        };
        let func_type = graph_number(func.func_type.number())?;
        let Some(laid) = self.types.laid_func(func.func_type) else {
            return Ok(());
        };
        let core_type = lower_type(laid, options.is_async);
        self.add_canon(n, made, Some(func_type), core_type)?;
        Ok(())
    }

    /// Adds a built-in.
    pub fn add_builtin(&mut self, n: usize, made: Built) -> Result<(), AllocError>
        requires { n < length self.old.scopes.items }
        ensures ok { OnOk result ((bases : List Exports) (l : Linking) (s : Spaces) → IsAt bases self.old n l s → IsBuilt self.old.types.values made → IsState bases self.new (builtin_made l n s made.kind)) }
        ensures scopes { OnOk result (length self.new.scopes.items ≡ length self.old.scopes.items) }
        ensures live { OnOk result (ended self.new ≡ ended self.old) }
    {
        let instance = graph_number(n)?;
        let Built {
            kind,
            core_type,
            passed,
        } = made;
        let builtin = CanonFunc::Builtin(Builtin { instance, kind });
        self.add_canon(n, builtin, passed, core_type)?;
        Ok(())
    }

    /// An instance of these exports. No space has it yet.
    pub fn instance(&mut self, listing: Listing<DefinitionRef>) -> Result<InstanceRef, AllocError>
        ensures made { IfOk result (λ i. (bases : List Exports) (l : Linking) (exports : Exports) → IsState bases self.old l → IsListing self.old.types (world_of bases self.old) listing exports → IsInstance self.new.types (world_of (bases ++ exports ∷ []) self.new) i exports) }
        ensures state { OnOk result ((bases : List Exports) (l : Linking) (exports : Exports) → IsState bases self.old l → IsListing self.old.types (world_of bases self.old) listing exports → IsState (bases ++ exports ∷ []) self.new l) }
        ensures rest { self.new ≡ record self.old { instances = self.new.instances } }
    {
        let made = self.instances.add(listing)?;
        Ok(made)
    }

    /// The instance whose exports are the types that a type of instances asks for, where it asks for types alone. No space has it
    /// yet.
    pub fn instance_of_types(
        &mut self,
        alloc: Global,
        instance_type: InstanceTypeRef,
    ) -> Result<InstanceRef, AllocError>
        ensures made { IfOk result (λ i. (bases : List Exports) (l : Linking) (externs : Externs) → IsState bases self.old l → IsInstanceType self.old.types instance_type externs → IsTrue (are_types externs) → IsThere self.new l i (types_of externs)) }
        ensures rest { self.new ≡ record self.old { instances = self.new.instances } }
    {
        let made = self.instances.of_types(alloc, &self.types, instance_type)?;
        Ok(made)
    }

    /// Adds an import of a name, which is this definition.
    pub fn add_import(
        &mut self,
        n: usize,
        name: &'a Name,
        definition: DefinitionRef,
    ) -> Result<(), AllocError>
        requires { n < length self.old.scopes.items }
        ensures ok { OnOk result ((bases : List Exports) (l : Linking) (s : Spaces) (d : Definition) → IsAt bases self.old n l s → references.Stands self.old.types (world_of bases self.old) definition d → IsState bases self.new (with_spaces l n (with_import s name.now d))) }
        ensures scopes { OnOk result (length self.new.scopes.items ≡ length self.old.scopes.items) }
        ensures live { OnOk result (ended self.new ≡ ended self.old) }
    {
        self.scopes[n].add_import(name, definition)?;
        Ok(())
    }

    /// Adds an export under the number of its name, which is also one more definition.
    pub fn add_export(
        &mut self,
        n: usize,
        name: &'a Name,
        number: usize,
        definition: DefinitionRef,
    ) -> Result<(), AllocError>
        requires { n < length self.old.scopes.items }
        ensures ok { OnOk result ((bases : List Exports) (l : Linking) (s : Spaces) (d : Definition) → IsAt bases self.old n l s → IsName self.old.types number name.now → references.Stands self.old.types (world_of bases self.old) definition d → IsState bases self.new (with_spaces l n (with_export s name.now d))) }
        ensures scopes { OnOk result (length self.new.scopes.items ≡ length self.old.scopes.items) }
        ensures live { OnOk result (ended self.new ≡ ended self.old) }
    {
        self.scopes[n].add_export(name, number, definition)?;
        Ok(())
    }

    /// A component instance begins, in these component instances and with these arguments.
    pub fn begin(
        &mut self,
        alloc: Global,
        around: Shared<Seq<usize>>,
        arguments: InstanceRef,
    ) -> Result<(), AllocError>
        ensures ok { OnOk result ((bases : List Exports) (l : Linking) (c : Closure) (given : Exports) → IsState bases self.old l → c.around ≡ around → IsInstance self.old.types (world_of bases self.old) arguments given → IsState bases self.new (begun l c given)) }
        ensures scopes { OnOk result (length self.new.scopes.items ≡ length self.old.scopes.items + 1) }
        ensures live { OnOk result (ended self.new ≡ ended self.old ++ false ∷ []) }
    {
        let number = graph_number(self.scopes.len())?;
        self.scopes
            .push(Scope::new(alloc, Some(arguments), around))?;
        self.plan.push(Action::Begin(number))?;
        Ok(())
    }

    /// A component instance ends, and the instance that it has become is added to the one that made it.
    pub fn end(&mut self, alloc: Global, n: usize, instance: usize) -> Result<(), AllocError>
        requires here { n < length self.old.scopes.items }
        requires there { instance < length self.old.scopes.items }
        requires apart { n ≢ instance }
        requires live { IsLive self.old instance }
        ensures ok { OnOk result ((bases : List Exports) (l : Linking) (s : Spaces) → IsAt bases self.old n l s → Stands self.new (with_instance l n s instance)) }
        ensures scopes { OnOk result (length self.new.scopes.items ≡ length self.old.scopes.items) }
        ensures live { OnOk result ((m : ℕ) → m ≢ instance → IsLive self.old m → IsLive self.new m) }
    {
        let exports = self.scopes[instance].end(alloc);
        let made = self.instance(exports)?;
        self.add(n, DefinitionRef::Instance(made))?;
        Ok(())
    }
}

/// The item of a number, if there is a number.
pub(crate) fn item_numbered<T>(items: &[T], number: Option<usize>) -> Option<&T>
    ensures { option_copied result ≡ option_and_then (λ n. slice_get items.now n) number }
{
    items.get(number?)
}

/// A number before others.
fn put_before(alloc: Global, first: usize, others: &[usize]) -> Result<Seq<usize>, AllocError>
    ensures { IfOk result (λ s. s ≡ first ∷ others.now) }
{
    let mut numbers = Seq::of(alloc, first)?;
    for number in others {
        numbers.push(*number)?;
    }
    Ok(numbers)
}
