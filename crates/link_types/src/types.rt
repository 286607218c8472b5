//! The table of types.

ghost use Rattle.std.specs.Prelude.{◌≡◌, ◌<◌, ◌∷◌, ◌↔◌, ℕ, List, length, Some, None, IfOk, IfSome, IsTrue};
ghost use Rattle.std.specs.List.{slice_get, AllZip};
ghost use Rattle.std.specs.Option.{MatchOption};
ghost use Rattle.syntax_trees.specs.declared.types.FuncType.{FuncType};
ghost use Rattle.syntax_trees.specs.declared.types.Param.{Param};
ghost use Rattle.syntax_trees.specs.declared.types.ValType.TheVariants as leaves;
ghost use Rattle.comp_graph.specs.Closed.{Closed, Externs, extern_named};
ghost use Rattle.comp_graph.specs.Passed.{params_type, IsNumbered};
ghost use Rattle.laid_types.specs.Layers.{AreThere, type_of, part_numbers};
ghost use Rattle.link_types.specs.Layered.{IsParams, IsFuncLayer};
ghost use Rattle.link_types.specs.Labels.{HaveTypes, AreValues, IsParam, IsFuncOf};
ghost use Rattle.link_types.specs.Laid.{IsLaid};
ghost use Rattle.link_types.specs.Table.{no_types, IsName, IsValue, IsFunc, IsType, IsInstanceType, MayBeExtern, MayBeEntry, in_order, Grows, AreDistinct};

use crate::kept_func::KeptFunc;
use crate::labels::{LabelledType, type_numbers};
use crate::laid_func::LaidFunc;
use comp_graph::{FuncTypes, NumberedFunc};
use laid_types::{LaidType, ValTypeLayer};
use link_values::{
    ExternRef, FuncTypeRef, InstanceTypeRef, Layer, Layers, Listing, Names, TypeRef, ValueTypes,
    are_same, label_texts,
};
use std::alloc::{AllocError, Global};
use std::collections::BTreeMap;
use std::marker::Model;
use syntax_trees::{FuncType, Name, Shared};

/// How many layers of types may be gone through where numbers of resources are changed, and how many times `LOOK_COUNT` exports where
/// these are counted or found. A type that stands in others over and over comes to more, and then there is no memory for it.
const STEP_LIMIT: usize = 4_194_304;

/// How many types of instances that name a resource may stand in one another where they are gone through.
pub const NESTING_LIMIT: usize = 1_000;

/// Types, each layer of them once: two types are the same exactly where the numbers of their layers are. A type that is in
/// another one stands there by its number, so nothing here nests. Contracts see the texts of names, the types of values, the
/// layers, and of the types that were made the function types and the listings of exports.
#[derive(Drop)]
pub struct Types<'a> {
    names: Names<'a>,
    values: ValueTypes<'a>,
    layers: Layers,
    funcs: Vec<KeptFunc>,
    /// The function types again, each with the numbers of the types of what it passes.
    numbered: Vec<NumberedFunc>,
    instances: Vec<Listing<ExternRef>>,
    /// The number of the function type of a layer.
    func_numbers: BTreeMap<usize, usize>,
    /// The number of a listing of exports of a layer, so that a type that is made twice is kept once.
    instance_numbers: BTreeMap<usize, usize>,
    /// How many layers may still be gone through.
    steps: usize,
}

impl<'a> Model for Types<'a> {
    ghost use Rattle.std.specs.Coded.{codes};
    ghost use Rattle.syntax_trees.specs.contracts.types.ValType as val_type;
    ghost use Rattle.syntax_trees.specs.contracts.types.FuncType as func_type;
    ghost use Rattle.link_values.specs.contracts.layers.Layer as layer;
    ghost use Rattle.link_values.specs.contracts.refs.ExternRef as extern_ref;
    ghost use Rattle.link_types.specs.Table.{Table};
    ghost use Rattle.link_types.specs.Kept.{IsKept};

    ghost Value = { Table };

    ghost coded = { Prim.hlevel (codes, val_type.the_row.coded, func_type.the_row.coded, layer.the_row.coded, extern_ref.the_row.coded) };

    ghost view = { λ t. record { texts = t.names; values = t.values; layers = t.layers; funcs = t.funcs.items; instances = t.instances.items } };

    ghost invariant = { λ t. IsKept t.func_numbers t.numbered.items (record { texts = t.names; values = t.values; layers = t.layers; funcs = t.funcs.items; instances = t.instances.items }) };
}

impl<'a> Types<'a> {
    /// No types. They take no memory.
    pub fn new(alloc: Global) -> Types<'a>
        ensures { result ≡ no_types }
    {
        Types {
            names: Names::new(alloc),
            values: ValueTypes::new(alloc),
            layers: Layers::new(alloc),
            funcs: Vec::new(alloc),
            numbered: Vec::new(alloc),
            instances: Vec::new(alloc),
            func_numbers: BTreeMap::new(alloc),
            instance_numbers: BTreeMap::new(alloc),
            steps: STEP_LIMIT,
        }
    }

    /// Takes so many of the steps that are allowed where types that name resources are gone through. It fails where fewer are left. How
    /// many are left is no part of what contracts see.
    pub fn take_steps(&mut self, count: usize) -> Result<(), AllocError>
        ensures { self.new ≡ self.old }
    {
        if count > self.steps {
            return Err(AllocError);
        }
        self.steps -= count;
        Ok(())
    }

    /// The number of a name, which is added where its text is not there. It fails for want of memory alone, as do all calls
    /// here that fail. Whatever a call answers, what stood in the table stands there still.
    pub fn name(&mut self, text: &'a str) -> Result<usize, AllocError>
        ensures ok { IfOk result (λ number. IsName self.new number text.now) }
        ensures grows { Grows self.old self.new }
    {
        Ok(self.names.number_of(text)?)
    }

    /// The number of a name whose text is there.
    pub(crate) fn find_name(&self, text: &str) -> Option<usize>
        ensures { IfSome result (λ number. IsName self.now number text.now) }
    {
        self.names.find(text)
    }

    /// Keeps the text of a label among those of names.
    fn keep_label(&mut self, label: &'a str) -> Result<(), AllocError>
        ensures values { self.new.values ≡ self.old.values }
        ensures grows { Grows self.old self.new }
    {
        self.names.number_of(label)?;
        Ok(())
    }

    /// Keeps the texts of labels among those of names.
    fn keep_labels(&mut self, labels: &[&'a str]) -> Result<(), AllocError>
        ensures values { self.new.values ≡ self.old.values }
        ensures grows { Grows self.old self.new }
    {
        for label in labels {
            self.keep_label(*label)?;
        }
        Ok(())
    }

    /// The text of a name.
    pub fn text(&self, number: usize) -> Option<&'a str>
        ensures { MatchOption result (slice_get self.now.texts number ≡ None) (λ text. IsName self.now number text.now) }
    {
        self.names.text(number)
    }

    /// The number of the value type of a layer, whose parts are there. It is added where it is not there. The texts of its labels are kept
    /// among those of names.
    pub fn value_type(
        &mut self,
        alloc: Global,
        layer: &ValTypeLayer<'_, 'a>,
    ) -> Result<usize, AllocError>
        requires { AreThere self.old.values (part_numbers layer.now) }
        ensures ok { IfOk result (λ number. IsValue self.new number (type_of self.old.values layer.now)) }
        ensures grows { Grows self.old self.new }
    {
        let labels = layer.labels(alloc)?;
        self.keep_labels(&labels)?;
        let number = self.value_number(alloc, layer)?;
        Ok(number)
    }

    /// The same, where the labels are kept.
    fn value_number(
        &mut self,
        alloc: Global,
        layer: &ValTypeLayer<'_, 'a>,
    ) -> Result<usize, AllocError>
        requires { AreThere self.old.values (part_numbers layer.now) }
        ensures ok { IfOk result (λ number. IsValue self.new number (type_of self.old.values layer.now)) }
        ensures grows { Grows self.old self.new }
    {
        Ok(self.values.number_of(alloc, layer)?)
    }

    /// The number of the flags type of labels (Component Model, Explainer.md, "Type Definitions").
    pub fn flags_type(&mut self, alloc: Global, labels: &'a [Name]) -> Result<usize, AllocError>
        ensures ok { IfOk result (λ number. IsValue self.new number (leaves.Flags labels.now)) }
        ensures grows { Grows self.old self.new }
    {
        let labels = label_texts(alloc, labels)?;
        Ok(self.value_type(alloc, &ValTypeLayer::Flags(&labels))?)
    }

    /// The number of the enum type of labels (Component Model, Explainer.md, "Type Definitions").
    pub fn enum_type(&mut self, alloc: Global, labels: &'a [Name]) -> Result<usize, AllocError>
        ensures ok { IfOk result (λ number. IsValue self.new number (leaves.Enum labels.now)) }
        ensures grows { Grows self.old self.new }
    {
        let labels = label_texts(alloc, labels)?;
        Ok(self.value_type(alloc, &ValTypeLayer::Enum(&labels))?)
    }

    /// How many value types there are.
    pub fn value_count(&self) -> usize
        ensures { result ≡ length self.now.values }
    {
        self.values.len()
    }

    /// The value type of a number, with what is computed of it.
    pub fn value(&self, number: usize) -> Option<LaidType<'_>>
        ensures { result ≡ slice_get self.now.values number }
    {
        self.values.get(number)
    }

    /// Makes a function type, with its parameters in order and its result, each by the number of its value type, which is there.
    pub fn func_type(
        &mut self,
        alloc: Global,
        params: &[LabelledType<'a>],
        returned: Option<usize>,
    ) -> Result<FuncTypeRef, AllocError>
        requires { AreValues self.old.values params.now returned }
        ensures ok { IfOk result (λ ref. (type : FuncType) → IsFuncOf self.old.values params.now returned type → IsFunc self.new ref type) }
        ensures grows { Grows self.old self.new }
    {
        let layer = self.func_layer(params, returned)?;
        let number = self.func_number(alloc, layer, params, returned)?;
        Ok(FuncTypeRef { layer, number })
    }

    /// The number of the layer of a function type.
    fn func_layer(
        &mut self,
        params: &[LabelledType<'a>],
        returned: Option<usize>,
    ) -> Result<usize, AllocError>
        ensures ok { IfOk result (λ number. (type : FuncType) → IsFuncOf self.old.values params.now returned type → IsFuncLayer self.new.texts self.new.values self.new.layers number type) }
        ensures grows { Grows self.old self.new }
    {
        let params = self.params(params)?;
        let number = self.layer(Layer::Func { params, returned })?;
        Ok(number)
    }

    /// The number of the layer of some parameters.
    fn params(&mut self, params: &[LabelledType<'a>]) -> Result<usize, AllocError>
        ensures ok { IfOk result (λ number. (all : List Param) → AllZip (IsParam self.old.values) params.now all → IsParams self.new.texts self.new.values self.new.layers number all) }
        ensures grows { Grows self.old self.new }
    {
        let mut others = self.layer(Layer::NoParams)?;
        let mut at = params.len();
        while at > 0 {
            at -= 1;
            others = self.param(&params[at], others)?;
        }
        Ok(others)
    }

    /// The number of the layer of a parameter before others.
    fn param(&mut self, param: &LabelledType<'a>, others: usize) -> Result<usize, AllocError>
        ensures ok { IfOk result (λ number. (first : Param) (all : List Param) → IsParam self.old.values param.now first → IsParams self.old.texts self.old.values self.old.layers others all → IsParams self.new.texts self.new.values self.new.layers number (first ∷ all)) }
        ensures grows { Grows self.old self.new }
    {
        let label = self.name(param.label)?;
        let number = self.layer(Layer::Param {
            label,
            val_type: param.val_type,
            others,
        })?;
        Ok(number)
    }

    /// The number of a layer.
    pub(crate) fn layer(&mut self, layer: Layer) -> Result<usize, AllocError>
        ensures ok { IfOk result (λ number. slice_get self.new.layers number ≡ Some layer) }
        ensures grows { Grows self.old self.new }
    {
        Ok(self.layers.number_of(layer)?)
    }

    /// The number of the function type of a layer. The type is added where it is not there.
    fn func_number(
        &mut self,
        alloc: Global,
        layer: usize,
        params: &[LabelledType<'a>],
        returned: Option<usize>,
    ) -> Result<usize, AllocError>
        requires there { AreValues self.old.values params.now returned }
        requires layer { (type : FuncType) → IsFuncOf self.old.values params.now returned type → IsFuncLayer self.old.texts self.old.values self.old.layers layer type }
        ensures ok { IfOk result (λ number. (type : FuncType) → IsFuncOf self.old.values params.now returned type → IsFunc self.new (record { layer = layer; number = number }) type) }
        ensures grows { Grows self.old self.new }
    {
        if let Some(number) = self.kept_func(layer) {
            return Ok(number);
        }
        let number = self.make_func(alloc, params, returned)?;
        self.keep_func(layer, number)?;
        Ok(number)
    }

    /// Adds a function type and the type of its arguments, and answers its number.
    fn make_func(
        &mut self,
        alloc: Global,
        params: &[LabelledType<'a>],
        returned: Option<usize>,
    ) -> Result<usize, AllocError>
        requires { AreValues self.old.values params.now returned }
        ensures ok { IfOk result (λ number. (made : FuncType) × IsFuncOf self.old.values params.now returned made × (slice_get self.new.funcs number ≡ Some made)) }
        ensures grows { Grows self.old self.new }
    {
        let passed = self.params_type(alloc, params)?;
        let func_type = self.closed_func(alloc, params, returned)?;
        let numbered = func_type.numbered(passed, returned)?;
        let number = self.add_func(func_type, numbered)?;
        Ok(number)
    }

    /// The number of the tuple type of the parameters' types.
    fn params_type(
        &mut self,
        alloc: Global,
        params: &[LabelledType<'a>],
    ) -> Result<usize, AllocError>
        requires { HaveTypes self.old.values params.now }
        ensures ok { IfOk result (λ number. (type : FuncType) → AllZip (IsParam self.old.values) params.now type.params → IsValue self.new number (params_type type)) }
        ensures grows { Grows self.old self.new }
    {
        let numbers = type_numbers(alloc, params)?;
        let number = self.value_type(alloc, &ValTypeLayer::Tuple(&numbers))?;
        Ok(number)
    }

    /// The function type of parameters and a result.
    fn closed_func(
        &self,
        alloc: Global,
        params: &[LabelledType<'a>],
        returned: Option<usize>,
    ) -> Result<KeptFunc, AllocError>
        requires { AreValues self.now.values params.now returned }
        ensures { IfOk result (λ f. IsFuncOf self.now.values params.now returned f) }
    {
        let func_type = KeptFunc::of(alloc, &self.values, params, returned)?;
        Ok(func_type)
    }

    /// The number of the function type of a layer, if it is there.
    fn kept_func(&self, layer: usize) -> Option<usize>
        ensures { IfSome result (λ number. (type : FuncType) → IsFuncLayer self.now.texts self.now.values self.now.layers layer type → IsFunc self.now (record { layer = layer; number = number }) type) }
    {
        self.func_numbers.get(&layer).copied()
    }

    /// Keeps the number of the function type of a layer.
    fn keep_func(&mut self, layer: usize, number: usize) -> Result<(), AllocError>
        requires { (type : FuncType) × IsFunc self.old (record { layer = layer; number = number }) type }
        ensures { self.new ≡ self.old }
    {
        self.func_numbers.insert(layer, number)?;
        Ok(())
    }

    /// Adds a function type, and answers its number.
    fn add_func(&mut self, func_type: KeptFunc, numbered: NumberedFunc) -> Result<usize, AllocError>
        requires same { numbered.func_type ≡ func_type }
        requires passed { IsNumbered self.old.values numbered }
        ensures ok { IfOk result (λ number. slice_get self.new.funcs number ≡ Some func_type) }
        ensures grows { Grows self.old self.new }
    {
        let number = self.funcs.len();
        self.numbered.reserve(1)?;
        self.funcs.push(func_type)?;
        self.numbered.push_reserved(numbered);
        Ok(number)
    }

    /// The number of the listing of exports that has this layer. It is added where it is not there.
    pub(crate) fn instance_number(
        &mut self,
        layer: usize,
        externs: Listing<ExternRef>,
    ) -> Result<usize, AllocError>
        ensures ok { IfOk result (λ number. slice_get self.new.instances number ≡ Some externs) }
        ensures grows { Grows self.old self.new }
    {
        if let Some(number) = self.kept_instance(layer, &externs) {
            return Ok(number);
        }
        let number = self.add_instance(externs)?;
        self.instance_numbers.insert(layer, number)?;
        Ok(number)
    }

    /// The number of the listing of exports of a layer, if it is there.
    fn kept_instance(&self, layer: usize, externs: &Listing<ExternRef>) -> Option<usize>
        ensures { IfSome result (λ number. slice_get self.now.instances number ≡ Some externs.now) }
    {
        let number = self.instance_numbers.get(&layer).copied()?;
        let kept = self.instances.get(number)?;
        if !are_same(kept.entries(), externs.entries()) {
            return None;
        }
        Some(number)
    }

    /// Adds a listing of exports, and answers its number.
    fn add_instance(&mut self, externs: Listing<ExternRef>) -> Result<usize, AllocError>
        ensures ok { IfOk result (λ number. slice_get self.new.instances number ≡ Some externs) }
        ensures grows { Grows self.old self.new }
    {
        let number = self.instances.len();
        self.instances.push(externs)?;
        Ok(number)
    }

    /// No text, no value type and no layer stands twice.
    pub fn are_distinct(&self)
        ensures { AreDistinct self.now.texts self.now.values self.now.layers }
    {
        let _ = &self.layers;
    }

    /// How many types of instances were made.
    pub fn instance_count(&self) -> usize
        ensures { result ≡ length self.now.instances }
    {
        self.instances.len()
    }

    /// Whether two function types are the same.
    pub fn same_func(&self, a: FuncTypeRef, b: FuncTypeRef) -> bool
        ensures { (f g : FuncType) → IsFunc self.now a f → IsFunc self.now b g → (IsTrue result ↔ (f ≡ g)) }
    {
        // No layer stands twice.
        let _ = &self.layers;
        a.layer == b.layer
    }

    /// Whether two types are the same.
    pub fn same_type(&self, a: TypeRef, b: TypeRef) -> bool
        ensures { (f g : Closed) → IsType self.now a f → IsType self.now b g → (IsTrue result ↔ (f ≡ g)) }
    {
        // No layer stands twice.
        let _ = &self.layers;
        a.layer() == b.layer()
    }

    /// A function type, where its number is there.
    pub fn func_at(&self, func_type: FuncTypeRef) -> Option<&Shared<FuncType>>
        ensures stands { (f : FuncType) → IsFunc self.now func_type f → MatchOption result ⊥ (λ t. t.now ≡ f) }
        ensures there { IfSome result (λ t. slice_get self.now.funcs func_type.number ≡ Some t.now) }
    {
        let kept = self.funcs.get(func_type.number)?;
        Some(kept.func_type())
    }

    /// What lifts and lowers ask of a function type, where its number is there. It is computed once, where the type is added.
    pub fn laid_func(&self, func_type: FuncTypeRef) -> Option<&LaidFunc>
        ensures { (f : FuncType) → IsFunc self.now func_type f → MatchOption result ⊥ (λ laid. IsLaid laid.now f) }
    {
        let kept = self.funcs.get(func_type.number)?;
        Some(kept.laid())
    }

    /// The export of a name: of equal names the first.
    pub fn extern_named(&self, instance_type: InstanceTypeRef, name: usize) -> Option<ExternRef>
        requires { instance_type.number < length self.now.instances }
        ensures { (externs : Externs) (text : List ℕ) → IsInstanceType self.now instance_type externs → IsName self.now name text → MayBeExtern self.now result (extern_named text externs) }
    {
        // No text stands twice.
        let _ = &self.names;
        self.listing(instance_type).find(name)
    }

    /// The number of the name and the export at a place.
    pub fn extern_at(&self, instance_type: InstanceTypeRef, at: usize) -> Option<(usize, ExternRef)>
        requires { instance_type.number < length self.now.instances }
        ensures { (externs : Externs) → IsInstanceType self.now instance_type externs → MayBeEntry self.now result (slice_get (in_order externs) at) }
    {
        self.listing(instance_type).get(at)
    }

    /// How many exports there are.
    pub fn extern_count(&self, instance_type: InstanceTypeRef) -> usize
        requires { instance_type.number < length self.now.instances }
        ensures { (externs : Externs) → IsInstanceType self.now instance_type externs → result ≡ length (in_order externs) }
    {
        self.listing(instance_type).len()
    }

    /// The listing of exports.
    fn listing(&self, instance_type: InstanceTypeRef) -> &Listing<ExternRef>
        requires { instance_type.number < length self.now.instances }
        ensures { slice_get self.now.instances instance_type.number ≡ Some result.now }
    {
        &self.instances[instance_type.number]
    }

    /// The function types, with the types of values, each laid out.
    pub fn into_func_types(self) -> FuncTypes
        ensures { result ≡ record { funcs = self.entry.funcs; values = self.entry.values } }
    {
        self.values.are_apart();
        FuncTypes::new(self.values.into_laid(), self.numbered)
    }
}
