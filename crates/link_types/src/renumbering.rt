//! Types in which the numbers of resources are changed.
//!
//! They are made again layer by layer, as trees: a type that stands in many places of another one is gone through at each. So each
//! layer and each label takes one of the steps that the table allows for all such changes.

ghost use Rattle.std.specs.Prelude.{◌≡◌, map, Some, IfOk};
ghost use Rattle.std.specs.Option.{option_map};
ghost use Rattle.std.specs.List.{AllZip};
ghost use Rattle.syntax_trees.specs.declared.types.FuncType.{FuncType};
ghost use Rattle.syntax_trees.specs.declared.types.ValType.{ValType};
ghost use Rattle.syntax_trees.specs.declared.types.ValType.TheViews as val_type_views;
ghost use Rattle.syntax_trees.specs.declared.types.ValType.TheVariants as leaves;
ghost use Rattle.link_values.specs.Resources as resources;
ghost use Rattle.link_types.specs.Changes.{change_of};
ghost use Rattle.link_types.specs.Layered.{MayBeValue};
ghost use Rattle.link_types.specs.Labels.{IsParam};
ghost use Rattle.link_types.specs.Table.{IsValue, IsFunc, Grows};

use crate::labels::LabelledType;
use crate::types::Types;
use comp_graph::graph_number;
use laid_types::{LabelledCase, LabelledPart, ValTypeLayer};
use link_values::{Change, FuncTypeRef, plain_layer};
use std::alloc::{AllocError, Global};
use syntax_trees::{Case, Field, FuncType, Name, Param, Shared, ValType};

/// The length of text for which a label takes one step more.
const STEP_LENGTH: usize = 64;

/// A change of numbers of resources in a type that stands in so many types of instances, and where what it takes is kept.
#[derive(Clone, Copy)]
struct Renumbering<'g> {
    alloc: Global,
    change: Change<'g>,
    depth: usize,
}

/// The number that the number of a resource becomes.
fn changed(how: Renumbering<'_>, resource: u32) -> Result<u32, AllocError>
    ensures { IfOk result (λ number. number ≡ change_of how.entry.change how.entry.depth resource) }
{
    Ok(graph_number(how.change.of(how.depth, resource as usize)?)?)
}

impl<'a> Types<'a> {
    /// The text of a label, as it is kept.
    fn kept_label(&self, text: &str) -> Result<&'a str, AllocError>
        ensures { IfOk result (λ label. label.now ≡ text.now) }
    {
        let Some(number) = self.find_name(text) else {
            return Err(AllocError);
        };
        match self.text(number) {
            Some(label) => Ok(label),
            None => Err(AllocError),
        }
    }

    /// The same. It takes a step, and more for a long text.
    fn label(&mut self, text: &str) -> Result<&'a str, AllocError>
        ensures ok { IfOk result (λ label. label.now ≡ text.now) }
        ensures same { self.new ≡ self.old }
    {
        self.take_steps(text.len() / STEP_LENGTH + 1)?;
        Ok(self.kept_label(text)?)
    }

    /// The texts of labels, as they are kept.
    fn kept_labels(&mut self, alloc: Global, labels: &[Name]) -> Result<Vec<&'a str>, AllocError>
        ensures ok { IfOk result (λ texts. map (λ l. l.now) texts.items ≡ labels.now) }
        ensures same { self.new ≡ self.old }
    {
        let mut texts = Vec::new(alloc);
        for label in labels {
            texts.push(self.label(label.as_str())?)?;
        }
        Ok(texts)
    }

    /// The number of the flags type of labels, changed.
    fn changed_flags(&mut self, labels: &[Name], how: Renumbering<'_>) -> Result<usize, AllocError>
        ensures ok { IfOk result (λ number. IsValue self.new number (resources.renumbered (change_of how.entry.change how.entry.depth) (leaves.Flags labels.now))) }
        ensures grows { Grows self.old self.new }
    {
        let labels = self.kept_labels(how.alloc, labels)?;
        Ok(self.value_type(how.alloc, &ValTypeLayer::Flags(&labels))?)
    }

    /// The number of the enum type of labels, changed.
    fn changed_enum(&mut self, labels: &[Name], how: Renumbering<'_>) -> Result<usize, AllocError>
        ensures ok { IfOk result (λ number. IsValue self.new number (resources.renumbered (change_of how.entry.change how.entry.depth) (leaves.Enum labels.now))) }
        ensures grows { Grows self.old self.new }
    {
        let labels = self.kept_labels(how.alloc, labels)?;
        Ok(self.value_type(how.alloc, &ValTypeLayer::Enum(&labels))?)
    }

    /// The number of the type of owned handles of a resource, changed.
    fn changed_own(&mut self, resource: u32, how: Renumbering<'_>) -> Result<usize, AllocError>
        ensures ok { IfOk result (λ number. IsValue self.new number (resources.renumbered (change_of how.entry.change how.entry.depth) (leaves.Own resource))) }
        ensures grows { Grows self.old self.new }
    {
        let resource = changed(how, resource)?;
        Ok(self.value_type(how.alloc, &ValTypeLayer::Own(resource))?)
    }

    /// The number of the type of borrowed handles of a resource, changed.
    fn changed_borrow(&mut self, resource: u32, how: Renumbering<'_>) -> Result<usize, AllocError>
        ensures ok { IfOk result (λ number. IsValue self.new number (resources.renumbered (change_of how.entry.change how.entry.depth) (leaves.Borrow resource))) }
        ensures grows { Grows self.old self.new }
    {
        let resource = changed(how, resource)?;
        Ok(self.value_type(how.alloc, &ValTypeLayer::Borrow(resource))?)
    }
}

/// The number of a record type of these fields, changed.
#[cycle(renumbering)]
fn changed_record(
    types: &mut Types<'_>,
    fields: &[Field],
    how: Renumbering<'_>,
) -> Result<usize, AllocError>
    ensures ok { IfOk result (λ number. IsValue types.new number (resources.renumbered (change_of how.entry.change how.entry.depth) (val_type_views.Record fields.now))) }
    ensures grows { Grows types.old types.new }
{
    let mut parts = Vec::new(how.alloc);
    for field in fields {
        let number = changed_type(types, field.val_type.get(), how)?;
        let label = types.label(field.label.as_str())?;
        parts.push(LabelledPart { label, number })?;
    }
    Ok(types.value_type(how.alloc, &ValTypeLayer::Record(&parts))?)
}

/// The number of a variant type of these cases, changed.
#[cycle(renumbering)]
fn changed_variant(
    types: &mut Types<'_>,
    cases: &[Case],
    how: Renumbering<'_>,
) -> Result<usize, AllocError>
    ensures ok { IfOk result (λ number. IsValue types.new number (resources.renumbered (change_of how.entry.change how.entry.depth) (val_type_views.Variant cases.now))) }
    ensures grows { Grows types.old types.new }
{
    let mut parts = Vec::new(how.alloc);
    for case in cases {
        let payload = changed_part(types, &case.payload, how)?;
        let label = types.label(case.label.as_str())?;
        parts.push(LabelledCase { label, payload })?;
    }
    Ok(types.value_type(how.alloc, &ValTypeLayer::Variant(&parts))?)
}

/// The number of a tuple type of these places, changed.
#[cycle(renumbering)]
fn changed_tuple(
    types: &mut Types<'_>,
    places: &[Shared<ValType>],
    how: Renumbering<'_>,
) -> Result<usize, AllocError>
    ensures ok { IfOk result (λ number. IsValue types.new number (resources.renumbered (change_of how.entry.change how.entry.depth) (val_type_views.Tuple places.now))) }
    ensures grows { Grows types.old types.new }
{
    let mut parts = Vec::new(how.alloc);
    for place in places {
        parts.push(changed_type(types, place.get(), how)?)?;
    }
    Ok(types.value_type(how.alloc, &ValTypeLayer::Tuple(&parts))?)
}

/// The number of the type of a part, changed, if there is one.
#[cycle(renumbering)]
fn changed_part(
    types: &mut Types<'_>,
    part: &Option<Shared<ValType>>,
    how: Renumbering<'_>,
) -> Result<Option<usize>, AllocError>
    ensures ok { IfOk result (λ number. MayBeValue types.new.values number (option_map (resources.renumbered (change_of how.entry.change how.entry.depth)) part.now)) }
    ensures grows { Grows types.old types.new }
{
    match part {
        Some(part) => Ok(Some(changed_type(types, part.get(), how)?)),
        None => Ok(None),
    }
}

/// The number of a list type of this element, changed.
#[cycle(renumbering)]
#[tactic(auto, using(crate::proofs::RenumberedMade::list_made, crate::proofs::RenumberedMade::one_there))]
fn changed_list(
    types: &mut Types<'_>,
    element: &ValType,
    how: Renumbering<'_>,
) -> Result<usize, AllocError>
    ensures ok { IfOk result (λ number. IsValue types.new number (resources.renumbered (change_of how.entry.change how.entry.depth) (val_type_views.List element.now))) }
    ensures grows { Grows types.old types.new }
{
    let element = changed_type(types, element, how)?;
    Ok(types.value_type(how.alloc, &ValTypeLayer::List(element))?)
}

/// The number of an option type of this payload, changed.
#[cycle(renumbering)]
#[tactic(auto, using(crate::proofs::RenumberedMade::option_made, crate::proofs::RenumberedMade::other_there))]
fn changed_option(
    types: &mut Types<'_>,
    payload: &ValType,
    how: Renumbering<'_>,
) -> Result<usize, AllocError>
    ensures ok { IfOk result (λ number. IsValue types.new number (resources.renumbered (change_of how.entry.change how.entry.depth) (val_type_views.Option payload.now))) }
    ensures grows { Grows types.old types.new }
{
    let payload = changed_type(types, payload, how)?;
    Ok(types.value_type(how.alloc, &ValTypeLayer::Option(payload))?)
}

/// The number of a stream type of this element, changed.
#[cycle(renumbering)]
#[tactic(auto, using(crate::proofs::RenumberedMade::stream_made, crate::proofs::RenumberedMade::held_there))]
fn changed_stream(
    types: &mut Types<'_>,
    element: &Option<Shared<ValType>>,
    how: Renumbering<'_>,
) -> Result<usize, AllocError>
    ensures ok { IfOk result (λ number. IsValue types.new number (resources.renumbered (change_of how.entry.change how.entry.depth) (val_type_views.Stream element.now))) }
    ensures grows { Grows types.old types.new }
{
    let element = changed_part(types, element, how)?;
    Ok(types.value_type(how.alloc, &ValTypeLayer::Stream(element))?)
}

/// The number of a future type of this element, changed.
#[cycle(renumbering)]
#[tactic(auto, using(crate::proofs::RenumberedMade::future_made, crate::proofs::RenumberedMade::held_there))]
fn changed_future(
    types: &mut Types<'_>,
    element: &Option<Shared<ValType>>,
    how: Renumbering<'_>,
) -> Result<usize, AllocError>
    ensures ok { IfOk result (λ number. IsValue types.new number (resources.renumbered (change_of how.entry.change how.entry.depth) (val_type_views.Future element.now))) }
    ensures grows { Grows types.old types.new }
{
    let element = changed_part(types, element, how)?;
    Ok(types.value_type(how.alloc, &ValTypeLayer::Future(element))?)
}

/// The number of a type, changed.
#[cycle(renumbering)]
fn changed_type(
    types: &mut Types<'_>,
    val_type: &ValType,
    how: Renumbering<'_>,
) -> Result<usize, AllocError>
    ensures ok { IfOk result (λ number. IsValue types.new number (resources.renumbered (change_of how.entry.change how.entry.depth) val_type.now)) }
    ensures grows { Grows types.old types.new }
{
    types.take_steps(1)?;
    if let Some(layer) = plain_layer(val_type) {
        return Ok(types.value_type(how.alloc, &layer)?);
    }
    match val_type {
        ValType::Record(fields) => changed_record(types, fields.as_slice(), how),
        ValType::Variant(cases) => changed_variant(types, cases.as_slice(), how),
        ValType::Tuple(places) => changed_tuple(types, places.as_slice(), how),
        ValType::Flags(labels) => types.changed_flags(labels.as_slice(), how),
        ValType::Enum(labels) => types.changed_enum(labels.as_slice(), how),
        ValType::List(element) => changed_list(types, element.get(), how),
        ValType::Option(payload) => changed_option(types, payload.get(), how),
        ValType::Result { ok, err } => {
            let ok = changed_part(types, ok, how)?;
            let err = changed_part(types, err, how)?;
            Ok(types.value_type(how.alloc, &ValTypeLayer::Result { ok, err })?)
        }
        ValType::Stream(element) => changed_stream(types, element, how),
        ValType::Future(element) => changed_future(types, element, how),
        ValType::Own(resource) => types.changed_own(*resource, how),
        ValType::Borrow(resource) => types.changed_borrow(*resource, how),
        _ => Err(AllocError),
    }
}

/// A parameter, changed, with the number of its type.
fn changed_param<'a>(
    types: &mut Types<'a>,
    param: &Param,
    how: Renumbering<'_>,
) -> Result<LabelledType<'a>, AllocError>
    ensures ok { IfOk result (λ p. IsParam types.new.values p (resources.renumbered_param (change_of how.entry.change how.entry.depth) param.now)) }
    ensures grows { Grows types.old types.new }
{
    let val_type = changed_type(types, param.val_type.get(), how)?;
    let label = types.label(param.label.as_str())?;
    Ok(LabelledType { label, val_type })
}

/// Parameters, changed, with the numbers of their types.
fn changed_params<'a>(
    types: &mut Types<'a>,
    params: &[Param],
    how: Renumbering<'_>,
) -> Result<Vec<LabelledType<'a>>, AllocError>
    ensures ok { IfOk result (λ v. AllZip (IsParam types.new.values) v.items (map (resources.renumbered_param (change_of how.entry.change how.entry.depth)) params.now)) }
    ensures grows { Grows types.old types.new }
{
    let mut all = Vec::new(how.alloc);
    for param in params {
        all.push(changed_param(types, param, how)?)?;
    }
    Ok(all)
}

/// A value type, by its number, in which the numbers of resources are changed, where it stands in so many types of instances. It fails
/// for want of memory alone, as does the other function here, and also where more layers are gone through than the table allows.
pub fn changed_value(
    alloc: Global,
    types: &mut Types<'_>,
    number: usize,
    change: Change<'_>,
    depth: usize,
) -> Result<usize, AllocError>
    ensures ok { IfOk result (λ new. (type : ValType) → IsValue types.old number type → IsValue types.new new (resources.renumbered (change_of change.entry depth) type)) }
    ensures grows { Grows types.old types.new }
{
    let Some(val_type) = types.value(number) else {
        return Err(AllocError);
    };
    let val_type = val_type.share()?;
    let how = Renumbering {
        alloc,
        change,
        depth,
    };
    Ok(changed_type(types, val_type.get(), how)?)
}

/// A function type of the table, in which they are changed.
fn changed_known(
    types: &mut Types<'_>,
    known: &FuncType,
    how: Renumbering<'_>,
) -> Result<FuncTypeRef, AllocError>
    ensures ok { IfOk result (λ new. IsFunc types.new new (resources.renumbered_func (change_of how.entry.change how.entry.depth) known.now)) }
    ensures grows { Grows types.old types.new }
{
    let params = changed_params(types, known.params.as_slice(), how)?;
    let returned = changed_part(types, &known.result, how)?;
    Ok(types.func_type(how.alloc, &params, returned)?)
}

/// The same of a function type.
pub fn changed_func(
    alloc: Global,
    types: &mut Types<'_>,
    func_type: FuncTypeRef,
    change: Change<'_>,
    depth: usize,
) -> Result<FuncTypeRef, AllocError>
    ensures ok { IfOk result (λ new. (type : FuncType) → IsFunc types.old func_type type → IsFunc types.new new (resources.renumbered_func (change_of change.entry depth) type)) }
    ensures grows { Grows types.old types.new }
{
    let Some(known) = types.func_at(func_type) else {
        return Err(AllocError);
    };
    let known = known.share()?;
    let how = Renumbering {
        alloc,
        change,
        depth,
    };
    Ok(changed_known(types, known.get(), how)?)
}
