//! Instances whose exports are the types that a type of instances asks for: one for each type.

ghost use Rattle.std.specs.Prelude.{◌≡◌, ◌++◌, ℕ, List, Option, Some, None, IfOk, OnOk, OnErr, IsTrue};
ghost use Rattle.comp_graph.specs.Closed.{Extern, Externs};
ghost use Rattle.link_spec.specs.Definitions as definitions;
ghost use Rattle.link_spec.specs.Tests as tests;
ghost use Rattle.link_types.specs.Table.{Table, IsExtern, IsInstanceType, MayBeEntry};
ghost use Rattle.link_instances.specs.References.{World, IsListing, with_base};
ghost use Rattle.link_instances.specs.Instances.{AreInstances, HasInstance, GivesInstance};
ghost use Rattle.link_instances.specs.OfTypes.{is_plain, type_listed, base_of, kept_for, StayKept};

use crate::instances::Instances;
use crate::references::{DefinitionRef, InstanceRef};
use link_types::{
    ExternRef, InstanceTypeRef, Listing, Types, asked_at, asked_count, names_resource,
};
use std::alloc::{AllocError, Global};

/// Whether an export is a type that names no resource.
#[tactic(auto, using(crate::proofs::TypesAsked::type_plain, crate::proofs::TypesAsked::func_not_plain, crate::proofs::TypesAsked::instance_not_plain))]
fn is_plain(types: &Types<'_>, item: ExternRef) -> bool
    ensures { (extern : Extern) → IsExtern types.now item extern → result ≡ is_plain extern }
{
    match item {
        ExternRef::Type(closed) => !names_resource(types, closed),
        ExternRef::Func(_) => false,
        ExternRef::Instance(_) => false,
    }
}

/// Whether such a type is asked for.
#[tactic(auto, using(crate::proofs::TypesAsked::entry_plain, crate::proofs::TypesAsked::none_plain))]
fn is_plain_type(types: &Types<'_>, entry: Option<(usize, ExternRef)>) -> bool
    ensures { (asked : List ℕ × Extern) → MayBeEntry types.now entry (Some asked) → result ≡ is_plain asked.1 }
{
    match entry {
        Some((_, item)) => is_plain(types, item),
        None => false,
    }
}

/// Whether all that a type of instances asks for are types that name no resource.
fn are_types(types: &Types<'_>, instance_type: InstanceTypeRef) -> bool
    ensures { (externs : Externs) → IsInstanceType types.now instance_type externs → result ≡ tests.are_types externs }
{
    for at in 0..asked_count(types, instance_type) {
        if !is_plain_type(types, asked_at(types, instance_type, at)) {
            return false;
        }
    }
    true
}

/// Puts a type that is asked for behind others, as a definition. It fails for want of memory alone, as do all functions here
/// that fail.
fn push_type(
    listing: &mut Listing<DefinitionRef>,
    entry: Option<(usize, ExternRef)>,
) -> Result<(), AllocError>
    ensures { OnOk result (listing.new ≡ listing.old ++ type_listed entry) }
{
    if let Some((name, ExternRef::Type(closed))) = entry {
        listing.push(name, DefinitionRef::Type(closed))?;
    }
    Ok(())
}

/// The types that a type of instances asks for, as the exports of an instance.
fn types_of(
    alloc: Global,
    types: &Types<'_>,
    instance_type: InstanceTypeRef,
) -> Result<Listing<DefinitionRef>, AllocError>
    ensures { IfOk result (λ listing. (w : World) (externs : Externs) → IsInstanceType types.now instance_type externs → IsListing types.now w listing (definitions.types_of externs)) }
{
    let mut listing = Listing::new(alloc);
    for at in 0..asked_count(types, instance_type) {
        push_type(&mut listing, asked_at(types, instance_type, at))?;
    }
    Ok(listing)
}

impl Instances {
    /// The number of the exports that are kept for a type of instances.
    fn base_of(&self, instance_type: InstanceTypeRef) -> Option<usize>
        ensures { result ≡ base_of self.now.of_types instance_type }
    {
        self.of_types.get(&instance_type).copied()
    }

    /// Whether all that a type of instances asks for are types that name no resource.
    pub fn are_types(&self, types: &Types<'_>, instance_type: InstanceTypeRef) -> bool
        ensures { (w : World) (externs : Externs) → AreInstances types.now w self.now → IsInstanceType types.now instance_type externs → result ≡ tests.are_types externs }
    {
        types.are_distinct();
        match self.base_of(instance_type) {
            Some(_) => true,
            None => are_types(types, instance_type),
        }
    }

    /// Keeps exports for a type of instances, as those of an instance. Where it fails, it keeps none.
    fn keep_types(
        &mut self,
        instance_type: InstanceTypeRef,
        listing: Listing<DefinitionRef>,
    ) -> Result<InstanceRef, AllocError>
        ensures ok { IfOk result (λ i. (t : Table) (w : World) (externs : Externs) → AreInstances t w self.old → IsInstanceType t instance_type externs → IsTrue (tests.are_types externs) → IsListing t w listing (definitions.types_of externs) → HasInstance t (with_base w (definitions.types_of externs)) self.new i (definitions.types_of externs)) }
        ensures kept { IfOk result (λ i. kept_for self.new.of_types instance_type ≡ Some i) }
        ensures stay { base_of self.old.of_types instance_type ≡ None → StayKept self.old.of_types self.new.of_types }
        ensures err { OnErr result ((t : Table) (w : World) → AreInstances t w self.old → AreInstances t w self.new) }
    {
        let base = self.bases.len();
        self.bases.reserve(1)?;
        self.of_types.insert(instance_type, base)?;
        self.bases.push_reserved(listing);
        Ok(InstanceRef {
            base,
            seen_as: None,
        })
    }

    /// The instance whose exports are the types that a type of instances asks for, where it asks for types alone. It is the same
    /// one for each call with this type. Where it fails, it adds none.
    pub fn of_types(
        &mut self,
        alloc: Global,
        types: &Types<'_>,
        instance_type: InstanceTypeRef,
    ) -> Result<InstanceRef, AllocError>
        ensures ok { IfOk result (λ i. (w : World) (externs : Externs) → AreInstances types.now w self.old → IsInstanceType types.now instance_type externs → IsTrue (tests.are_types externs) → GivesInstance types.now w self.new i (definitions.types_of externs)) }
        // What is answered is kept, and what was kept stays.
        ensures kept { IfOk result (λ i. kept_for self.new.of_types instance_type ≡ Some i) }
        ensures stay { StayKept self.old.of_types self.new.of_types }
        ensures err { OnErr result ((w : World) → AreInstances types.now w self.old → AreInstances types.now w self.new) }
    {
        types.are_distinct();
        if let Some(base) = self.base_of(instance_type) {
            return Ok(InstanceRef {
                base,
                seen_as: None,
            });
        }
        let listing = types_of(alloc, types, instance_type)?;
        let instance = self.keep_types(instance_type, listing)?;
        Ok(instance)
    }
}
