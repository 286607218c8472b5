//! Instances, by number.

ghost use Rattle.std.specs.Prelude.{◌≡◌, ℕ, List, [], IfOk, OnErr};
ghost use Rattle.std.specs.List.{slice_get};
ghost use Rattle.link_spec.specs.Definitions as linking;
ghost use Rattle.link_spec.specs.Definitions.{Exports};
ghost use Rattle.link_types.specs.Table.{Table};
ghost use Rattle.link_instances.specs.References.{World, with_base, IsInstance, IsListing, IsFound, found_at};
ghost use Rattle.link_instances.specs.Instances.{AreInstances};

use crate::pairs::Pair;
use crate::references::{DefinitionRef, InstanceRef, seen_as};
use link_types::{InstanceTypeRef, Listing, Types, asked_named};
use std::alloc::{AllocError, Global};
use std::collections::{BTreeMap, BTreeSet};

/// The exports of instances, by the number of their base.
#[derive(Drop)]
pub struct Instances {
    pub(crate) bases: Vec<Listing<DefinitionRef>>,
    /// Pairs of an instance and a type that it is known to be of.
    pub(crate) known: BTreeSet<Pair>,
    /// The bases whose exports are the types that a type of instances asks for.
    pub(crate) of_types: BTreeMap<InstanceTypeRef, usize>,
}

impl Instances {
    /// No instances. They take no memory.
    pub fn new(alloc: Global) -> Instances
        ensures { (t : Table) (w : World) → w.bases ≡ [] → AreInstances t w result }
    {
        Instances {
            bases: Vec::new(alloc),
            known: BTreeSet::new(alloc),
            of_types: BTreeMap::new(alloc),
        }
    }

    /// Adds an instance of these exports. It fails for want of memory alone, and then adds none.
    pub fn add(&mut self, listing: Listing<DefinitionRef>) -> Result<InstanceRef, AllocError>
        ensures ok { IfOk result (λ i. (t : Table) (w : World) (exports : Exports) → AreInstances t w self.old → IsListing t w listing exports → IsInstance t (with_base w exports) i exports) }
        ensures stand { IfOk result (λ i. (t : Table) (w : World) (exports : Exports) → AreInstances t w self.old → IsListing t w listing exports → AreInstances t (with_base w exports) self.new) }
        ensures err { OnErr result ((t : Table) (w : World) → AreInstances t w self.old → AreInstances t w self.new) }
        ensures kept { self.new.of_types ≡ self.old.of_types }
    {
        let base = self.bases.len();
        self.bases.push(listing)?;
        Ok(InstanceRef {
            base,
            seen_as: None,
        })
    }

    /// What stands under a name in a base.
    pub(crate) fn found(&self, base: usize, name: usize) -> Option<DefinitionRef>
        ensures { result ≡ found_at self.now.bases.items base name }
    {
        self.bases.get(base)?.find(name)
    }

    /// The export of a name of an instance, as it is seen: of equal names the first.
    pub fn export_named(
        &self,
        types: &Types<'_>,
        instance: InstanceRef,
        name: usize,
    ) -> Option<DefinitionRef>
        ensures { (w : World) (exports : Exports) (q : List ℕ) → AreInstances types.now w self.now → IsInstance types.now w instance exports → slice_get types.now.texts name ≡ Some q → IsFound types.now w result (linking.export_named q exports) }
    {
        types.are_distinct();
        let found = self.found(instance.base, name)?;
        match instance.seen_as {
            None => Some(found),
            Some(instance_type) => {
                let asked = asked_named(types, instance_type, name)?;
                Some(seen_as(found, asked))
            }
        }
    }
}
