//! The exports of an instance, in order, as they are seen.

ghost use Rattle.std.specs.Prelude.{◌≡◌, Some, length, IfOk};
ghost use Rattle.std.specs.List.{slice_get};
ghost use Rattle.comp_graph.specs.Closed.{Externs};
ghost use Rattle.link_spec.specs.Definitions.{Exports, FitAll, seen_exports};
ghost use Rattle.link_types.specs.Table.{IsInstanceType};
ghost use Rattle.link_instances.specs.References.{World, IsInstance, IsListing, IsEntryAt, listed, entry_at, entry_count};
ghost use Rattle.link_instances.specs.Instances.{AreInstances};

use crate::instances::Instances;
use crate::references::{DefinitionRef, InstanceRef, seen_as};
use link_types::{InstanceTypeRef, Types, asked_at, asked_count};
use std::alloc::{AllocError, Global};

impl Instances {
    /// The exports of an instance, in order, as they are seen: of each the number of its name, and what it is. It fails for want
    /// of memory alone.
    pub fn exports(
        &self,
        alloc: Global,
        types: &Types<'_>,
        instance: InstanceRef,
    ) -> Result<Vec<(usize, DefinitionRef)>, AllocError>
        ensures { IfOk result (λ v. (w : World) (exports : Exports) → AreInstances types.now w self.now → IsInstance types.now w instance exports → IsListing types.now w v.items exports) }
    {
        let mut listed = Vec::new(alloc);
        let count = self.export_count(types, instance);
        for at in 0..count {
            if let Some(entry) = self.export_at(types, instance, at) {
                listed.push(entry)?;
            }
        }
        Ok(listed)
    }

    /// How many exports an instance has, as it is seen.
    fn export_count(&self, types: &Types<'_>, instance: InstanceRef) -> usize
        ensures { (w : World) (exports : Exports) → AreInstances types.now w self.now → IsInstance types.now w instance exports → result ≡ length (listed exports) }
    {
        match instance.seen_as {
            None => self.base_count(instance.base),
            Some(instance_type) => asked_count(types, instance_type),
        }
    }

    /// The export at a place of an instance, as it is seen.
    fn export_at(
        &self,
        types: &Types<'_>,
        instance: InstanceRef,
        at: usize,
    ) -> Option<(usize, DefinitionRef)>
        ensures { (w : World) (exports : Exports) → AreInstances types.now w self.now → IsInstance types.now w instance exports → IsEntryAt types.now w result (slice_get (listed exports) at) }
    {
        match instance.seen_as {
            None => self.base_at(instance.base, at),
            Some(instance_type) => self.seen_at(types, instance.base, instance_type, at),
        }
    }

    /// The export at a place of a base that a type sees.
    fn seen_at(
        &self,
        types: &Types<'_>,
        base: usize,
        instance_type: InstanceTypeRef,
        at: usize,
    ) -> Option<(usize, DefinitionRef)>
        ensures { (w : World) (given : Exports) (asked : Externs) → AreInstances types.now w self.now → slice_get w.bases base ≡ Some given → IsInstanceType types.now instance_type asked → FitAll given asked → IsEntryAt types.now w result (slice_get (listed (seen_exports given asked)) at) }
    {
        types.are_distinct();
        let (name, asked) = asked_at(types, instance_type, at)?;
        let found = self.found(base, name)?;
        Some((name, seen_as(found, asked)))
    }

    /// How many exports a base has.
    fn base_count(&self, base: usize) -> usize
        ensures { result ≡ entry_count self.now.bases.items base }
    {
        match self.bases.get(base) {
            Some(listing) => listing.len(),
            None => 0,
        }
    }

    /// The export at a place of a base.
    fn base_at(&self, base: usize, at: usize) -> Option<(usize, DefinitionRef)>
        ensures { result ≡ entry_at self.now.bases.items base at }
    {
        self.bases.get(base)?.get(at)
    }
}
