//! Types of instances, made export by export.

ghost use Rattle.std.specs.Prelude.{◌≡◌, ℕ, List, IfOk, OnOk, OnErr};
ghost use Rattle.comp_graph.specs.Closed.{Extern, Externs, EmptyType, WithExtern};
ghost use Rattle.link_types.specs.Table.{IsName, IsExtern, IsInstanceType, Grows};
ghost use Rattle.link_types.specs.Begun.{IsBegun};

use crate::naming::names_behind;
use crate::types::Types;
use link_values::{ExternRef, InstanceTypeRef, Layer, Listing};
use std::alloc::{AllocError, Global};

/// A type of instances that is being made: its exports so far.
#[derive(Drop)]
pub struct InstanceTypeMaker {
    /// The number of their layer.
    layer: usize,
    externs: Listing<ExternRef>,
    /// Whether one of them names a resource.
    names_resource: bool,
}

impl InstanceTypeMaker {
    /// No exports. It fails for want of memory alone, as do the other calls here. Whatever a call answers, what stood in the
    /// table stands there still.
    pub fn begin(alloc: Global, types: &mut Types<'_>) -> Result<InstanceTypeMaker, AllocError>
        ensures ok { IfOk result (λ maker. IsBegun types.new maker EmptyType) }
        ensures grows { Grows types.old types.new }
    {
        let layer = types.layer(Layer::NoExterns)?;
        Ok(InstanceTypeMaker {
            layer,
            externs: Listing::new(alloc),
            names_resource: false,
        })
    }

    /// Puts an export behind the others, under the number of its name.
    pub fn extend(
        &mut self,
        types: &mut Types<'_>,
        name: usize,
        item: ExternRef,
    ) -> Result<(), AllocError>
        ensures ok { OnOk result ((externs : Externs) (text : List ℕ) (extern : Extern) → IsBegun types.old self.old externs → IsName types.old name text → IsExtern types.old item extern → IsBegun types.new self.new (WithExtern externs text extern)) }
        ensures err { OnErr result (self.new ≡ self.old) }
        ensures grows { Grows types.old types.new }
    {
        let names_resource = names_behind(&*types, self.names_resource, item);
        let layer = types.layer(Layer::Extern {
            before: self.layer,
            name,
            item: item.layer(),
        })?;
        self.externs.push(name, item)?;
        self.layer = layer;
        self.names_resource = names_resource;
        Ok(())
    }

    /// The type of instances with these exports.
    pub fn finish(self, types: &mut Types<'_>) -> Result<InstanceTypeRef, AllocError>
        ensures ok { IfOk result (λ ref. (externs : Externs) → IsBegun types.old self externs → IsInstanceType types.new ref externs) }
        ensures grows { Grows types.old types.new }
    {
        let InstanceTypeMaker {
            layer,
            externs,
            names_resource,
        } = self;
        let number = types.instance_number(layer, externs)?;
        Ok(InstanceTypeRef {
            layer,
            number,
            names_resource,
        })
    }
}
