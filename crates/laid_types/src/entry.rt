//! Types with what is computed of them.

ghost use Rattle.std.specs.Prelude.{◌≡◌, take, min, length, IfOk};
ghost use Rattle.std.specs.List.{slice_get};
ghost use Rattle.std.specs.Option.{option_and_then};
ghost use Rattle.syntax_trees.specs.Names.{first_named};
ghost use Rattle.laid_types.specs.Layout.{laid};
ghost use Rattle.layouts.specs.Limited.{as_laid, InReach, limited};
ghost use Rattle.syntax_trees.specs.Flat.{flat};
ghost use Rattle.syntax_trees.specs.Ends.{has_end};
ghost use Rattle.laid_types.specs.Parts.{labels_of, payload_place};
ghost use Rattle.laid_types.specs.Handles.{has_handle, has_borrow, top_resource};
ghost use Rattle.laid_types.specs.Lists.{has_list};
ghost use Rattle.laid_types.specs.Depth.{depth};

use crate::holding::Holding;
use layouts::Laying;
use std::alloc::AllocError;
use std::collections::BTreeMap;
use std::marker::Model;
use syntax_trees::{CoreType, Shared, ValType};

/// A type, what is computed of it, and the numbers of its parts. Contracts see the type and the numbers.
#[derive(Drop)]
pub(crate) struct Entry {
    pub(crate) val_type: Shared<ValType>,
    pub(crate) laying: Laying,
    pub(crate) payload_place: u32,
    pub(crate) flat: Vec<CoreType>,
    pub(crate) holding: Holding,
    /// How many types stand in one another in it, or 33 where there are more than 32.
    pub(crate) depth: u32,
    /// The greatest number of a resource that it names, 0 where it names none.
    pub(crate) top: u32,
    pub(crate) label_places: BTreeMap<String, usize>,
    pub(crate) parts: Vec<Option<usize>>,
}

impl Model for Entry {
    ghost use Rattle.std.specs.Coded.{codes};
    ghost use Rattle.std.specs.BTreeMap.{get_by_text};
    ghost use Rattle.syntax_trees.specs.contracts.types.ValType as val_type_row;
    ghost use Rattle.laid_types.specs.Known.{Known};
    ghost use Rattle.layouts.specs.Limited.{as_laid};
    ghost use Rattle.laid_types.specs.Computed.{IsComputed};

    ghost Value = { Known };

    ghost coded = { Prim.hlevel (codes, val_type_row.the_row.coded) };

    ghost view = { λ e. record { val_type = e.val_type; parts = e.parts.items } };

    ghost invariant = { λ e. IsComputed e.val_type (as_laid e.laying) e.payload_place e.flat.items e.holding.end e.holding.handle e.holding.borrow e.holding.list e.depth e.top (get_by_text e.label_places) };
}

impl Entry {
    /// The type.
    pub(crate) fn val_type(&self) -> &ValType
        ensures { result.now ≡ self.now.val_type }
    {
        self.val_type.get()
    }

    /// The type, to be shared.
    pub(crate) fn share(&self) -> Result<Shared<ValType>, AllocError>
        ensures { IfOk result (λ t. t ≡ self.now.val_type) }
    {
        self.val_type.share()
    }

    /// How its values lie in memory.
    pub(crate) fn laying(&self) -> Laying
        ensures value { as_laid result ≡ limited (laid self.now.val_type) }
        ensures reach { InReach (as_laid result) }
    {
        self.laying
    }

    /// Where a payload stands behind the number of its case.
    pub(crate) fn payload_place(&self) -> u32
        ensures { result ≡ payload_place self.now.val_type }
    {
        self.payload_place
    }

    /// The first 17 of its core types.
    pub(crate) fn flat(&self) -> &[CoreType]
        ensures { result.now ≡ take 17 (flat self.now.val_type) }
    {
        &self.flat
    }

    /// What its values hold.
    pub(crate) fn holding(&self) -> Holding
        ensures end { result.end ≡ has_end self.now.val_type }
        ensures handle { result.handle ≡ has_handle self.now.val_type }
        ensures borrow { result.borrow ≡ has_borrow self.now.val_type }
        ensures list { result.list ≡ has_list self.now.val_type }
    {
        self.holding
    }

    /// How many types stand in one another in it, or 33 where there are more than 32.
    pub(crate) fn depth(&self) -> u32
        ensures { result ≡ min (depth self.now.val_type) 33 }
    {
        self.depth
    }

    /// The greatest number of a resource that it names, 0 where it names none.
    pub(crate) fn top(&self) -> u32
        ensures { result ≡ top_resource self.now.val_type }
    {
        self.top
    }

    /// Where a label stands: of equal ones the first.
    pub(crate) fn label_at(&self, label: &str) -> Option<usize>
        ensures { result ≡ first_named label.now (labels_of self.now.val_type) }
    {
        self.label_places.get(label).copied()
    }

    /// How many places there are for parts.
    pub(crate) fn part_count(&self) -> usize
        ensures { result ≡ length self.now.parts }
    {
        self.parts.len()
    }

    /// The number of the part at a place, none where no type stands there.
    pub(crate) fn part(&self, at: usize) -> Option<usize>
        ensures { result ≡ option_and_then (λ part. part) (slice_get self.now.parts at) }
    {
        match self.parts.get(at) {
            Some(part) => *part,
            None => None,
        }
    }
}
