//! A type of the table.

ghost use Rattle.std.specs.Prelude.{◌≡◌, ◌≤◌, ◌^◌, length, min, take, Some, IfOk};
ghost use Rattle.std.specs.List.{slice_get};
ghost use Rattle.syntax_trees.specs.Names.{first_named};
ghost use Rattle.laid_types.specs.Layout.{laid, tag_size};
ghost use Rattle.syntax_trees.specs.Flat.{flat};
ghost use Rattle.syntax_trees.specs.Ends.{has_end};
ghost use Rattle.laid_types.specs.Parts.{parts_of, part_at, case_count, labels_of, payload_place};
ghost use Rattle.laid_types.specs.Handles.{has_handle, has_borrow, top_resource};
ghost use Rattle.laid_types.specs.Lists.{has_list};
ghost use Rattle.laid_types.specs.Depth.{depth};
ghost use Rattle.laid_types.specs.Known.{Stands};

use crate::entry::Entry;
use crate::gathering::case_count;
use crate::numbered_type::NumberedType;
use crate::types::LaidTypes;
use layouts::tag_size;
use std::alloc::AllocError;
use std::marker::Model;
use syntax_trees::{CoreType, Shared, ValType};

/// A type of a table, with what is computed of it. Contracts see the type.
#[derive(Drop)]
pub struct LaidType<'a> {
    types: &'a LaidTypes,
    entry: &'a Entry,
    number: usize,
}

impl<'a> Model for LaidType<'a> {
    ghost use Rattle.syntax_trees.specs.declared.types.ValType.{ValType};
    ghost use Rattle.syntax_trees.specs.contracts.types.ValType as val_type;
    ghost use Rattle.laid_types.specs.Known.{HasNumber};

    ghost Value = { ValType };

    ghost coded = { val_type.the_row.coded };

    ghost view = { λ t. t.entry.now.val_type };

    ghost invariant = { λ t. HasNumber t.types.now t.number t.entry.now };
}

impl<'a> LaidType<'a> {
    /// The type of an entry that has a number among these types.
    pub(crate) fn of(types: &'a LaidTypes, entry: &'a Entry, number: usize) -> LaidType<'a>
        requires stands { Stands types.now entry.now }
        requires there { slice_get types.now number ≡ Some entry.now.val_type }
        ensures { result ≡ entry.now.val_type }
    {
        LaidType {
            types,
            entry,
            number,
        }
    }

    /// The type with its number in its table.
    pub fn numbered(&self) -> NumberedType<'a>
        ensures { result.val_type ≡ self.now }
    {
        NumberedType::of(self.types, self.entry, self.number)
    }

    /// The same type.
    pub fn again(&self) -> LaidType<'a>
        ensures { result ≡ self.now }
    {
        LaidType {
            types: self.types,
            entry: self.entry,
            number: self.number,
        }
    }

    /// The type as a tree.
    pub fn val_type(&self) -> &'a ValType
        ensures { result.now ≡ self.now }
    {
        let entry = self.entry;
        entry.val_type()
    }

    /// The type as a tree that is shared. It fails only where there are as many owners as can be counted.
    pub fn share(&self) -> Result<Shared<ValType>, AllocError>
        ensures { IfOk result (λ t. t ≡ self.now) }
    {
        let entry = self.entry;
        let val_type = entry.share()?;
        Ok(val_type)
    }

    /// How many bytes a value takes in memory, or 2^64 where it takes more (Component Model, CanonicalABI.md, "Element Size").
    pub fn size(&self) -> u128
        ensures { result ≡ min (laid self.now).size (2 ^ 64) }
    {
        let entry = self.entry;
        entry.laying().size
    }

    /// The number of which the place of a value is a multiple: 1, 2, 4 or 8 (Component Model, CanonicalABI.md, "Alignment").
    pub fn align(&self) -> u32
        ensures value { result ≡ (laid self.now).align }
        ensures bounds { (1 ≤ result) × (result ≤ 8) }
    {
        let entry = self.entry;
        entry.laying().align
    }

    /// How many places there are for parts: the fields of a record, the places of a tuple, the cases of a variant, two of an option
    /// or a result, one of a list, a stream or a future.
    pub fn part_count(&self) -> usize
        ensures { result ≡ length (parts_of self.now) }
    {
        let entry = self.entry;
        entry.part_count()
    }

    /// The type of the part at a place, none where no type stands there. Of an option the value is at place 1.
    pub fn part(&self, at: usize) -> Option<LaidType<'a>>
        ensures { result ≡ part_at self.now at }
    {
        let entry = self.entry;
        let types = self.types;
        match entry.part(at) {
            Some(number) => types.get(number),
            None => None,
        }
    }

    /// How many cases a variant, an enum, an option or a result has.
    pub fn case_count(&self) -> usize
        ensures { result ≡ case_count self.now }
    {
        case_count(self.val_type())
    }

    /// How many bytes tell the case.
    pub fn tag_size(&self) -> u32
        ensures value { result ≡ tag_size (case_count self.now) }
        ensures bounds { (1 ≤ result) × (result ≤ 4) }
    {
        tag_size(self.case_count())
    }

    /// Where a payload stands behind the number of its case.
    pub fn payload_place(&self) -> u32
        ensures { result ≡ payload_place self.now }
    {
        let entry = self.entry;
        entry.payload_place()
    }

    /// The first 17 of the core types that stand for a value (Component Model, CanonicalABI.md, "Flattening"): where there are more
    /// than 16, that is seen.
    pub fn flat(&self) -> &'a [CoreType]
        ensures { result.now ≡ take 17 (flat self.now) }
    {
        let entry = self.entry;
        entry.flat()
    }

    /// Whether values hold the end of a stream or a future.
    pub fn has_end(&self) -> bool
        ensures { result ≡ has_end self.now }
    {
        let entry = self.entry;
        entry.holding().end
    }

    /// Whether values hold a handle.
    pub fn has_handle(&self) -> bool
        ensures { result ≡ has_handle self.now }
    {
        let entry = self.entry;
        entry.holding().handle
    }

    /// Whether values hold a borrowed handle.
    pub fn has_borrow(&self) -> bool
        ensures { result ≡ has_borrow self.now }
    {
        let entry = self.entry;
        entry.holding().borrow
    }

    /// The greatest number of a resource that the type names, in the elements of streams and futures too, 0 where it names none.
    pub fn top_resource(&self) -> u32
        ensures { result ≡ top_resource self.now }
    {
        let entry = self.entry;
        entry.top()
    }

    /// Whether values hold a string or a list, which stand in a memory wherever the value stands (Component Model, CanonicalABI.md,
    /// "Loading"). What the elements of a stream or a future hold does not count.
    pub fn has_list(&self) -> bool
        ensures { result ≡ has_list self.now }
    {
        let entry = self.entry;
        entry.holding().list
    }

    /// How many types stand in one another in it (Component Model, Explainer.md, "Type Definitions"), itself counted, or 33 where
    /// there are more than 32. A type without parts has depth 1.
    pub fn depth(&self) -> u32
        ensures { result ≡ min (depth self.now) 33 }
    {
        let entry = self.entry;
        entry.depth()
    }

    /// Where a label stands among the fields, cases or labels of the type: of equal ones the first.
    pub fn label_at(&self, label: &str) -> Option<usize>
        ensures { result ≡ first_named label.now (labels_of self.now) }
    {
        let entry = self.entry;
        entry.label_at(label)
    }
}
