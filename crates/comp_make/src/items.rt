//! The items of sections in bytes (Core 2.0, section 5.5), but for types and code.

ghost use Rattle.std.specs.Prelude.{◌≡◌, ◌++◌, OnOk};
ghost use Rattle.comp_make.specs.Lists.{sized};
ghost use Rattle.comp_make.specs.Items.{import_desc_bytes, export_desc_bytes, target_bytes, element_kind_bytes};

use crate::instrs::push_const_expr;
use crate::lists::{push_sized, push_vec};
use crate::numbers::{Indices, push_unsigned};
use crate::types::{Memories, Tables, push_global_type};
use faults::Memory;
use std::alloc::Global as Heap;
use syntax_trees::module::Export;
use syntax_trees::{
    DataSegment, ElementSegment, ExportDesc, Func, Global, Import, ImportDesc, Name,
};
use value_texts::Text;

/// Appends a name behind the number of its bytes.
fn push_name(name: &Name, to: &mut Vec<u8>) -> Result<(), Memory>
    ensures { OnOk result (to.new.items ≡ to.old.items ++ sized name.now) }
{
    push_sized(name.as_str().as_bytes(), to)
}

/// Appends what an import asks for.
fn push_import_desc(alloc: Heap, desc: &ImportDesc, to: &mut Vec<u8>) -> Result<(), Memory>
    ensures { OnOk result (to.new.items ≡ to.old.items ++ import_desc_bytes desc.now) }
{
    match desc {
        ImportDesc::Func(index) => {
            to.push(0x00)?;
            push_unsigned(u64::from(*index), to)
        }
        ImportDesc::Table(table_type) => {
            to.push(0x01)?;
            Tables::push(alloc, table_type, to)
        }
        ImportDesc::Memory(memory_type) => {
            to.push(0x02)?;
            Memories::push(alloc, memory_type, to)
        }
        ImportDesc::Global(global_type) => {
            to.push(0x03)?;
            push_global_type(*global_type, to)
        }
    }
}

/// Imports.
pub(crate) struct Imports;

impl Text for Imports {
    ghost use Rattle.comp_make.specs.Items.{import_bytes};

    type Item = Import;

    ghost text = { import_bytes };

    fn push(alloc: Heap, item: &Import, to: &mut Vec<u8>) -> Result<(), Memory> {
        push_name(&item.module, to)?;
        push_name(&item.name, to)?;
        push_import_desc(alloc, &item.desc, to)
    }
}

/// Functions in the function section.
pub(crate) struct DeclaredFuncs;

impl Text for DeclaredFuncs {
    ghost use Rattle.comp_make.specs.Items.{declared_bytes};

    type Item = Func;

    ghost text = { declared_bytes };

    fn push(_alloc: Heap, item: &Func, to: &mut Vec<u8>) -> Result<(), Memory> {
        push_unsigned(u64::from(item.type_index), to)
    }
}

/// Globals.
pub(crate) struct Globals;

impl Text for Globals {
    ghost use Rattle.comp_make.specs.Items.{global_bytes};

    type Item = Global;

    ghost text = { global_bytes };

    fn push(alloc: Heap, item: &Global, to: &mut Vec<u8>) -> Result<(), Memory> {
        push_global_type(item.global_type, to)?;
        push_const_expr(alloc, item.init.as_slice(), to)
    }
}

/// Appends what an export offers.
fn push_export_desc(desc: ExportDesc, to: &mut Vec<u8>) -> Result<(), Memory>
    ensures { OnOk result (to.new.items ≡ to.old.items ++ export_desc_bytes desc) }
{
    match desc {
        ExportDesc::Func(index) => {
            to.push(0x00)?;
            push_unsigned(u64::from(index), to)
        }
        ExportDesc::Table(index) => {
            to.push(0x01)?;
            push_unsigned(u64::from(index), to)
        }
        ExportDesc::Memory(index) => {
            to.push(0x02)?;
            push_unsigned(u64::from(index), to)
        }
        ExportDesc::Global(index) => {
            to.push(0x03)?;
            push_unsigned(u64::from(index), to)
        }
    }
}

/// Exports.
pub(crate) struct Exports;

impl Text for Exports {
    ghost use Rattle.comp_make.specs.Items.{export_bytes};

    type Item = Export;

    ghost text = { export_bytes };

    fn push(_alloc: Heap, item: &Export, to: &mut Vec<u8>) -> Result<(), Memory> {
        push_name(&item.name, to)?;
        push_export_desc(item.desc, to)
    }
}

/// Appends the beginning of an active segment: its kind, and its table or memory where that is not the first one.
fn push_target(index: u32, to: &mut Vec<u8>) -> Result<(), Memory>
    ensures { OnOk result (to.new.items ≡ to.old.items ++ target_bytes index) }
{
    if index == 0 {
        to.push(0x00)?;
        return Ok(());
    }
    to.push(0x02)?;
    push_unsigned(u64::from(index), to)
}

/// Appends the byte that tells that elements are functions, where the kind of their segment has one.
fn push_element_kind(table: u32, to: &mut Vec<u8>) -> Result<(), Memory>
    ensures { OnOk result (to.new.items ≡ to.old.items ++ element_kind_bytes table) }
{
    if table != 0 {
        to.push(0x00)?;
    }
    Ok(())
}

/// Segments of functions.
pub(crate) struct Elements;

impl Text for Elements {
    ghost use Rattle.comp_make.specs.Items.{element_segment_bytes};

    type Item = ElementSegment;

    ghost text = { element_segment_bytes };

    fn push(alloc: Heap, item: &ElementSegment, to: &mut Vec<u8>) -> Result<(), Memory> {
        push_target(item.table, to)?;
        push_const_expr(alloc, item.offset.as_slice(), to)?;
        push_element_kind(item.table, to)?;
        push_vec::<Indices>(alloc, item.funcs.as_slice(), to)
    }
}

/// Segments of bytes.
pub(crate) struct DataSegments;

impl Text for DataSegments {
    ghost use Rattle.comp_make.specs.Items.{data_segment_bytes};

    type Item = DataSegment;

    ghost text = { data_segment_bytes };

    fn push(alloc: Heap, item: &DataSegment, to: &mut Vec<u8>) -> Result<(), Memory> {
        push_target(item.memory, to)?;
        push_const_expr(alloc, item.offset.as_slice(), to)?;
        push_sized(item.bytes.as_slice(), to)
    }
}
