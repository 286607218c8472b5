//! Types in bytes (Core 2.0, section 5.3).

ghost use Rattle.std.specs.Prelude.{◌≡◌, ◌++◌, OnOk};
ghost use Rattle.comp_make.specs.Types.{val_type_byte, bounds_bytes, limits_bytes, mutability_byte, global_type_bytes};

use crate::lists::push_vec;
use crate::numbers::push_unsigned;
use faults::Memory;
use std::alloc::Global;
use syntax_trees::module_types::{FuncType, ValType};
use syntax_trees::{GlobalType, Limits, MemoryType, Mutability, TableType};
use value_texts::Text;

/// The byte of a value type.
pub(crate) fn val_type_byte(val_type: ValType) -> u8
    ensures { result ≡ val_type_byte val_type }
{
    match val_type {
        ValType::I32 => 0x7F,
        ValType::I64 => 0x7E,
    }
}

/// Value types.
pub(crate) struct ValTypes;

impl Text for ValTypes {
    ghost use Rattle.comp_make.specs.Types.{val_type_bytes};

    type Item = ValType;

    ghost text = { val_type_bytes };

    fn push(_alloc: Global, item: &ValType, to: &mut Vec<u8>) -> Result<(), Memory> {
        to.push(val_type_byte(*item))?;
        Ok(())
    }
}

/// Function types.
pub(crate) struct FuncTypes;

impl Text for FuncTypes {
    ghost use Rattle.comp_make.specs.Types.{func_type_bytes};

    type Item = FuncType;

    ghost text = { func_type_bytes };

    fn push(alloc: Global, item: &FuncType, to: &mut Vec<u8>) -> Result<(), Memory> {
        to.push(0x60)?;
        push_vec::<ValTypes>(alloc, item.params.as_slice(), to)?;
        push_vec::<ValTypes>(alloc, item.results.as_slice(), to)
    }
}

/// Appends a minimum, and a maximum where one is told.
fn push_bounds(min: u32, max: Option<u32>, to: &mut Vec<u8>) -> Result<(), Memory>
    ensures { OnOk result (to.new.items ≡ to.old.items ++ bounds_bytes min max) }
{
    match max {
        None => {
            to.push(0x00)?;
            push_unsigned(u64::from(min), to)
        }
        Some(max) => {
            to.push(0x01)?;
            push_unsigned(u64::from(min), to)?;
            push_unsigned(u64::from(max), to)
        }
    }
}

/// Appends limits.
pub(crate) fn push_limits(limits: Limits, to: &mut Vec<u8>) -> Result<(), Memory>
    ensures { OnOk result (to.new.items ≡ to.old.items ++ limits_bytes limits) }
{
    push_bounds(limits.min, limits.max, to)
}

/// Types of memories.
pub(crate) struct Memories;

impl Text for Memories {
    ghost use Rattle.comp_make.specs.Types.{limits_bytes};

    type Item = MemoryType;

    ghost text = { limits_bytes };

    fn push(_alloc: Global, item: &MemoryType, to: &mut Vec<u8>) -> Result<(), Memory> {
        push_limits(item.limits(), to)
    }
}

/// Types of tables.
pub(crate) struct Tables;

impl Text for Tables {
    ghost use Rattle.comp_make.specs.Types.{table_bytes};

    type Item = TableType;

    ghost text = { table_bytes };

    fn push(_alloc: Global, item: &TableType, to: &mut Vec<u8>) -> Result<(), Memory> {
        to.push(0x70)?;
        push_limits(item.limits(), to)
    }
}

/// The byte of a mutability.
fn mutability_byte(mutability: Mutability) -> u8
    ensures { result ≡ mutability_byte mutability }
{
    match mutability {
        Mutability::Constant => 0x00,
        Mutability::Variable => 0x01,
    }
}

/// Appends the type of a global.
pub(crate) fn push_global_type(global_type: GlobalType, to: &mut Vec<u8>) -> Result<(), Memory>
    ensures { OnOk result (to.new.items ≡ to.old.items ++ global_type_bytes global_type) }
{
    to.push(val_type_byte(global_type.val_type))?;
    to.push(mutability_byte(global_type.mutability))?;
    Ok(())
}
