//! Types in bytes (Core 2.0, section 5.3), a kind for each.

ghost use Rattle.std.specs.Prelude.{◌≤◌, IfOk};
ghost use Rattle.ca_base.specs.Grammar.{Reads};
ghost use Rattle.wasm_code_reader.specs.Types.{limited, bounds, limits, mutability};

use crate::fault::{ModuleWhy, refused_byte};
use ca_base::{Kind, ReadError, Refusal, Window, read_vec};
use std::alloc::Global;
use syntax_trees::module_types::{FuncType, ValType};
use syntax_trees::{GlobalType, Limits, MemoryType, Mutability, TableType};

/// How many pages a memory may have from the start.
const MEMORY_LIMIT: u32 = 1_024;

/// How many entries a table may have from the start.
const TABLE_LIMIT: u32 = 65_536;

/// Value types (Core 2.0, section 5.3.4).
pub struct ValTypes;

impl Kind for ValTypes {
    ghost use Rattle.wasm_code_reader.specs.Types.{val_type};

    type Why = ModuleWhy;

    type Item = ValType;

    ghost grammar = { val_type };

    #[tactic(auto, unfolding(crate::specs::Types::val_type))]
    fn read(
        _alloc: Global,
        window: &mut Window<ModuleWhy>,
    ) -> Result<ValType, ReadError<ModuleWhy>> {
        let place = window.at();
        let byte = window.byte()?;
        match byte {
            0x7F => Ok(ValType::I32),
            0x7E => Ok(ValType::I64),
            _ => {
                let of_floats = byte == 0x7D || byte == 0x7C;
                Err(ReadError::Fault(refused_byte(of_floats, place, byte)))
            }
        }
    }
}

/// Function types (Core 2.0, section 5.3.6).
pub struct FuncTypes;

impl Kind for FuncTypes {
    ghost use Rattle.wasm_code_reader.specs.Types.{func_type};

    type Why = ModuleWhy;

    type Item = FuncType;

    ghost grammar = { func_type };

    #[tactic(auto, unfolding(crate::specs::Types::func_type))]
    fn read(
        alloc: Global,
        window: &mut Window<ModuleWhy>,
    ) -> Result<FuncType, ReadError<ModuleWhy>> {
        window.marker(0x60)?;
        let params = read_vec::<ValTypes>(alloc, window)?;
        let results = read_vec::<ValTypes>(alloc, window)?;
        Ok(FuncType { params, results })
    }
}

/// Reads a number that is at most this limit.
#[tactic(auto, unfolding(crate::specs::Types::limited))]
fn read_limited(most: u32, window: &mut Window<ModuleWhy>) -> Result<u32, Refusal<ModuleWhy>>
    ensures reads { Reads (λ n. n) (limited most) window.old window.new result }
    ensures limit { IfOk result (λ n. n ≤ most) }
{
    let place = window.at();
    let number = window.u32()?;
    if most < number {
        return Err(Refusal {
            place,
            why: ModuleWhy::Limit,
        });
    }
    Ok(number)
}

/// Reads a minimum that is at most this limit, and a maximum where one is told.
#[tactic(auto, unfolding(crate::specs::Types::bounds))]
fn read_bounds(
    most: u32,
    has_max: bool,
    window: &mut Window<ModuleWhy>,
) -> Result<Limits, Refusal<ModuleWhy>>
    ensures reads { Reads (λ l. l) (bounds most has_max) window.old window.new result }
    ensures limit { IfOk result (λ l. l.min ≤ most) }
{
    let min = read_limited(most, window)?;
    if has_max {
        let max = window.u32()?;
        return Ok(Limits {
            min,
            max: Some(max),
        });
    }
    Ok(Limits { min, max: None })
}

/// Reads limits (Core 2.0, section 5.3.7) whose minimum is at most this one.
#[tactic(auto, unfolding(crate::specs::Types::limits))]
fn read_limits(most: u32, window: &mut Window<ModuleWhy>) -> Result<Limits, Refusal<ModuleWhy>>
    ensures reads { Reads (λ l. l) (limits most) window.old window.new result }
    ensures limit { IfOk result (λ l. l.min ≤ most) }
{
    let place = window.at();
    let byte = window.byte()?;
    match byte {
        0 => read_bounds(most, false, window),
        1 => read_bounds(most, true, window),
        _ => Err(refused_byte(false, place, byte)),
    }
}

/// Types of memories (Core 2.0, section 5.3.8).
pub struct Memories;

impl Kind for Memories {
    ghost use Rattle.wasm_code_reader.specs.Types.{memory_type};

    type Why = ModuleWhy;

    type Item = MemoryType;

    ghost grammar = { memory_type };

    #[tactic(auto, unfolding(crate::specs::Types::memory_type))]
    fn read(
        _alloc: Global,
        window: &mut Window<ModuleWhy>,
    ) -> Result<MemoryType, ReadError<ModuleWhy>> {
        let limits = read_limits(MEMORY_LIMIT, window)?;
        Ok(MemoryType::of(limits))
    }
}

/// Types of tables (Core 2.0, section 5.3.9).
pub struct Tables;

impl Kind for Tables {
    ghost use Rattle.wasm_code_reader.specs.Types.{table_type};

    type Why = ModuleWhy;

    type Item = TableType;

    ghost grammar = { table_type };

    #[tactic(auto, unfolding(crate::specs::Types::table_type))]
    fn read(
        _alloc: Global,
        window: &mut Window<ModuleWhy>,
    ) -> Result<TableType, ReadError<ModuleWhy>> {
        window.marker(0x70)?;
        let limits = read_limits(TABLE_LIMIT, window)?;
        Ok(TableType::of(limits))
    }
}

/// Reads the mutability of a global.
#[tactic(auto, unfolding(crate::specs::Types::mutability))]
fn read_mutability(window: &mut Window<ModuleWhy>) -> Result<Mutability, Refusal<ModuleWhy>>
    ensures { Reads (λ m. m) mutability window.old window.new result }
{
    let place = window.at();
    let byte = window.byte()?;
    match byte {
        0 => Ok(Mutability::Constant),
        1 => Ok(Mutability::Variable),
        _ => Err(refused_byte(false, place, byte)),
    }
}

/// Types of globals (Core 2.0, section 5.3.10).
pub struct GlobalTypes;

impl Kind for GlobalTypes {
    ghost use Rattle.wasm_code_reader.specs.Types.{global_type};

    type Why = ModuleWhy;

    type Item = GlobalType;

    ghost grammar = { global_type };

    #[tactic(auto, unfolding(crate::specs::Types::global_type))]
    fn read(
        alloc: Global,
        window: &mut Window<ModuleWhy>,
    ) -> Result<GlobalType, ReadError<ModuleWhy>> {
        let val_type = ValTypes::read(alloc, window)?;
        let mutability = read_mutability(window)?;
        Ok(GlobalType {
            val_type,
            mutability,
        })
    }
}
