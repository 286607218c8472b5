//! The rules on imports, types of functions, tables, memories and globals (Core 2.0, section 3.4).

ghost use Rattle.std.specs.Prelude.{◌≡◌, is_none};
ghost use Rattle.std.specs.List.{slice_get};
ghost use Rattle.wasm_typing.specs.Items.{at_spot, where_so, limits_fit, limits_why, table_fits, memory_fits, import_why};

use crate::checked::Checked;
use crate::consts::const_fault;
use crate::fault::Fault;
use crate::space::{Space, imported_memories, imported_tables};
use crate::spot::Spot;
use crate::why::ValidWhy;
use syntax_trees::{Func, Global, Import, ImportDesc, Limits, MemoryType, TableType};

/// The largest number of entries that a table may have (Core 2.0, section 3.2.4).
const ENTRY_LIMIT: u32 = 4_294_967_295;

/// The largest number of pages that a memory may have (Core 2.0, section 3.2.5).
const PAGE_LIMIT: u32 = 65_536;

/// The fault of a part, where there is a reason.
fn at_spot(spot: Spot, why: Option<ValidWhy>) -> Option<Fault>
    ensures { result ≡ at_spot spot why }
{
    let why = why?;
    Some(Fault::at(spot, why))
}

/// Whether limits are within a range, and the maximum is not below the minimum (Core 2.0, section 3.2.1).
fn limits_fit(range: u32, limits: Limits) -> bool
    ensures { result ≡ limits_fit range limits }
{
    if range < limits.min {
        return false;
    }
    match limits.max {
        None => true,
        Some(max) => max <= range && limits.min <= max,
    }
}

/// Why limits are wrong that stand behind so many others, by whether they fit.
fn limits_why(fits: bool, count: usize) -> Option<ValidWhy>
    ensures { result ≡ limits_why fits count }
{
    if !fits {
        return Some(ValidWhy::Typing);
    }
    if 0 < count {
        return Some(ValidWhy::Limit);
    }
    None
}

/// Why a table is wrong that stands behind so many others.
fn table_why(table_type: TableType, count: usize) -> Option<ValidWhy>
    ensures { result ≡ limits_why (table_fits table_type) count }
{
    limits_why(limits_fit(ENTRY_LIMIT, table_type.limits()), count)
}

/// Why a memory is wrong that stands behind so many others.
fn memory_why(memory_type: MemoryType, count: usize) -> Option<ValidWhy>
    ensures { result ≡ limits_why (memory_fits memory_type) count }
{
    limits_why(limits_fit(PAGE_LIMIT, memory_type.limits()), count)
}

/// Why the index of a type is wrong: the type is not there.
fn type_why(space: &Space, index: u32) -> Option<ValidWhy>
    ensures { result ≡ where_so (is_none (slice_get space.now.types index)) ValidWhy.Index }
{
    if space.tree().types.as_slice().get(index as usize).is_none() {
        return Some(ValidWhy::Index);
    }
    None
}

/// Why an import is wrong.
fn import_why(space: &Space, before: &[Import], desc: ImportDesc) -> Option<ValidWhy>
    ensures { result ≡ import_why space.now before.now desc }
{
    match desc {
        ImportDesc::Func(index) => type_why(space, index),
        ImportDesc::Table(table_type) => table_why(table_type, imported_tables(before)),
        ImportDesc::Memory(memory_type) => memory_why(memory_type, imported_memories(before)),
        ImportDesc::Global(_) => None,
    }
}

/// Imports (Core 2.0, section 3.4.9).
impl Checked for Import {
    ghost use Rattle.wasm_typing.specs.Items.{import_fault};

    ghost fault = { import_fault };

    fn fault_in(&self, space: &Space, before: &[Import]) -> Option<Fault> {
        at_spot(
            Spot::Import(before.len()),
            import_why(space, before, self.desc),
        )
    }
}

/// Functions (Core 2.0, section 3.4.1): their types are there.
impl Checked for Func {
    ghost use Rattle.wasm_typing.specs.Items.{type_fault};

    ghost fault = { type_fault };

    fn fault_in(&self, space: &Space, before: &[Func]) -> Option<Fault> {
        at_spot(Spot::Func(before.len()), type_why(space, self.type_index))
    }
}

/// Tables (Core 2.0, section 3.4.2).
impl Checked for TableType {
    ghost use Rattle.wasm_typing.specs.Items.{table_fault};

    ghost fault = { table_fault };

    fn fault_in(&self, space: &Space, before: &[TableType]) -> Option<Fault> {
        let imported = imported_tables(space.tree().imports.as_slice());
        let why = table_why(*self, imported.saturating_add(before.len()));
        at_spot(Spot::Table(before.len()), why)
    }
}

/// Memories (Core 2.0, section 3.4.3).
impl Checked for MemoryType {
    ghost use Rattle.wasm_typing.specs.Items.{memory_fault};

    ghost fault = { memory_fault };

    fn fault_in(&self, space: &Space, before: &[MemoryType]) -> Option<Fault> {
        let imported = imported_memories(space.tree().imports.as_slice());
        let why = memory_why(*self, imported.saturating_add(before.len()));
        at_spot(Spot::Memory(before.len()), why)
    }
}

/// Globals (Core 2.0, section 3.4.4): their first values.
impl Checked for Global {
    ghost use Rattle.wasm_typing.specs.Items.{global_fault};

    ghost fault = { global_fault };

    fn fault_in(&self, space: &Space, before: &[Global]) -> Option<Fault> {
        let found = const_fault(
            space.imported_globals(),
            self.global_type.val_type,
            self.init.as_slice(),
        )?;
        Some(Fault::at(Spot::Global(before.len(), found.at), found.why))
    }
}
