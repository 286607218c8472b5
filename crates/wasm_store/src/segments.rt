//! Segments that are written into tables and memories (Core 2.0, section 4.5.4).

ghost use Rattle.std.specs.Prelude.{◌≡◌, ◌+◌, ◌<◌, nat_le, if◌then◌else◌, ◌∷◌, [], map, length, Some};
ghost use Rattle.std.specs.List.{slice_get, AllByRecursion};
ghost use Rattle.wasm_store.specs.Store.{Instance, found_at};
ghost use Rattle.wasm_memory.specs.Bytes.{is_inside, put};
ghost use Rattle.wasm_memory.specs.Memories.{with_bytes};
ghost use Rattle.wasm_store.specs.Instantiation.{init_value, element_written, data_written, into_table, into_memory, overwritten};
ghost use Rattle.wasm_store.specs.Typed.{Extends, EntryTyped};
ghost use Rattle.wasm_store.specs.Parts.{Written, WrittenOne, IsBounds, ElementsFit};

use crate::adding::AddFault;
use crate::addresses::address_at;
use crate::store::Store;
use syntax_trees::{ConstInstr, DataSegment, ElementSegment};
use wasm_memory::LinearMemory;

impl Store {
    /// Writes segments of functions of an instance one after the other, up to one that does not fit.
    pub(crate) fn write_elements(
        &mut self,
        instance: usize,
        segments: &[ElementSegment],
    ) -> Result<(), AddFault>
        requires there { instance < length self.old.instances }
        requires fit { (i : Instance) → slice_get self.old.instances instance ≡ Some i → ElementsFit self.old i segments.now }
        ensures written { (i : Instance) → slice_get self.old.instances instance ≡ Some i → Written (element_written i) segments.now self.old result self.new }
        ensures bounds { IsBounds result }
        ensures instances { self.new.instances ≡ self.old.instances }
    {
        for segment in segments {
            if !self.write_element(instance, segment) {
                return Err(AddFault::SegmentBounds);
            }
        }
        Ok(())
    }

    /// Writes a segment of functions of an instance, where it fits, and answers whether it does.
    fn write_element(&mut self, instance: usize, segment: &ElementSegment) -> bool
        requires there { instance < length self.old.instances }
        requires fit { (i : Instance) → slice_get self.old.instances instance ≡ Some i → ElementsFit self.old i (segment.now ∷ []) }
        ensures written { (i : Instance) → slice_get self.old.instances instance ≡ Some i → WrittenOne (element_written i self.old segment.now) self.old result self.new }
        ensures extends { Extends self.old self.new }
        ensures instances { self.new.instances ≡ self.old.instances }
    {
        let at = self.offset_of(instance, segment.offset.as_slice());
        match self.table_of(instance, segment.table) {
            None => false,
            Some(table) => self.write_table(table, at, instance, segment.funcs.as_slice()),
        }
    }

    /// Writes functions of an instance, of these indices, into the table at an address from a place on, where there is one and
    /// they fit, and answers whether they do.
    fn write_table(&mut self, table: usize, at: u64, instance: usize, indices: &[u32]) -> bool
        requires there { instance < length self.old.instances }
        requires fit { (i : Instance) → slice_get self.old.instances instance ≡ Some i → AllByRecursion (λ index. EntryTyped self.old (slice_get i.funcs index)) indices.now }
        ensures written { (i : Instance) → slice_get self.old.instances instance ≡ Some i → WrittenOne (into_table at (map (λ index. slice_get i.funcs index) indices.now) (found_at self.old.tables (Some table)) self.old) self.old result self.new }
        ensures extends { Extends self.old self.new }
        ensures instances { self.new.instances ≡ self.old.instances }
    {
        if self.tables.len() <= table {
            return false;
        }
        let funcs = self.instances[instance].funcs.as_slice();
        write_entries(&mut self.tables[table].entries, at, funcs, indices)
    }

    /// Writes segments of bytes of an instance one after the other, up to one that does not fit.
    pub(crate) fn write_data(
        &mut self,
        instance: usize,
        segments: &[DataSegment],
    ) -> Result<(), AddFault>
        requires there { instance < length self.old.instances }
        ensures written { (i : Instance) → slice_get self.old.instances instance ≡ Some i → Written (data_written i) segments.now self.old result self.new }
        ensures bounds { IsBounds result }
    {
        for segment in segments {
            if !self.write_bytes(instance, segment) {
                return Err(AddFault::SegmentBounds);
            }
        }
        Ok(())
    }

    /// Writes a segment of bytes of an instance, where it fits, and answers whether it does.
    fn write_bytes(&mut self, instance: usize, segment: &DataSegment) -> bool
        requires there { instance < length self.old.instances }
        ensures written { (i : Instance) → slice_get self.old.instances instance ≡ Some i → WrittenOne (data_written i self.old segment.now) self.old result self.new }
        ensures instances { self.new.instances ≡ self.old.instances }
    {
        let at = self.offset_of(instance, segment.offset.as_slice());
        match self.memory_of(instance, segment.memory) {
            None => false,
            Some(memory) => self.write_memory(memory, at, segment.bytes.as_slice()),
        }
    }

    /// Writes bytes into the memory at an address from a place on, where there is one and they fit, and answers whether they do.
    fn write_memory(&mut self, memory: usize, at: u64, bytes: &[u8]) -> bool
        ensures written { WrittenOne (into_memory at bytes.now (found_at self.old.memories (Some memory)) self.old) self.old result self.new }
        ensures instances { self.new.instances ≡ self.old.instances }
    {
        if self.memories.len() <= memory {
            return false;
        }
        write_at(&mut self.memories[memory], at, bytes)
    }

    /// The value of a segment's offset in an instance.
    fn offset_of(&self, instance: usize, offset: &[ConstInstr]) -> u64
        requires { instance < length self.now.instances }
        ensures { (i : Instance) → slice_get self.now.instances instance ≡ Some i → result ≡ init_value self.now i.globals offset.now }
    {
        self.value_of(self.instances[instance].globals.as_slice(), offset)
    }

    /// The address of a table of an instance.
    fn table_of(&self, instance: usize, index: u32) -> Option<usize>
        requires { instance < length self.now.instances }
        ensures { (i : Instance) → slice_get self.now.instances instance ≡ Some i → result ≡ slice_get i.tables index }
    {
        address_at(self.instances[instance].tables.as_slice(), index)
    }

    /// The address of a memory of an instance.
    fn memory_of(&self, instance: usize, index: u32) -> Option<usize>
        requires { instance < length self.now.instances }
        ensures { (i : Instance) → slice_get self.now.instances instance ≡ Some i → result ≡ slice_get i.memories index }
    {
        address_at(self.instances[instance].memories.as_slice(), index)
    }
}

/// Writes bytes from a place on, where they fit, and answers whether they do.
fn write_at(memory: &mut LinearMemory, at: u64, bytes: &[u8]) -> bool
    ensures inside { result ≡ is_inside at (length bytes.now) memory.old.bytes }
    ensures memory { memory.new ≡ with_bytes memory.old (put at bytes.now memory.old.bytes) }
{
    if (memory.bytes().len() as u64) < at {
        return false;
    }
    memory.write(at as u32, bytes).is_ok()
}

/// Writes the functions of these indices into entries from a place on, where they fit, and answers whether they do.
fn write_entries(
    entries: &mut Vec<Option<usize>>,
    at: u64,
    funcs: &[usize],
    indices: &[u32],
) -> bool
    ensures fits { result ≡ nat_le (at + length indices.now) (length entries.old.items) }
    ensures written { entries.new.items ≡ (if result then overwritten at (map (λ index. slice_get funcs.now index) indices.now) entries.old.items else entries.old.items) }
{
    let count = entries.len() as u64;
    if count < at || count - at < indices.len() as u64 {
        return false;
    }
    let at = at as usize;
    for (place, index) in indices.iter().enumerate() {
        entries[at + place] = address_at(funcs, *index);
    }
    true
}
