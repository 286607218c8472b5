//! The rules on segments (Core 2.0, sections 3.4.5 and 3.4.6).

ghost use Rattle.std.specs.Prelude.{◌≡◌};
ghost use Rattle.syntax_trees.specs.declared.module_types.ValType.TheVariants.{I32};
ghost use Rattle.wasm_typing.specs.Items.{const_fault, funcs_fault};
ghost use Rattle.wasm_typing.specs.Modules.{imported_globals};

use crate::checked::Checked;
use crate::consts::const_fault;
use crate::fault::{Fault, PartFault};
use crate::space::Space;
use crate::spot::Spot;
use crate::why::ValidWhy;
use syntax_trees::module_types::ValType;
use syntax_trees::{ConstInstr, DataSegment, ElementSegment};

/// The first fault of a segment's offset, which is an `i32`.
fn offset_fault(space: &Space, offset: &[ConstInstr]) -> Option<PartFault>
    ensures { result ≡ const_fault (imported_globals space.now.imports) I32 offset.now }
{
    const_fault(space.imported_globals(), ValType::I32, offset)
}

/// The first index of no function, of which there are so many.
fn funcs_fault(count: usize, indices: &[u32]) -> Option<PartFault>
    ensures { result ≡ funcs_fault count 0 indices.now }
{
    for at in 0..indices.len() {
        if indices[at] as usize >= count {
            return Some(PartFault {
                at,
                why: ValidWhy::Index,
            });
        }
    }
    None
}

/// Segments of functions (Core 2.0, section 3.4.5).
impl Checked for ElementSegment {
    ghost use Rattle.wasm_typing.specs.Items.{element_fault};

    ghost fault = { element_fault };

    fn fault_in(&self, space: &Space, before: &[ElementSegment]) -> Option<Fault> {
        let number = before.len();
        if self.table as usize >= space.table_count() {
            return Some(Fault::at(Spot::Element(number), ValidWhy::Index));
        }
        if let Some(found) = offset_fault(space, self.offset.as_slice()) {
            return Some(Fault::at(Spot::ElementOffset(number, found.at), found.why));
        }
        let found = funcs_fault(space.funcs().len(), self.funcs.as_slice())?;
        Some(Fault::at(Spot::ElementFunc(number, found.at), found.why))
    }
}

/// Segments of bytes (Core 2.0, section 3.4.6).
impl Checked for DataSegment {
    ghost use Rattle.wasm_typing.specs.Items.{data_fault};

    ghost fault = { data_fault };

    fn fault_in(&self, space: &Space, before: &[DataSegment]) -> Option<Fault> {
        let number = before.len();
        if self.memory as usize >= space.memory_count() {
            return Some(Fault::at(Spot::Data(number), ValidWhy::Index));
        }
        let found = offset_fault(space, self.offset.as_slice())?;
        Some(Fault::at(Spot::DataOffset(number, found.at), found.why))
    }
}
