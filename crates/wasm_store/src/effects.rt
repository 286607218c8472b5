//! Instructions that leave the blocks and calls around them as they are (Core 2.0, sections 4.4.1, 4.4.4, 4.4.5 and 4.4.7).

ghost use Rattle.std.specs.Prelude.{◌≡◌, reverse, IfOk, OnErr, Some};
ghost use Rattle.std.specs.List.{slice_get};
ghost use Rattle.wasm_store.specs.Store.{Instance};
ghost use Rattle.wasm_store.specs.Effects.{effect};
ghost use Rattle.wasm_store.specs.Fits.{Fits, Gives};

use crate::accesses::access;
use crate::numbers::{i32_const, i64_const, numeric};
use crate::parametric::{discard, select};
use crate::store::Store;
use crate::trap::Trap;
use crate::variables::{global_get, global_set, local_get, local_set, local_tee};
use faults::Memory;
use syntax_trees::Instr;

impl Store {
    /// Makes an instruction of an instance over locals and operands, the last one at the end. The answer is its trap, if any.
    ///
    /// `Memory` comes where memory runs out, and then the store is as it was. Nothing is said of locals and operands then.
    pub fn effect(
        &mut self,
        instr: &Instr,
        instance: usize,
        locals: &mut Vec<u64>,
        operands: &mut Vec<u64>,
    ) -> Result<Option<Trap>, Memory>
        requires fits { (i : Instance) × (slice_get self.old.instances instance ≡ Some i) × Fits instr.now i self.old locals.old.items (reverse operands.old.items) }
        ensures gives { IfOk result (λ trap. (i : Instance) × (slice_get self.old.instances instance ≡ Some i) × Gives self.old (effect instr.now i self.old locals.old.items (reverse operands.old.items)) trap self.new locals.new.items (reverse operands.new.items)) }
        ensures err { OnErr result (self.new ≡ self.old) }
    {
        match instr {
            Instr::Nop => Ok(None),
            Instr::Drop => {
                discard(operands);
                Ok(None)
            }
            Instr::Select | Instr::SelectTyped(_) => {
                select(operands);
                Ok(None)
            }
            Instr::LocalGet(index) => {
                local_get(*index, locals, operands)?;
                Ok(None)
            }
            Instr::LocalSet(index) => {
                local_set(*index, locals, operands);
                Ok(None)
            }
            Instr::LocalTee(index) => {
                local_tee(*index, locals, operands);
                Ok(None)
            }
            Instr::GlobalGet(index) => {
                let address = self.global_address(instance, *index);
                global_get(&self.globals[address], operands)?;
                Ok(None)
            }
            Instr::GlobalSet(index) => {
                let address = self.global_address(instance, *index);
                global_set(&mut self.globals[address], operands);
                Ok(None)
            }
            Instr::Load(_, _)
            | Instr::Store(_, _)
            | Instr::MemorySize
            | Instr::MemoryGrow
            | Instr::MemoryCopy
            | Instr::MemoryFill => {
                let address = self.memory_address(instance);
                let trap = access(&mut self.memories[address], instr, operands)?;
                Ok(trap)
            }
            Instr::I32Const(value) => {
                i32_const(*value, operands)?;
                Ok(None)
            }
            Instr::I64Const(value) => {
                i64_const(*value, operands)?;
                Ok(None)
            }
            Instr::Numeric(op) => Ok(numeric(*op, operands)),
            Instr::Unreachable
            | Instr::Br(_)
            | Instr::BrIf(_)
            | Instr::BrTable(_, _)
            | Instr::Return
            | Instr::Call(_)
            | Instr::CallIndirect(_, _) => unreachable!(),
        }
    }
}
