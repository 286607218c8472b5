//! Constant expressions (Core 2.0, section 3.3.10).

ghost use Rattle.std.specs.Prelude.{◌≡◌};
ghost use Rattle.wasm_typing.specs.Instrs.{is_constant};
ghost use Rattle.wasm_typing.specs.Items.{const_why, end_why, const_fault, has_type, global_why};
ghost use Rattle.wasm_typing.specs.Modules.{const_type};

use crate::fault::PartFault;
use crate::why::ValidWhy;
use syntax_trees::module_types::ValType;
use syntax_trees::{ConstInstr, GlobalType, Mutability};

/// Why an instruction is wrong over these imported globals.
fn const_why(imported: &[GlobalType], instr: ConstInstr) -> Option<ValidWhy>
    ensures { result ≡ const_why imported.now instr }
{
    match instr {
        ConstInstr::I32Const(_) => None,
        ConstInstr::I64Const(_) => None,
        ConstInstr::GlobalGet(index) => match imported.get(index as usize).copied() {
            None => Some(ValidWhy::Index),
            Some(global) => match global.mutability {
                Mutability::Constant => None,
                Mutability::Variable => Some(ValidWhy::Typing),
            },
        },
    }
}

/// The type of an instruction, where it has one.
fn const_type(imported: &[GlobalType], instr: ConstInstr) -> Option<ValType>
    ensures { result ≡ const_type imported.now instr }
{
    match instr {
        ConstInstr::I32Const(_) => Some(ValType::I32),
        ConstInstr::I64Const(_) => Some(ValType::I64),
        ConstInstr::GlobalGet(index) => match imported.get(index as usize).copied() {
            None => None,
            Some(global) => match global.mutability {
                Mutability::Constant => Some(global.val_type),
                Mutability::Variable => None,
            },
        },
    }
}

/// Whether a type was found and is this.
fn has_type(val_type: ValType, found: Option<ValType>) -> bool
    ensures { result ≡ has_type val_type found }
{
    match found {
        None => false,
        Some(found) => found.is_same(val_type),
    }
}

/// Why the end of a constant expression is wrong: there is not one value, or not one of this type.
fn end_why(imported: &[GlobalType], val_type: ValType, instrs: &[ConstInstr]) -> Option<ValidWhy>
    ensures { result ≡ end_why imported.now val_type instrs.now }
{
    if instrs.is_empty() {
        return Some(ValidWhy::Stack);
    }
    if instrs.len() != 1 {
        return Some(ValidWhy::Typing);
    }
    if has_type(val_type, const_type(imported, instrs[0])) {
        return None;
    }
    Some(ValidWhy::Typing)
}

/// The first fault of a constant expression that is to have this type, over these imported globals.
pub(crate) fn const_fault(
    imported: &[GlobalType],
    val_type: ValType,
    instrs: &[ConstInstr],
) -> Option<PartFault>
    ensures { result ≡ const_fault imported.now val_type instrs.now }
{
    for at in 0..instrs.len() {
        if let Some(why) = const_why(imported, instrs[at]) {
            return Some(PartFault { at, why });
        }
    }
    match end_why(imported, val_type, instrs) {
        None => None,
        Some(why) => Some(PartFault {
            at: instrs.len(),
            why,
        }),
    }
}
