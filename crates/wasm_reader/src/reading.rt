//! The reading of a whole module.

ghost use Rattle.std.specs.Prelude.{◌≡◌, ◌<◌, ◌+◌, ◌^◌, length, IfOk, IfErr};
ghost use Rattle.ca_base.specs.Grammar.{MayRead};
ghost use Rattle.ca_base.specs.declared.refusal.Refusal.{Refusal};
ghost use Rattle.wasm_code_reader.specs.declared.fault.ModuleWhy.{ModuleWhy};
ghost use Rattle.wasm_typing.specs.declared.module_places.ModuleParts.{ModuleParts};
ghost use Rattle.faults.specs.declared.memory.MemoryOr.TheVariants.{Memory, Fault};
ghost use Rattle.wasm_reader.specs.Binary.{the_module, file, file_end, IsModule, IsRefused};

use crate::whole::read_the_module;
use ca_base::{ReadError, Window};
use std::alloc::Global;
use wasm_code_reader::ModuleWhy;
use wasm_typing::Module;

/// Reads the bytes of a core module, whose first byte stands at the place `base` of its file.
///
/// It answers the module that the bytes stand for, or where they are refused and why (Core 2.0, section 5). Places are
/// counted from the file's start. `Memory` is want of memory.
#[tactic(auto, using(ca_base::proofs::Whole::whole_ok, ca_base::proofs::Whole::whole_only, ca_base::proofs::Whole::whole_refused))]
pub fn read_module(alloc: Global, bytes: &[u8], base: usize) -> Result<Module, ReadError<ModuleWhy>>
    requires { base + length bytes.now < 2 ^ 64 }
    // What is read is that module.
    ensures ok { IfOk result (λ m. IsModule bytes.now base m) }
    // Bytes of a module aren't refused.
    ensures only { (m : ModuleParts) → IsModule bytes.now base m → IfErr result (λ e. e ≡ Memory) }
    // What is refused is no module, and this is the place and the reason.
    ensures refused { IfErr result (λ e. (refusal : Refusal ModuleWhy) → e ≡ Fault refusal → IsRefused bytes.now base refusal) }
    // All three in one equation.
    ensures exact { MayRead (λ m. m) the_module (file bytes.now base) (file_end bytes.now base) result }
{
    read_whole(alloc, bytes, base)
}

/// Reads the bytes of a whole file.
fn read_whole(alloc: Global, bytes: &[u8], base: usize) -> Result<Module, ReadError<ModuleWhy>>
    requires { base + length bytes.now < 2 ^ 64 }
    ensures { MayRead (λ m. m) the_module (file bytes.now base) (file_end bytes.now base) result }
{
    let mut window = Window::of(bytes, base, ModuleWhy::Truncated);
    read_the_module(alloc, &mut window)
}
