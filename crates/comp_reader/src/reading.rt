//! The reading of a whole component.

ghost use Rattle.std.specs.Prelude.{◌≡◌, IfOk, IfErr};
ghost use Rattle.ca_base.specs.Grammar.{MayRead};
ghost use Rattle.ca_base.specs.declared.refusal.Refusal.{Refusal};
ghost use Rattle.faults.specs.declared.memory.MemoryOr.TheVariants.{Memory, Fault};
ghost use Rattle.comp_tree.specs.declared.items.Component.{Component};
ghost use Rattle.part_reader.specs.declared.fault.ComponentWhy.{ComponentWhy};
ghost use Rattle.comp_reader.specs.Binary.{component, file, file_end, IsComponent, IsRefused};

use crate::def_types::DEPTH_LIMIT;
use crate::sections::read_component_within;
use ca_base::{ReadError, Window};
use comp_tree::Component;
use part_reader::ComponentWhy;
use std::alloc::Global;

/// Reads the bytes of a component file.
///
/// It answers the component that the bytes stand for, or where they are refused and why (Component Model, Binary.md).
/// `Memory` is want of memory.
#[tactic(auto, using(ca_base::proofs::Whole::whole_ok, ca_base::proofs::Whole::whole_only, ca_base::proofs::Whole::whole_refused))]
pub fn read_component(alloc: Global, bytes: &[u8]) -> Result<Component, ReadError<ComponentWhy>>
    // What is read is that component.
    ensures ok { IfOk result (λ c. IsComponent bytes.now c) }
    // Bytes of a component aren't refused.
    ensures only { (c : Component) → IsComponent bytes.now c → IfErr result (λ e. e ≡ Memory) }
    // What is refused is no component, and this is the place and the reason.
    ensures refused { IfErr result (λ e. (refusal : Refusal ComponentWhy) → e ≡ Fault refusal → IsRefused bytes.now refusal) }
    // All three in one equation.
    ensures exact { MayRead (λ c. c) component (file bytes.now) (file_end bytes.now) result }
{
    read_whole(alloc, bytes)
}

/// Reads the bytes of a whole file.
fn read_whole(alloc: Global, bytes: &[u8]) -> Result<Component, ReadError<ComponentWhy>>
    ensures { MayRead (λ c. c) component (file bytes.now) (file_end bytes.now) result }
{
    let mut window = Window::of(bytes, 0, ComponentWhy::Truncated);
    read_component_within(alloc, DEPTH_LIMIT, &mut window)
}
