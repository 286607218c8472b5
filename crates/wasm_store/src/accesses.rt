//! Accesses of memories (Core 2.0, section 4.4.7).

ghost use Rattle.std.specs.Prelude.{◌≡◌, ◌∷◌, [], ℕ, List, true, if◌then◌else◌, reverse, is_ok, None, Some, IfOk, OnErr, ◌<◌, vec_len, vec_capacity};
ghost use Rattle.std.specs.List.{slice_get};
ghost use Rattle.syntax_trees.specs.declared.module_types.ValType.TheVariants.{I32};
ghost use Rattle.wasm_typing.specs.Instrs.{store_takes};
ghost use Rattle.wasm_store.specs.declared.trap.Trap.TheVariants.{MemoryBounds};
ghost use Rattle.wasm_store.specs.Store as machine;
ghost use Rattle.wasm_store.specs.Effects.{Leaves, with_memory, effect, load, store, memory_size, memory_grow, memory_copy, memory_fill};
ghost use Rattle.wasm_store.specs.Fits.{EndWith, Gives, accesses_memory, told_types};

use crate::trap::Trap;
use faults::Memory;
use syntax_trees::{Instr, LoadOp, StoreOp};
use wasm_code::operands::{pop, push, put};
use wasm_memory::{LinearMemory, OutOfBounds};

/// Takes the last operand, an `i32`. There is room for another one.
#[inline]
fn pop_i32(operands: &mut Vec<u64>) -> u32
    requires { EndWith (I32 ∷ []) (reverse operands.old.items) }
    ensures taken { reverse operands.old.items ≡ result ∷ reverse operands.new.items }
    ensures room { vec_len operands.new < vec_capacity operands.new }
{
    pop(operands) as u32
}

/// The trap of an access that is outside.
#[inline]
fn bounds_trap(access: Result<(), OutOfBounds>) -> Option<Trap>
    ensures { result ≡ (if is_ok access then None else Some MemoryBounds) }
{
    match access {
        Ok(()) => None,
        Err(OutOfBounds) => Some(Trap::MemoryBounds),
    }
}

/// Loads a number from the place that the last operand and the offset tell, and puts it there.
#[inline]
fn load(memory: &LinearMemory, op: LoadOp, offset: u32, operands: &mut Vec<u64>) -> Option<Trap>
    requires { EndWith (I32 ∷ []) (reverse operands.old.items) }
    ensures { (address : ℕ) (s : machine.Store) (ls : List ℕ) → Gives s (load op offset (Some (address, memory.now)) s ls (reverse operands.old.items)) result s ls (reverse operands.new.items) }
{
    let address = pop_i32(operands);
    match memory.load(op, address, offset) {
        Some(value) => {
            put(operands, value);
            None
        }
        None => Some(Trap::MemoryBounds),
    }
}

/// Stores the last operand at the place that the one before it and the offset tell.
#[inline]
fn store(
    memory: &mut LinearMemory,
    op: StoreOp,
    offset: u32,
    operands: &mut Vec<u64>,
) -> Option<Trap>
    requires { EndWith (store_takes op ∷ I32 ∷ []) (reverse operands.old.items) }
    ensures { (address : ℕ) (s : machine.Store) (ls : List ℕ) → slice_get s.memories address ≡ Some memory.old → Gives s (store op offset (Some (address, memory.old)) s ls (reverse operands.old.items)) result (with_memory address memory.new s) ls (reverse operands.new.items) }
{
    let value = pop(operands);
    let address = pop_i32(operands);
    bounds_trap(memory.store(op, address, offset, value))
}

/// Puts the memory's size in pages on top.
///
/// `Memory` comes where memory runs out.
#[inline]
fn size(memory: &LinearMemory, operands: &mut Vec<u64>) -> Result<(), Memory>
    ensures { IfOk result (λ _. (address : ℕ) (s : machine.Store) (ls : List ℕ) → memory_size (Some (address, memory.now)) s ls (reverse operands.old.items) ≡ Leaves s ls (reverse operands.new.items)) }
{
    push(operands, u64::from(memory.pages()))
}

/// Grows the memory by as many pages as the last operand says, and puts the size before there, or -1 where it is refused.
///
/// `Memory` comes where memory runs out, and then the memory is as it was.
fn grow(memory: &mut LinearMemory, operands: &mut Vec<u64>) -> Result<(), Memory>
    requires { EndWith (I32 ∷ []) (reverse operands.old.items) }
    ensures gives { IfOk result (λ _. (address : ℕ) (s : machine.Store) (ls : List ℕ) → slice_get s.memories address ≡ Some memory.old → memory_grow (Some (address, memory.old)) s ls (reverse operands.old.items) ≡ Leaves (with_memory address memory.new s) ls (reverse operands.new.items)) }
    ensures err { OnErr result (memory.new ≡ memory.old) }
{
    let delta = pop_i32(operands);
    match memory.grow(delta)? {
        Some(before) => put(operands, u64::from(before)),
        None => put(operands, 0xFFFF_FFFF),
    }
    Ok(())
}

/// Copies as many bytes as the last operand says, from the place that the one before it tells to that of the one before both.
fn copy(memory: &mut LinearMemory, operands: &mut Vec<u64>) -> Option<Trap>
    requires { EndWith (I32 ∷ I32 ∷ I32 ∷ []) (reverse operands.old.items) }
    ensures { (address : ℕ) (s : machine.Store) (ls : List ℕ) → slice_get s.memories address ≡ Some memory.old → Gives s (memory_copy (Some (address, memory.old)) s ls (reverse operands.old.items)) result (with_memory address memory.new s) ls (reverse operands.new.items) }
{
    let count = pop_i32(operands);
    let from = pop_i32(operands);
    let to = pop_i32(operands);
    bounds_trap(memory.copy(to, from, count))
}

/// Makes as many bytes as the last operand says all the lowest byte of the one before it, from the place on that the one before
/// both tells.
fn fill(memory: &mut LinearMemory, operands: &mut Vec<u64>) -> Option<Trap>
    requires { EndWith (I32 ∷ I32 ∷ I32 ∷ []) (reverse operands.old.items) }
    ensures { (address : ℕ) (s : machine.Store) (ls : List ℕ) → slice_get s.memories address ≡ Some memory.old → Gives s (memory_fill (Some (address, memory.old)) s ls (reverse operands.old.items)) result (with_memory address memory.new s) ls (reverse operands.new.items) }
{
    let count = pop_i32(operands);
    let value = pop_i32(operands);
    let at = pop_i32(operands);
    bounds_trap(memory.fill(at, (value % 256) as u8, count))
}

/// Makes an instruction that accesses the memory. The answer is its trap, where it traps.
///
/// `Memory` comes where memory runs out, and then the memory is as it was.
#[inline]
pub(crate) fn access(
    memory: &mut LinearMemory,
    instr: &Instr,
    operands: &mut Vec<u64>,
) -> Result<Option<Trap>, Memory>
    requires accesses { accesses_memory instr.now ≡ true }
    requires operands { EndWith (reverse (told_types instr.now)) (reverse operands.old.items) }
    ensures gives { (i : machine.Instance) (address : ℕ) (s : machine.Store) (ls : List ℕ) → machine.memory_at 0 i s ≡ Some (address, memory.old) → IfOk result (λ trap. Gives s (effect instr.now i s ls (reverse operands.old.items)) trap (with_memory address memory.new s) ls (reverse operands.new.items)) }
    ensures err { OnErr result (memory.new ≡ memory.old) }
{
    match instr {
        Instr::Load(op, arg) => Ok(load(memory, *op, arg.offset, operands)),
        Instr::Store(op, arg) => Ok(store(memory, *op, arg.offset, operands)),
        Instr::MemorySize => {
            size(memory, operands)?;
            Ok(None)
        }
        Instr::MemoryGrow => {
            grow(memory, operands)?;
            Ok(None)
        }
        Instr::MemoryCopy => Ok(copy(memory, operands)),
        Instr::MemoryFill => Ok(fill(memory, operands)),
        _ => unreachable!(),
    }
}
