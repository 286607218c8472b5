//! Locals and globals (Core 2.0, section 4.4.5).

ghost use Rattle.std.specs.Prelude.{◌≡◌, ◌<◌, ℕ, List, reverse, length, set, Some, IfOk, vec_len};
ghost use Rattle.std.specs.List.{slice_get};
ghost use Rattle.wasm_store.specs.Store as machine;
ghost use Rattle.wasm_store.specs.Effects.{Leaves, local_get, local_set, local_tee, global_get, global_set};
ghost use Rattle.wasm_store.specs.Views.{global_of};

use faults::Memory;
use wasm_code::GlobalInstance;
use wasm_code::operands::{pop, push, put};

/// Puts a local's value on top.
///
/// `Memory` comes where memory runs out.
#[inline]
pub(crate) fn local_get(index: u32, locals: &[u64], operands: &mut Vec<u64>) -> Result<(), Memory>
    requires { index < length locals.now }
    ensures { IfOk result (λ _. (s : machine.Store) → local_get (slice_get locals.now index) s locals.now (reverse operands.old.items) ≡ Leaves s locals.now (reverse operands.new.items)) }
{
    push(operands, locals[index as usize])
}

/// Gives a local this value, where there is one.
#[inline]
#[tactic(auto, using(crate::proofs::Making::set_past))]
fn assign(index: u32, locals: &mut [u64], value: u64)
    ensures { locals.new ≡ set locals.old index value }
{
    let index = index as usize;
    if index < locals.len() {
        locals[index] = value;
    }
}

/// Gives a local the value of the last operand, which it takes.
#[inline]
pub(crate) fn local_set(index: u32, locals: &mut [u64], operands: &mut Vec<u64>)
    requires { 0 < vec_len operands.old }
    ensures { (s : machine.Store) → local_set index s locals.old (reverse operands.old.items) ≡ Leaves s locals.new (reverse operands.new.items) }
{
    let value = pop(operands);
    assign(index, locals, value);
}

/// Gives a local the value of the last operand, which stays.
#[inline]
pub(crate) fn local_tee(index: u32, locals: &mut [u64], operands: &mut Vec<u64>)
    requires { 0 < vec_len operands.old }
    ensures { (s : machine.Store) → local_tee index s locals.old (reverse operands.old.items) ≡ Leaves s locals.new (reverse operands.new.items) }
{
    let value = pop(operands);
    put(operands, value);
    assign(index, locals, value);
}

/// Puts a global's value on top.
///
/// `Memory` comes where memory runs out.
#[inline]
pub(crate) fn global_get(global: &GlobalInstance, operands: &mut Vec<u64>) -> Result<(), Memory>
    ensures { IfOk result (λ _. (address : ℕ) (s : machine.Store) (ls : List ℕ) → global_get (Some (address, global_of global.now)) s ls (reverse operands.old.items) ≡ Leaves s ls (reverse operands.new.items)) }
{
    push(operands, global.value)
}

/// Gives a global the value of the last operand, which it takes.
#[inline]
pub(crate) fn global_set(global: &mut GlobalInstance, operands: &mut Vec<u64>)
    requires { 0 < vec_len operands.old }
    ensures { (address : ℕ) (s : machine.Store) (ls : List ℕ) → global_set (Some (address, global_of global.old)) s ls (reverse operands.old.items) ≡ Leaves (record s { globals = set s.globals address (global_of global.new) }) ls (reverse operands.new.items) }
{
    global.value = pop(operands);
}
