//! Calls.

ghost use Rattle.std.specs.Prelude.{◌≡◌, ◌<◌, Some, length};
ghost use Rattle.std.specs.List.{slice_get};
ghost use Rattle.syntax_trees.specs.declared.instr.Instr.TheVariants as instr;
ghost use Rattle.syntax_trees.specs.declared.module_types.FuncType.{FuncType};
ghost use Rattle.syntax_trees.specs.Expr.{Expr, Plain};
ghost use Rattle.wasm_store.specs.Store.{type_of};
ghost use Rattle.wasm_store.specs.Step.{same_signature};
ghost use Rattle.wasm_store.specs.Typed.{StoreTyped};
ghost use Rattle.wasm_store.specs.Views.{function_of};
ghost use Rattle.wasm_execution.specs.Places.{frame_of, IsPlaced};
ghost use Rattle.wasm_execution.specs.Stepping.{IsTyped, StepGives, PlacedAfter};

use crate::frame::Frame;
use crate::stepping::Step;
use syntax_trees::module_types::FuncType;
use wasm_store::{FunctionInstance, Store, Trap};

/// `call`.
pub(crate) fn call(frame: &mut Frame, store: &Store, index: usize) -> Step
    requires placed { IsPlaced frame.old }
    requires typed { IsTyped store.now (frame_of frame.old) }
    requires next { (r : Expr) × ((frame_of frame.old).rest ≡ Plain (instr.Call index) r) }
    ensures placed { PlacedAfter result frame.new }
    ensures gives { StepGives store.now (frame_of frame.old) result store.now (frame_of frame.new) }
{
    let address = store.instance(frame.instance).funcs.as_slice()[index];
    frame.advance();
    Step::Calls(address)
}

/// `call_indirect`: a call of the function that an entry of a table has, if it has this type.
pub(crate) fn call_indirect(frame: &mut Frame, store: &Store, index: usize, table: usize) -> Step
    requires placed { IsPlaced frame.old }
    requires store { StoreTyped store.now }
    requires typed { IsTyped store.now (frame_of frame.old) }
    requires next { (r : Expr) × ((frame_of frame.old).rest ≡ Plain (instr.CallIndirect index table) r) }
    ensures placed { PlacedAfter result frame.new }
    ensures gives { StepGives store.now (frame_of frame.old) result store.now (frame_of frame.new) }
{
    let instance = store.instance(frame.instance);
    let at = instance.tables.as_slice()[table];
    let number = frame.pop();
    let Some(entry) = entry_at(&store.table(at).entries, number) else {
        return Step::Traps(Trap::TableBounds);
    };
    let Some(address) = entry else {
        return Step::Traps(Trap::NullElement);
    };
    if !has_type(store.function(address), instance.types.as_slice(), index) {
        return Step::Traps(Trap::OtherSignature);
    }
    frame.advance();
    Step::Calls(address)
}

/// The entry at a number, where there is one.
fn entry_at(entries: &[Option<usize>], number: u64) -> Option<Option<usize>>
    ensures { result ≡ slice_get entries.now number }
{
    entries.get(number as usize).copied()
}

/// Whether a function has the type of an index.
fn has_type(function: &FunctionInstance, types: &[FuncType], index: usize) -> bool
    requires { index < length types.now }
    ensures { (type : FuncType) × (slice_get types.now index ≡ Some type) × (result ≡ same_signature type (type_of (function_of function.now))) }
{
    function.has_type(&types[index])
}
