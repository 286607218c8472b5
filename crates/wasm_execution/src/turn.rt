//! The function that runs, up to a pause: its end, a call, a trap, or want of fuel.

ghost use Rattle.std.specs.Prelude.{◌≡◌, IfOk, OnErr, true, false};
ghost use Rattle.wasm_store.specs.Typed.{StoreTyped};
ghost use Rattle.syntax_trees.specs.Expr.{End};
ghost use Rattle.wasm_execution.specs.Places.{frame_of, IsPlaced};
ghost use Rattle.wasm_execution.specs.Stepping.{IsTyped, LeavesTo, ComesTo, Pauses, Halts, PlacedAt};

use crate::frame::Frame;
use crate::stepping::{Step, make_step};
use ca_base::Fuel;
use faults::Memory;
use wasm_store::{Store, Trap};

/// Why a function pauses.
#[derive(Clone, Copy)]
pub(crate) enum Pause {
    /// It has ended.
    Ended,
    /// The next instruction came while no fuel was left.
    NoFuel,
    /// It calls the function at this address. Its arguments are the last operands.
    Calls(usize),
    /// It trapped.
    Traps(Trap),
}

/// Runs a function up to a pause. Each instruction costs one unit, and ends cost nothing.
///
/// `Memory` comes where memory runs out. Then the frame is of no use, and the store is that of the steps that were made.
pub(crate) fn run_function(
    frame: &mut Frame,
    store: &mut Store,
    fuel: &mut Fuel,
) -> Result<Pause, Memory>
    requires placed { IsPlaced frame.old }
    requires store { StoreTyped store.old }
    requires typed { IsTyped store.old (frame_of frame.old) }
    ensures placed { IfOk result (λ p. PlacedAt p frame.new) }
    ensures pauses { IfOk result (λ p. Pauses store.old (frame_of frame.old) fuel.old p store.new (frame_of frame.new) fuel.new) }
    ensures halts { OnErr result (Halts store.old (frame_of frame.old) fuel.old store.new fuel.new) }
{
    while to_instruction(frame) {
        if !fuel.spend() {
            return Ok(Pause::NoFuel);
        }
        match make_step(frame, store)? {
            Step::Goes => {}
            Step::Calls(address) => return Ok(Pause::Calls(address)),
            Step::Traps(why) => return Ok(Pause::Traps(why)),
        }
    }
    Ok(Pause::Ended)
}

/// Leaves the blocks that end here, and answers whether an instruction comes next. Else the function has ended.
fn to_instruction(frame: &mut Frame) -> bool
    requires placed { IsPlaced frame.old }
    ensures placed { IsPlaced frame.new }
    ensures leaves { LeavesTo (frame_of frame.old) (frame_of frame.new) }
    ensures comes { ComesTo result (frame_of frame.new) }
{
    while frame.is_at_end() {
        if !frame.leave() {
            return false;
        }
    }
    true
}
