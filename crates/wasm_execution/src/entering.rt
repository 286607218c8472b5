//! Blocks, loops and `if` that begin.

ghost use Rattle.std.specs.Prelude.{◌≡◌, ◌⊎◌, IfOk};
ghost use Rattle.syntax_trees.specs.Expr.{Expr, Block, Loop, If, IfElse};
ghost use Rattle.wasm_execution.specs.Places.{frame_of, IsPlaced};
ghost use Rattle.wasm_execution.specs.Stepping.{IsTyped, StepGives, PlacedAfter};

use crate::frame::Frame;
use crate::stepping::Step;
use faults::Memory;
use syntax_trees::BlockType;
use wasm_store::Store;

/// `block`.
pub(crate) fn enter_block(
    frame: &mut Frame,
    store: &Store,
    block_type: BlockType,
) -> Result<Step, Memory>
    requires placed { IsPlaced frame.old }
    requires typed { IsTyped store.now (frame_of frame.old) }
    requires next { (b : Expr) × (r : Expr) × ((frame_of frame.old).rest ≡ Block block_type b r) }
    ensures placed { IfOk result (λ s. PlacedAfter s frame.new) }
    ensures gives { IfOk result (λ s. StepGives store.now (frame_of frame.old) s store.now (frame_of frame.new)) }
{
    let types = store.instance(frame.instance).types.as_slice();
    let params = block_type.params(types).len();
    let results = block_type.results(types).len();
    frame.enter(params, results)?;
    Ok(Step::Goes)
}

/// `loop`.
pub(crate) fn enter_loop(
    frame: &mut Frame,
    store: &Store,
    block_type: BlockType,
) -> Result<Step, Memory>
    requires placed { IsPlaced frame.old }
    requires typed { IsTyped store.now (frame_of frame.old) }
    requires next { (b : Expr) × (r : Expr) × ((frame_of frame.old).rest ≡ Loop block_type b r) }
    ensures placed { IfOk result (λ s. PlacedAfter s frame.new) }
    ensures gives { IfOk result (λ s. StepGives store.now (frame_of frame.old) s store.now (frame_of frame.new)) }
{
    let types = store.instance(frame.instance).types.as_slice();
    let params = block_type.params(types).len();
    frame.enter_loop(params)?;
    Ok(Step::Goes)
}

/// `if`: one of its parts.
pub(crate) fn enter_one_of(
    frame: &mut Frame,
    store: &Store,
    block_type: BlockType,
) -> Result<Step, Memory>
    requires placed { IsPlaced frame.old }
    requires typed { IsTyped store.now (frame_of frame.old) }
    requires next { ((a : Expr) × (r : Expr) × ((frame_of frame.old).rest ≡ If block_type a r)) ⊎ ((a : Expr) × (b : Expr) × (r : Expr) × ((frame_of frame.old).rest ≡ IfElse block_type a b r)) }
    ensures placed { IfOk result (λ s. PlacedAfter s frame.new) }
    ensures gives { IfOk result (λ s. StepGives store.now (frame_of frame.old) s store.now (frame_of frame.new)) }
{
    let types = store.instance(frame.instance).types.as_slice();
    let params = block_type.params(types).len();
    let results = block_type.results(types).len();
    if frame.pop() == 0 {
        frame.enter_second(params, results)?;
        return Ok(Step::Goes);
    }
    frame.enter(params, results)?;
    Ok(Step::Goes)
}
