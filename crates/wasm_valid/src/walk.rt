//! The first fault of a body.

ghost use Rattle.std.specs.Prelude.{◌≡◌, IfOk};
ghost use Rattle.syntax_trees.specs.declared.instr.BlockType.TheVariants.{TypeIndex};
ghost use Rattle.wasm_typing.specs.Checking.{body_fault};

use crate::body::Stepped;
use crate::checker::Checker;
use crate::reasons::why_behind;
use std::alloc::{AllocError, Global};
use syntax_trees::{BlockType, Body};
use wasm_typing::{Context, PartFault};

/// The first fault of a body whose type has this index. It fails for want of memory alone.
pub(crate) fn body_fault(
    alloc: Global,
    context: &Context,
    type_index: u32,
    body: &Body,
) -> Result<Option<PartFault>, AllocError>
    ensures { IfOk result (λ fault. fault ≡ body_fault context.now (TypeIndex type_index) body.now) }
{
    let ops = body.ops();
    let mut checker = Checker::new(alloc, BlockType::TypeIndex(type_index));
    for at in 0..ops.len() {
        let op = &ops[at];
        let why = checker.why(context, op);
        match checker.step(context, op)? {
            Stepped::Stops => return Ok(Some(PartFault { at, why })),
            Stepped::Goes => continue,
            Stepped::Ends => {
                if at + 1 == ops.len() {
                    return Ok(None);
                }
                let why = why_behind(context, &ops[at + 1]);
                return Ok(Some(PartFault { at: at + 1, why }));
            }
        }
    }
    Ok(None)
}
