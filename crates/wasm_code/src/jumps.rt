//! The places at which the code of blocks goes on.

ghost use Rattle.std.specs.Prelude.{◌≡◌, ◌<◌, ◌+◌, ◌^◌, drop, reverse, slice_get, IfOk};
ghost use Rattle.wasm_code.specs.Ends.{ends_before, jump_of, noted};
ghost use Rattle.wasm_code.specs.Jumps.{AreJumps};

use std::alloc::{AllocError, Global};
use syntax_trees::{Body, Op};

/// The places at which the code of a block, a loop or an `if` goes on.
#[derive(Clone, Copy)]
pub(crate) struct Jump {
    /// The place behind its end.
    pub(crate) behind: usize,
    /// Of an `if` the place of its second part: behind `else`, or that of the end where there is no `else`.
    pub(crate) second: usize,
}

/// For each place of a body's code the jump of the block that begins there, and some jump where none begins. One pass from
/// the end makes them. It fails for want of memory alone.
pub(crate) fn jumps_of(alloc: Global, body: &Body) -> Result<Vec<Jump>, AllocError>
    ensures { IfOk result (λ jumps. AreJumps body.now jumps.items) }
{
    let ops = body.ops();
    let none = Jump {
        behind: 0,
        second: 0,
    };
    let mut jumps = Vec::from_elem(alloc, none, ops.len())?;
    let mut ends = Vec::new(alloc);
    let mut at = ops.len();
    while 0 < at {
        at -= 1;
        if let Some(jump) = step_back(&mut ends, &ops[at], at)? {
            jumps[at] = jump;
        }
    }
    Ok(jumps)
}

/// Goes back over the operation at a place: takes it into the open ends, of which the innermost is last, and gives the jump
/// of the block that it begins.
fn step_back(ends: &mut Vec<Jump>, op: &Op, at: usize) -> Result<Option<Jump>, AllocError>
    requires { at + 1 < 2 ^ 64 }
    ensures jump { IfOk result (λ jump. jump ≡ jump_of op.now (reverse ends.old.items)) }
    ensures ends { IfOk result (λ _. reverse ends.new.items ≡ ends_before op.now at (reverse ends.old.items)) }
{
    match op {
        Op::Plain(_) => Ok(None),
        Op::OpenBlock(_) | Op::OpenLoop(_) | Op::OpenIf(_) => Ok(take_end(ends)),
        Op::Else => {
            note_second(ends, at + 1)?;
            Ok(None)
        }
        Op::End => {
            ends.push(Jump {
                behind: at + 1,
                second: at,
            })?;
            Ok(None)
        }
    }
}

/// Takes the innermost open end, if there is one.
fn take_end(ends: &mut Vec<Jump>) -> Option<Jump>
    ensures taken { result ≡ slice_get (reverse ends.old.items) 0 }
    ensures left { reverse ends.new.items ≡ drop 1 (reverse ends.old.items) }
{
    ends.pop()
}

/// Notes on the innermost open end that a second part begins at a place.
fn note_second(ends: &mut Vec<Jump>, place: usize) -> Result<(), AllocError>
    ensures { IfOk result (λ _. reverse ends.new.items ≡ noted place (reverse ends.old.items)) }
{
    if let Some(end) = take_end(ends) {
        ends.push(Jump {
            behind: end.behind,
            second: place,
        })?;
    }
    Ok(())
}
