//! The code of a function.

ghost use Rattle.std.specs.Prelude.{◌≡◌, [], IfOk};
ghost use Rattle.std.specs.Option.{option_copied};
ghost use Rattle.syntax_trees.specs.Expr.{first_op, left_at, op_count};
ghost use Rattle.wasm_code.specs.Jumps.{behind_block, second_part, Opens, OpensIf};

use crate::copying::copy_body;
use crate::jumps::{Jump, jumps_of};
use std::alloc::{AllocError, Global};
use std::marker::Model;
use syntax_trees::{Body, Op};

/// The code of a function (Core 2.0, section 2.4.9), which contracts see as its expression.
#[derive(Drop)]
pub struct Code {
    body: Body,
    jumps: Vec<Jump>,
}

impl Model for Code {
    ghost use Rattle.syntax_trees.specs.Expr.{Expr, expr_code};
    ghost use Rattle.wasm_code.specs.Jumps.{AreJumps};

    ghost Value = { Expr };

    ghost coded = { expr_code };

    ghost view = { λ c. c.body };

    ghost invariant = { λ c. AreJumps c.body c.jumps.items };
}

impl Code {
    /// The code of a body, as a copy. It fails for want of memory alone.
    pub fn of(alloc: Global, body: &Body) -> Result<Code, AllocError>
        ensures { IfOk result (λ c. c ≡ body.now) }
    {
        let jumps = jumps_of(alloc, body)?;
        let body = copy_body(alloc, body)?;
        Ok(Code { body, jumps })
    }

    /// The operation at a place, which is the first of what is left there, or `None` behind the last.
    #[inline]
    pub fn op_at(&self, at: usize) -> Option<&Op>
        ensures { option_copied result ≡ first_op (left_at at self.now) }
    {
        self.body.op_at(at)
    }

    /// How many operations there are. Nothing is left behind them.
    #[inline]
    pub fn len(&self) -> usize
        ensures count { result ≡ op_count self.now }
        ensures end { left_at result self.now ≡ [] }
    {
        self.body.len()
    }

    /// The place behind the end of the block, loop or `if` that begins at a place.
    #[inline]
    pub fn behind(&self, at: usize) -> usize
        requires { Opens (first_op (left_at at self.now)) }
        ensures { left_at result self.now ≡ behind_block (left_at at self.now) }
    {
        self.jumps[at].behind
    }

    /// The place of the second part of the `if` that begins at a place: that of its end, where it has no `else`.
    #[inline]
    pub fn second(&self, at: usize) -> usize
        requires { OpensIf (first_op (left_at at self.now)) }
        ensures { left_at result self.now ≡ second_part (left_at at self.now) }
    {
        self.jumps[at].second
    }
}
