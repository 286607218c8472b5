//! The body of a function.

ghost use Rattle.std.specs.Prelude.{◌≡◌, length};
ghost use Rattle.std.specs.Option.{option_copied};
ghost use Rattle.syntax_trees.specs.Expr.{first_op, left_at, flat, unflat};

use crate::instr::Op;
use std::marker::Model;

/// A function's body (Core 2.0, section 2.4.9). Contracts see the expression, a tree, of which the code is the flat form:
/// each instruction in file order, with `else` and `end` in their places, the body's own `end` last.
#[derive(Drop)]
pub struct Body {
    code: Vec<Op>,
}

impl Model for Body {
    ghost use Rattle.std.specs.Prelude.{◌≡◌};
    ghost use Rattle.syntax_trees.specs.Expr.{Expr, expr_code, flat, unflat};

    ghost Value = { Expr };

    ghost coded = { expr_code };

    ghost view = { λ b. unflat b.code.items };

    ghost invariant = { λ b. flat (unflat b.code.items) ≡ b.code.items };
}

impl Body {
    /// The body of this flat code. It takes no memory.
    pub fn from_code(code: Vec<Op>) -> Self
        requires { flat (unflat code.items) ≡ code.items }
        ensures { result ≡ unflat code.items }
    {
        Body { code }
    }

    /// The operation at a place of the flat code, which is the first of what is left there, or `None` behind the last.
    pub fn op_at(&self, at: usize) -> Option<&Op>
        ensures { option_copied result ≡ first_op (left_at at self.now) }
    {
        self.code.get(at)
    }

    /// The flat code.
    pub fn ops(&self) -> &[Op]
        ensures { result.now ≡ flat self.now }
    {
        &self.code
    }

    /// How many operations there are, `else` and `end` among them.
    pub fn len(&self) -> usize
        ensures { result ≡ length (flat self.now) }
    {
        self.code.len()
    }
}
