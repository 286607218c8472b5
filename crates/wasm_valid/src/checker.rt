//! What is known of the operands of open blocks (Core 2.0, appendix "Validation Algorithm").

ghost use Rattle.std.specs.Prelude.{◌≡◌, ◌∷◌, [], ◌++◌, true, false, length, reverse, OnOk, IfOk, is_some, Some, None};
ghost use Rattle.std.specs.List.{slice_get};
ghost use Rattle.std.specs.Option.{option_map};
ghost use Rattle.wasm_typing.specs.Typing.{operands_of};
ghost use Rattle.wasm_typing.specs.Context.{arrow};
ghost use Rattle.wasm_typing.specs.Checking.{known, control, may_be, taken, taken_all, turned, anything, popped, labels_in, too_short};
ghost use Rattle.wasm_valid.specs.State.{Turned, Popped, Left, with_top, all_of, kinds};

use crate::open_block::OpenBlock;
use std::alloc::{AllocError, Global};
use std::marker::Model;
use syntax_trees::BlockType;
use syntax_trees::module_types::ValType;
use wasm_typing::{BlockKind, Context};

/// What is known of the operands of open blocks. An operand of which no type is known may have any.
#[derive(Drop)]
pub(crate) struct Checker {
    top: OpenBlock,
    around: Vec<OpenBlock>,
    operands: Vec<Option<ValType>>,
}

impl Model for Checker {
    ghost use Rattle.std.specs.Prelude.{◌∷◌, reverse, length, take};
    ghost use Rattle.wasm_valid.specs.State.{State, seen, top_of, Stacked};

    ghost Value = { State };

    ghost view = { λ c. (top_of c.top c.operands.items, seen (reverse c.around.items) (take c.top.height c.operands.items)) };

    ghost invariant = { λ c. Stacked (c.top ∷ reverse c.around.items) (length c.operands.items) };
}

impl Checker {
    /// A checker of a body of this type.
    pub fn new(alloc: Global, block_type: BlockType) -> Self
        ensures { result ≡ (control BlockKind.Block block_type (known [] false), []) }
    {
        Checker {
            top: OpenBlock {
                kind: BlockKind::Block,
                block_type,
                height: 0,
                any: false,
            },
            around: Vec::new(alloc),
            operands: Vec::new(alloc),
        }
    }

    /// What the innermost block is.
    pub fn kind(&self) -> BlockKind
        ensures { result ≡ self.now.0.kind }
    {
        self.top.kind
    }

    /// The type of the innermost block.
    pub fn block_type(&self) -> BlockType
        ensures { result ≡ self.now.0.type }
    {
        self.top.block_type
    }

    /// How many operands are known above the floor of the innermost block.
    pub fn known_len(&self) -> usize
        ensures { result ≡ length self.now.0.known.types }
    {
        self.operands.len() - self.top.height
    }

    /// Whether there are fewer operands above the floor of the innermost block than so many.
    pub fn is_short(&self, wanted: usize) -> bool
        ensures { result ≡ too_short wanted (all_of self.now) }
    {
        if self.top.any {
            return false;
        }
        self.known_len() < wanted
    }

    /// Puts an operand on top.
    pub fn push(&mut self, operand: Option<ValType>) -> Result<(), AllocError>
        ensures { OnOk result (self.new ≡ with_top (known (operand ∷ self.old.0.known.types) self.old.0.known.any) self.old) }
    {
        self.operands.push(operand)?;
        Ok(())
    }

    /// Puts operands of these types on top, in order.
    pub fn push_all(&mut self, types: &[ValType]) -> Result<(), AllocError>
        ensures { OnOk result (self.new ≡ with_top (known (operands_of types.now ++ self.old.0.known.types) self.old.0.known.any) self.old) }
    {
        for val_type in types {
            self.push(Some(*val_type))?;
        }
        Ok(())
    }

    /// Takes the last operand, where there may be one: `None` in it where it may have any type.
    pub fn pop(&mut self) -> Option<Option<ValType>>
        ensures { Popped (popped self.old.0.known) result self.old self.new }
    {
        if self.operands.len() == self.top.height {
            if self.top.any {
                return Some(None);
            }
            return None;
        }
        self.operands.pop()
    }

    /// Takes an operand of a type, where there may be one.
    pub fn take(&mut self, wanted: ValType) -> bool
        ensures { Turned (taken wanted self.old.0.known) result self.old self.new }
    {
        if self.operands.len() == self.top.height {
            return self.top.any;
        }
        let Some(found) = self.operands.pop() else {
            return false;
        };
        may_be(found, wanted)
    }

    /// Whether the last operands may be of these types.
    pub fn accepts(&self, wanted: &[ValType]) -> bool
        ensures { result ≡ is_some (taken_all (reverse wanted.now) (Some self.now.0.known)) }
    {
        accepts(&self.operands[self.top.height..], self.top.any, wanted)
    }

    /// Takes operands of these types, where there may be some.
    pub fn take_all(&mut self, wanted: &[ValType]) -> bool
        ensures { Turned (taken_all (reverse wanted.now) (Some self.old.0.known)) result self.old self.new }
    {
        if !self.accepts(wanted) {
            return false;
        }
        let left = self.known_len().saturating_sub(wanted.len());
        self.operands.truncate(self.top.height + left);
        true
    }

    /// Forgets the operands: behind a branch any may be.
    pub fn forget(&mut self)
        ensures { self.new ≡ with_top (known [] true) self.old }
    {
        self.operands.truncate(self.top.height);
        self.top.any = true;
    }

    /// Takes operands of these types, behind which any may be.
    pub fn leave_by(&mut self, wanted: &[ValType]) -> bool
        ensures { Turned (anything (taken_all (reverse wanted.now) (Some self.old.0.known))) result self.old self.new }
    {
        if !self.take_all(wanted) {
            return false;
        }
        self.forget();
        true
    }

    /// Takes operands of the first types and puts those of the others on top.
    pub fn turn(&mut self, params: &[ValType], results: &[ValType]) -> Result<bool, AllocError>
        ensures { IfOk result (λ passed. Turned (turned (Some (arrow params.now results.now)) self.old.0.known) passed self.old self.new) }
    {
        if !self.take_all(params) {
            return Ok(false);
        }
        self.push_all(results)?;
        Ok(true)
    }

    /// Does so below an `i32`, which it takes first.
    #[tactic(auto, using(crate::proofs::Accepting::tested))]
    pub fn test_and_turn(
        &mut self,
        params: &[ValType],
        results: &[ValType],
    ) -> Result<bool, AllocError>
        ensures { IfOk result (λ passed. Turned (turned (Some (arrow (params.now ++ ValType.I32 ∷ []) results.now)) self.old.0.known) passed self.old self.new) }
    {
        if !self.take(ValType::I32) {
            return Ok(false);
        }
        Ok(self.turn(params, results)?)
    }

    /// Opens a block without operands.
    pub fn open(&mut self, kind: BlockKind, block_type: BlockType) -> Result<(), AllocError>
        ensures { OnOk result (self.new ≡ (control kind block_type (known [] false), self.old.0 ∷ self.old.1)) }
    {
        let height = self.operands.len();
        self.around.push(self.top)?;
        self.top = OpenBlock {
            kind,
            block_type,
            height,
            any: false,
        };
        Ok(())
    }

    /// Begins the second part of an `if`, whose first one has no operands left.
    pub fn begin_second(&mut self)
        requires { self.old.0.known.types ≡ [] }
        ensures { self.new ≡ (control BlockKind.Block self.old.0.type (known [] false), self.old.1) }
    {
        self.top.kind = BlockKind::Block;
        self.top.any = false;
    }

    /// Leaves a block that has no operands, where there is one around.
    pub fn leave(&mut self) -> bool
        requires { self.old.0.known.types ≡ [] }
        ensures { Left result self.old self.new }
    {
        let Some(top) = self.around.pop() else {
            return false;
        };
        self.top = top;
        true
    }

    /// What a branch to the label of an index wants, where it is there.
    #[tactic(auto, using(crate::proofs::Stacks::label_none, crate::proofs::Stacks::label_some))]
    pub fn label<'a>(&self, context: &Context<'a>, depth: u32) -> Option<&'a [ValType]>
        ensures { option_map (λ types. types.now) result ≡ slice_get (labels_in context.now (all_of self.now)) depth }
    {
        match self.block_at(depth as usize) {
            None => None,
            Some(block) => Some(context.label(block.kind, block.block_type)),
        }
    }

    /// The open block of a number, the innermost first.
    fn block_at(&self, depth: usize) -> Option<OpenBlock>
        ensures { option_map (λ b. (b.kind, b.block_type)) result ≡ slice_get (kinds (all_of self.now)) depth }
    {
        if depth == 0 {
            return Some(self.top);
        }
        let count = self.around.len();
        if count < depth {
            return None;
        }
        Some(self.around[count - depth])
    }
}

/// Whether an operand of which this is known may have a type.
fn may_be(found: Option<ValType>, wanted: ValType) -> bool
    ensures { result ≡ may_be found wanted }
{
    match found {
        None => true,
        Some(found) => found.is_same(wanted),
    }
}

/// Whether operands of which this is known, the last one last, may end in these types.
fn accepts(operands: &[Option<ValType>], any: bool, wanted: &[ValType]) -> bool
    ensures { result ≡ is_some (taken_all (reverse wanted.now) (Some (known (reverse operands.now) any))) }
{
    let mut types = wanted;
    let mut over = operands;
    while let Some((wanted, before)) = types.split_last() {
        let Some((found, below)) = over.split_last() else {
            return any;
        };
        if !may_be(*found, *wanted) {
            return false;
        }
        types = before;
        over = below;
    }
    true
}
