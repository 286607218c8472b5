//! The types of a function's locals, looked up by their indices.

ghost use Rattle.std.specs.Prelude.{◌≡◌, ◌≤◌, ◌++◌, IfOk};
ghost use Rattle.std.specs.List.{slice_get};
ghost use Rattle.syntax_trees.specs.Locals.{declared_locals, local_count, locals_limit};
ghost use Rattle.wasm_typing.specs.Runs.{run_types, Rising};

use std::alloc::{AllocError, Global};
use std::marker::Model;
use syntax_trees::Locals;
use syntax_trees::module_types::ValType;

/// Declared locals of one type that stand side by side.
#[derive(Clone, Copy)]
pub(crate) struct Run {
    /// How many declared locals there are up to its end.
    pub end: usize,
    /// Their type.
    pub val_type: ValType,
}

/// The types of a function's parameters and of its locals behind them. Contracts see them one by one.
#[derive(Drop)]
pub struct LocalTypes<'a> {
    params: &'a [ValType],
    runs: Vec<Run>,
}

impl<'a> Model for LocalTypes<'a> {
    ghost use Rattle.std.specs.Prelude.{List, ◌++◌};
    ghost use Rattle.syntax_trees.specs.declared.module_types.ValType.{ValType};
    ghost use Rattle.wasm_typing.specs.Runs.{run_types, Rising};

    ghost Value = { List ValType };

    ghost view = { λ l. l.params.now ++ run_types 0 l.runs.items };

    ghost invariant = { λ l. Rising 0 l.runs.items };
}

impl<'a> LocalTypes<'a> {
    /// The locals of a function with these parameters and these groups. It fails for want of memory alone.
    pub fn of(
        alloc: Global,
        params: &'a [ValType],
        groups: &[Locals],
    ) -> Result<LocalTypes<'a>, AllocError>
        requires { local_count groups.now ≤ locals_limit }
        ensures { IfOk result (λ l. l ≡ params.now ++ declared_locals groups.now) }
    {
        let mut runs = Vec::new(alloc);
        let mut end: usize = 0;
        for group in groups {
            end += group.count as usize;
            runs.push(Run {
                end,
                val_type: group.val_type,
            })?;
        }
        Ok(LocalTypes { params, runs })
    }

    /// The type of the local of an index, where there is one.
    pub fn get(&self, index: u32) -> Option<ValType>
        ensures { result ≡ slice_get self.now index }
    {
        let index = index as usize;
        if index < self.params.len() {
            return Some(self.params[index]);
        }
        run_at(&self.runs, index - self.params.len())
    }
}

/// The type of the declared local of an index, where there is one. It halves the runs at each step.
fn run_at(runs: &[Run], index: usize) -> Option<ValType>
    requires { Rising 0 runs.now }
    ensures { result ≡ slice_get (run_types 0 runs.now) index }
{
    let mut low: usize = 0;
    let mut high = runs.len();
    while low < high {
        let middle = low + (high - low) / 2;
        if runs[middle].end <= index {
            low = middle + 1;
        } else {
            high = middle;
        }
    }
    if low == runs.len() {
        return None;
    }
    Some(runs[low].val_type)
}
