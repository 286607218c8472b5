//! The resources that component instances define.

ghost use Rattle.std.specs.Prelude.{◌≡◌, ◌+◌, ◌∷◌, ◌++◌, ℕ, List, [], length, IfOk, OnOk};
ghost use Rattle.comp_graph.specs.declared.graph.Resource.{Resource};
ghost use Rattle.program_maker.specs.Programs.{AreDefined};

use comp_graph::{Resource, graph_number};
use std::alloc::{AllocError, Global};
use syntax_trees::Seq;

/// No resources, for each of so many instances.
fn none_defined(alloc: Global, instances: u32) -> Result<Vec<Seq<u32>>, AllocError>
    ensures { IfOk result (λ all. AreDefined instances [] all.items) }
{
    let mut all = Vec::new(alloc);
    for _instance in 0..instances {
        all.push(Seq::new(alloc))?;
    }
    Ok(all)
}

/// Adds a resource of this number to those that its instance defines.
fn define(all: &mut Vec<Seq<u32>>, resource: &Resource, number: u32) -> Result<(), AllocError>
    ensures { OnOk result ((instances : ℕ) (before : List Resource) → number ≡ length before + 1 → AreDefined instances before all.old.items → AreDefined instances (before ++ resource.now ∷ []) all.new.items) }
{
    let instance = resource.instance as usize;
    if instance >= all.len() {
        return Ok(());
    }
    all[instance].push(number)?;
    Ok(())
}

/// The resources that each of so many instances defines, in order of making. There are fewer than 2^32.
pub(crate) fn resources_of(
    alloc: Global,
    instances: u32,
    resources: &[Resource],
) -> Result<Vec<Seq<u32>>, AllocError>
    ensures { IfOk result (λ all. AreDefined instances resources.now all.items) }
{
    let mut all = none_defined(alloc, instances)?;
    for at in 0..resources.len() {
        let number = graph_number(at + 1)?;
        define(&mut all, &resources[at], number)?;
    }
    Ok(all)
}
