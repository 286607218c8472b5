//! The arguments of core modules, and what imports find among them.

ghost use Rattle.std.specs.Prelude.{◌≡◌, Some, None, Ok, Err, MatchOption, MatchResult, IfOk, find};
ghost use Rattle.std.specs.List.{slice_get};
ghost use Rattle.std.specs.Option.{option_and_then, option_map};
ghost use Rattle.std.specs.Str.{bytes_eq};
ghost use Rattle.faults.specs.Faults.{IfFault};
ghost use Rattle.link_spec.specs.Items.{argument_named};
ghost use Rattle.link_spec.specs.Computed as computed;

use crate::aliases::exports_at;
use crate::core_item::CoreItem;
use crate::exports::CoreExports;
use crate::names::missing;
use ca_base::{by_name, find};
use comp_tree::CoreArgument;
use faults::MemoryOr;
use link_spec::LinkWhy;
use std::alloc::{AllocError, Global};
use std::collections::BTreeMap;
use std::marker::Model;
use syntax_trees::Import;

/// Arguments, and the numbers of these by their names. Contracts see the arguments.
#[derive(Drop)]
pub(crate) struct Arguments<'a> {
    read: &'a [CoreArgument],
    numbers: BTreeMap<&'a str, usize>,
}

impl<'a> Model for Arguments<'a> {
    ghost use Rattle.std.specs.Prelude.{◌≡◌, ℕ, List, map};
    ghost use Rattle.std.specs.Coded.{coded_list};
    ghost use Rattle.comp_tree.specs.declared.core_instances.CoreArgument.{CoreArgument};
    ghost use Rattle.comp_tree.specs.contracts.core_instances.CoreArgument as argument;
    ghost use Rattle.syntax_trees.specs.Names.{at_name, first_named};

    ghost Value = { List CoreArgument };

    ghost coded = { coded_list argument.the_row.coded };

    ghost view = { λ a. a.read.now };

    ghost invariant = { λ a. (q : List ℕ) → at_name a.numbers q ≡ first_named q (map (λ (a : CoreArgument). a.name) a.read.now) };
}

impl<'a> Arguments<'a> {
    /// These arguments. It fails for want of memory alone.
    pub fn new(alloc: Global, read: &'a [CoreArgument]) -> Result<Arguments<'a>, AllocError>
        ensures { IfOk result (λ a. a ≡ read.now) }
    {
        let numbers = by_name(alloc, read)?;
        Ok(Arguments { read, numbers })
    }

    /// The index of the core instance that is passed under a name: of equal names the first.
    pub fn instance(&self, name: &str) -> Option<u32>
        ensures { result ≡ option_map (λ a. a.instance) (find (λ a. bytes_eq a.name name.now) self.now) }
    {
        let number = find(&self.numbers, name);
        let read = self.read;
        instance_at(read, number)
    }
}

/// The index of the core instance of the argument of a number, if there is one.
fn instance_at(read: &[CoreArgument], number: Option<usize>) -> Option<u32>
    ensures { result ≡ option_map (λ a. a.instance) (option_and_then (λ k. slice_get read.now k) number) }
{
    let argument = read.get(number?)?;
    Some(argument.instance)
}

/// What the argument of a name exports.
#[tactic(auto, using(crate::proofs::Passed::named_none, crate::proofs::Passed::named_some))]
fn argument<'r, 'a>(
    instances: &'r [CoreExports<'a>],
    arguments: &Arguments,
    name: &str,
) -> Option<&'r CoreExports<'a>>
    ensures { MatchOption result (argument_named instances.now name.now arguments.now ≡ None) (λ e. argument_named instances.now name.now arguments.now ≡ Some e.now) }
{
    exports_at(instances, arguments.instance(name)?)
}

/// What an import of a core module finds.
fn found_in<'a>(
    alloc: Global,
    instances: &[CoreExports<'a>],
    arguments: &Arguments,
    import: &Import,
) -> Result<CoreItem<'a>, MemoryOr<LinkWhy>>
    ensures { MatchResult result (λ i. computed.found_in import.now (argument_named instances.now import.now.module arguments.now) ≡ Ok i) (λ e. IfFault e (λ w. computed.found_in import.now (argument_named instances.now import.now.module arguments.now) ≡ Err w)) }
{
    let Some(exports) = argument(instances, arguments, import.module.as_str()) else {
        return Err(missing(alloc, import.module.as_str()));
    };
    match exports.exported(import.name.as_str()) {
        Some(item) => Ok(item),
        None => Err(missing(alloc, import.name.as_str())),
    }
}

/// What the imports of a core module find, each of them, or the first name that is missing.
#[tactic(auto, using(crate::proofs::Behind::behind_none, crate::proofs::Behind::one_found, crate::proofs::Behind::not_found, crate::proofs::Behind::all_are_found))]
pub(crate) fn all_found<'a>(
    alloc: Global,
    instances: &[CoreExports<'a>],
    arguments: &Arguments,
    imports: &[Import],
) -> Result<Vec<CoreItem<'a>>, MemoryOr<LinkWhy>>
    ensures { MatchResult result (λ v. computed.all_found instances.now arguments.now imports.now ≡ Ok v.items) (λ e. IfFault e (λ w. computed.all_found instances.now arguments.now imports.now ≡ Err w)) }
{
    let mut items = Vec::new(alloc);
    for import in imports {
        items.push(found_in(alloc, instances, arguments, import)?)?;
    }
    Ok(items)
}
