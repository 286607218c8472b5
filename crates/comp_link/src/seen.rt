//! A definition as it is asked for.

ghost use Rattle.std.specs.Prelude.{◌≡◌, ℕ, List, Option, Some, Ok};
ghost use Rattle.faults.specs.Faults.{IfFault};
ghost use Rattle.comp_graph.specs.Closed.{Extern};
ghost use Rattle.link_spec.specs.declared.fault.LinkWhy.TheVariants as why;
ghost use Rattle.link_spec.specs.Definitions.{Definition, Exports};
ghost use Rattle.link_spec.specs.Spaces.{Linking};
ghost use Rattle.link_spec.specs.Items.{lacking};
ghost use Rattle.link_spec.specs.Computed.{none_missing};
ghost use Rattle.link_types.specs.Table.{IsName, IsExtern, Grows};
ghost use Rattle.link_instances.specs.References as references;
ghost use Rattle.link_meanings.specs.Meant.{IsFoundAs};
ghost use Rattle.link_parts.specs.Told.{IsTold};
ghost use Rattle.link_state.specs.State.{world_of, IsState};
ghost use Rattle.comp_link.specs.Ready.{as_wanted, IsSeen};

use faults::MemoryOr;
use link_core_exports::missing;
use link_instances::{DefinitionRef, Fit, seen_as};
use link_parts::ItemError;
use link_state::Linker;
use link_types::{ExternRef, Types};
use std::alloc::Global;

/// The name of this number is missing.
fn missing_number(alloc: Global, types: &Types<'_>, number: usize) -> ItemError
    ensures { IfFault result (λ w. (name : List ℕ) → IsName types.now number name → w ≡ why.Missing name) }
{
    match types.text(number) {
        Some(name) => missing(alloc, name),
        None => MemoryOr::Memory,
    }
}

/// A definition as it is asked for: nothing where it is of another sort or type, or where what is asked for has no meaning. A
/// name that is missing is a reason of its own.
pub fn seen(
    alloc: Global,
    linker: &mut Linker<'_>,
    given: DefinitionRef,
    asked: Option<ExternRef>,
) -> Result<Option<DefinitionRef>, ItemError>
    ensures told { (bases : List Exports) (l : Linking) (d : Definition) (wanted : Option Extern) (name : List ℕ) → IsState bases linker.old l → references.Stands linker.old.types (world_of bases linker.old) given d → IsFoundAs (IsExtern linker.old.types) asked wanted → IsTold (IsSeen linker.new.types (world_of bases linker.new)) result (none_missing (lacking (Some d) name wanted) (Ok (as_wanted d wanted))) }
    ensures state { (bases : List Exports) (l : Linking) (d : Definition) (wanted : Option Extern) → IsState bases linker.old l → references.Stands linker.old.types (world_of bases linker.old) given d → IsFoundAs (IsExtern linker.old.types) asked wanted → IsState bases linker.new l }
    ensures rest { linker.new ≡ record linker.old { types = linker.new.types; instances = linker.new.instances } }
    ensures grows { Grows linker.old.types linker.new.types }
{
    let Some(asked) = asked else {
        return Ok(None);
    };
    let asked = linker.filled(alloc, given, asked)?;
    match linker.fit(alloc, given, asked)? {
        Fit::Fits => Ok(Some(seen_as(given, asked))),
        Fit::Missing(number) => Err(missing_number(alloc, &linker.types, number)),
        Fit::Differs => Ok(None),
    }
}
