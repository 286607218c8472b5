//! Imports: of the root, which is given instances of types alone, and of a component with arguments.

ghost use Rattle.std.specs.Prelude.{◌≡◌, ◌<◌, List, length, Option, Some, None, OnOk, IsTrue};
ghost use Rattle.comp_graph.specs.Closed.{Extern};
ghost use Rattle.link_spec.specs.Definitions.{Exports, export_named};
ghost use Rattle.link_spec.specs.Spaces.{Spaces, Linking};
ghost use Rattle.link_spec.specs.Items as items;
ghost use Rattle.link_spec.specs.Tests as tests;
ghost use Rattle.link_spec.specs.Computed.{import_outcome, root_given};
ghost use Rattle.link_types.specs.Table.{Table, IsName, IsExtern};
ghost use Rattle.link_instances.specs.References.{World, IsInstance};
ghost use Rattle.link_instances.specs.Instances.{AreInstances};
ghost use Rattle.link_meanings.specs.Meant.{IsFoundAs};
ghost use Rattle.link_parts.specs.Told.{IsTold};
ghost use Rattle.link_state.specs.State.{world_of, IsAt, IsMade, ended};
ghost use Rattle.comp_link.specs.Ready.{IsReady, IsGiven, IsTypesOf, imported};

use crate::seen::seen;
use comp_tree::{ExternDesc, Import};
use faults::MemoryOr;
use link_core_exports::missing;
use link_instances::{DefinitionRef, InstanceRef, Instances};
use link_items::wanted_of;
use link_parts::ItemError;
use link_spec::LinkWhy;
use link_state::Linker;
use link_types::{ExternRef, InstanceTypeRef, Types};
use std::alloc::Global;

/// Whether an instance whose exports are types is asked for.
fn is_of_types(instances: &Instances, types: &Types<'_>, asked: ExternRef) -> bool
    ensures { (w : World) (extern : Extern) → AreInstances types.now w instances.now → IsExtern types.now asked extern → result ≡ tests.is_of_types extern }
{
    match asked {
        ExternRef::Instance(instance_type) => instances.are_types(types, instance_type),
        ExternRef::Func(_) | ExternRef::Type(_) => false,
    }
}

/// Whether the root may import what is asked for, as far as that has a meaning.
fn root_may_import(
    instances: &Instances,
    types: &Types<'_>,
    desc: ExternDesc,
    asked: Option<ExternRef>,
) -> bool
    ensures { (w : World) (meaning : Option Extern) → AreInstances types.now w instances.now → IsFoundAs (IsExtern types.now) asked meaning → result ≡ tests.root_may_import desc meaning }
{
    match (desc, asked) {
        (ExternDesc::Instance(_), Some(asked)) => is_of_types(instances, types, asked),
        (ExternDesc::Instance(_), None) => true,
        (_, _) => false,
    }
}

/// The type of the instance that the root is given for what it imports.
fn given_type(asked: ExternRef) -> Result<InstanceTypeRef, ItemError>
    ensures { (t : Table) (extern : Extern) → IsExtern t asked extern → IsTrue (tests.is_of_types extern) → IsTold (IsTypesOf t) result (root_given extern) }
{
    match asked {
        ExternRef::Instance(instance_type) => Ok(instance_type),
        ExternRef::Func(_) | ExternRef::Type(_) => Err(MemoryOr::Fault(LinkWhy::RootImport)),
    }
}

/// The type of the instance that the root imports, whose exports are types.
fn root_type(linker: &Linker<'_>, n: usize, import: &Import) -> Result<InstanceTypeRef, ItemError>
    requires { n < length linker.now.scopes.items }
    ensures { (bases : List Exports) (l : Linking) (s : Spaces) → IsAt bases linker.now n l s → IsTold (IsGiven linker.now.types (imported l n s import.now.name)) result (import_outcome l n s import.now.name (items.meant_of s None import.now.desc) import.now.desc None) }
{
    let scope = linker.scope(n);
    let meant = wanted_of(&scope.types, None, import.desc);
    if !root_may_import(&linker.instances, &linker.types, import.desc, meant.means) {
        return Err(MemoryOr::Fault(LinkWhy::RootImport));
    }
    if !meant.is_there {
        return Err(MemoryOr::Fault(LinkWhy::Index));
    }
    if scope.imports.has(import.name.as_str()) {
        return Err(MemoryOr::Fault(LinkWhy::Typing));
    }
    match meant.means {
        Some(asked) => given_type(asked),
        None => Err(MemoryOr::Fault(LinkWhy::Typing)),
    }
}

/// The definition of an import of the root.
fn root_import(
    alloc: Global,
    linker: &mut Linker<'_>,
    n: usize,
    import: &Import,
) -> Result<DefinitionRef, ItemError>
    requires { n < length linker.old.scopes.items }
    ensures made { (bases : List Exports) (l : Linking) (s : Spaces) → IsAt bases linker.old n l s → IsTold (IsReady linker.new l (imported l n s import.now.name)) result (import_outcome l n s import.now.name (items.meant_of s None import.now.desc) import.now.desc None) }
    ensures rest { linker.new ≡ record linker.old { types = linker.new.types; instances = linker.new.instances } }
{
    let instance_type = root_type(linker, n, import)?;
    let instance = linker.instance_of_types(alloc, instance_type)?;
    Ok(DefinitionRef::Instance(instance))
}

/// The definition of an import of a component with arguments: that of its name, as it is asked for.
fn given_import(
    alloc: Global,
    linker: &mut Linker<'_>,
    n: usize,
    import: &Import,
    number: usize,
    arguments: InstanceRef,
) -> Result<DefinitionRef, ItemError>
    requires { n < length linker.old.scopes.items }
    ensures made { (bases : List Exports) (l : Linking) (s : Spaces) (given : Exports) → IsAt bases linker.old n l s → IsName linker.old.types number import.now.name → IsInstance linker.old.types (world_of bases linker.old) arguments given → IsTold (IsReady linker.new l (imported l n s import.now.name)) result (import_outcome l n s import.now.name (items.meant_of s (export_named import.now.name given) import.now.desc) import.now.desc (Some given)) }
    ensures rest { linker.new ≡ record linker.old { types = linker.new.types; instances = linker.new.instances } }
{
    let argument = linker
        .instances
        .export_named(&linker.types, arguments, number);
    let meant = wanted_of(&linker.scope(n).types, argument, import.desc);
    if !meant.is_there {
        return Err(MemoryOr::Fault(LinkWhy::Index));
    }
    let Some(given) = argument else {
        return Err(missing(alloc, import.name.as_str()));
    };
    let definition = seen(alloc, linker, given, meant.means)?;
    if linker.scope(n).imports.has(import.name.as_str()) {
        return Err(MemoryOr::Fault(LinkWhy::Typing));
    }
    match definition {
        Some(definition) => Ok(definition),
        None => Err(MemoryOr::Fault(LinkWhy::Typing)),
    }
}

/// The definition of an import, under the number of its name.
fn import_definition(
    alloc: Global,
    linker: &mut Linker<'_>,
    n: usize,
    import: &Import,
    number: usize,
) -> Result<DefinitionRef, ItemError>
    requires { n < length linker.old.scopes.items }
    ensures made { (bases : List Exports) (l : Linking) (s : Spaces) → IsAt bases linker.old n l s → IsName linker.old.types number import.now.name → IsTold (IsReady linker.new l (imported l n s import.now.name)) result (import_outcome l n s import.now.name (items.wanted s import.now.name import.now.desc) import.now.desc s.arguments) }
    ensures rest { linker.new ≡ record linker.old { types = linker.new.types; instances = linker.new.instances } }
{
    match linker.scope(n).arguments {
        None => root_import(alloc, linker, n, import),
        Some(arguments) => given_import(alloc, linker, n, import, number, arguments),
    }
}

/// Links an import.
pub fn link_import<'a>(
    alloc: Global,
    linker: &mut Linker<'a>,
    n: usize,
    import: &'a Import,
) -> Result<(), ItemError>
    requires { n < length linker.old.scopes.items }
    ensures made { (bases : List Exports) (l : Linking) (s : Spaces) → IsAt bases linker.old n l s → IsTold (λ _ outcome. IsMade linker.new outcome) result (import_outcome l n s import.now.name (items.wanted s import.now.name import.now.desc) import.now.desc s.arguments) }
    ensures scopes { OnOk result (length linker.new.scopes.items ≡ length linker.old.scopes.items) }
    ensures live { OnOk result (ended linker.new ≡ ended linker.old) }
{
    let number = linker.name(&import.name)?;
    let definition = import_definition(alloc, linker, n, import, number)?;
    linker.add_import(n, &import.name, definition)?;
    Ok(())
}
