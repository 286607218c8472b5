//! Types of resources that are defined, their destructors, and their numbers.

ghost use Rattle.std.specs.Prelude.{◌≡◌};
ghost use Rattle.std.specs.Option.{option_and_then};
ghost use Rattle.comp_tree.specs.declared.types.DefType.{out-DefType};
ghost use Rattle.link_spec.specs.Resources.{resource_written};
ghost use Rattle.link_spec.specs.Computed as computed;
ghost use Rattle.link_meanings.specs.References.{resource_ref};
ghost use Rattle.link_parts.specs.Told.{IsTold};

use canon_types::destructor_type;
use comp_graph::FuncRef;
use comp_tree::DefType;
use faults::MemoryOr;
use link_core_exports::CoreItem;
use link_parts::ItemError;
use link_spec::LinkWhy;
use link_types::TypeRef;

/// The index of the destructor, if there is one, where a type of resources is written.
pub fn resource_written(def_type: &DefType) -> Option<Option<u32>>
    ensures { result ≡ resource_written (out-DefType def_type.now) }
{
    match def_type {
        DefType::Value(_) => None,
        DefType::Func(_) => None,
        DefType::Instance(_) => None,
        DefType::Resource(destructor) => Some(*destructor),
    }
}

/// The core function that a core item is, where it can be a destructor.
pub fn destructor_of(item: &CoreItem<'_>) -> Result<Option<FuncRef>, ItemError>
    ensures { IsTold (λ core of_item. core ≡ of_item) result (computed.destructor_of item.now) }
{
    if !item.is_of_type(&destructor_type()) {
        return Err(MemoryOr::Fault(LinkWhy::Canon));
    }
    let Some(core) = item.core_func() else {
        return Err(MemoryOr::Fault(LinkWhy::Canon));
    };
    Ok(Some(core))
}

/// The number of a resource, of a type that is found.
pub fn resource_number(found: Option<TypeRef>) -> Option<usize>
    ensures { result ≡ option_and_then resource_ref found }
{
    match found? {
        TypeRef::Resource(number) => Some(number),
        TypeRef::Value(_) | TypeRef::Func(_) | TypeRef::Instance(_) => None,
    }
}
