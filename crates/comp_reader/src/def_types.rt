//! Types, and the instance types that hold others.
//!
//! Instance types hold others up to a bounded depth, so these readers call one another; how many more may be opened is passed on.

ghost use Rattle.ca_base.specs.Grammar.{MayRead, times};
ghost use Rattle.comp_reader.specs.Binary.{def_type, instance_type, declarations, instance_decl};

use crate::aliases::read_alias;
use crate::externs::read_extern_desc;
use ca_base::{Kind, ReadError, Refusal, Window};
use comp_tree::{DefType, InstanceDecl, Item};
use part_reader::{
    ComponentWhy, read_def_val_type, read_extern_name, read_func_type, read_resource_type,
    unsupported,
};
use std::alloc::Global;
use syntax_trees::Seq;

/// How many components may be open at a place, and how many instance types.
pub(crate) const DEPTH_LIMIT: u8 = 16;

/// Reads a type (Component Model, Binary.md, `deftype`), inside which so many instance types may be opened.
#[cycle(def_types)]
#[tactic(auto, unfolding(crate::specs::Binary::type_of))]
fn read_def_type(
    alloc: Global,
    more: u8,
    window: &mut Window<ComponentWhy>,
) -> Result<DefType, ReadError<ComponentWhy>>
    ensures { MayRead (λ t. t) (def_type more) window.old window.new result }
{
    let place = window.at();
    let byte = window.byte()?;
    if byte == 0x40 {
        let func_type = read_func_type(alloc, window)?;
        return Ok(DefType::Func(func_type));
    }
    if byte == 0x42 {
        return read_instance_type(alloc, more, place, window);
    }
    if byte == 0x3F {
        let destructor = read_resource_type(window)?;
        return Ok(DefType::Resource(destructor));
    }
    let val_type = read_def_val_type(alloc, place, byte, window)?;
    Ok(DefType::Value(val_type))
}

/// Reads what stands behind the 42 of an instance type at this place, where so many may be opened, itself one of them.
#[cycle(def_types)]
#[tactic(auto, using(crate::proofs::Depth::instance_type_none, crate::proofs::Depth::instance_type_more))]
fn read_instance_type(
    alloc: Global,
    allowed: u8,
    place: usize,
    window: &mut Window<ComponentWhy>,
) -> Result<DefType, ReadError<ComponentWhy>>
    ensures { MayRead (λ t. t) (instance_type allowed place) window.old window.new result }
{
    if allowed == 0 {
        return Err(ReadError::Fault(Refusal {
            place,
            why: ComponentWhy::Limit,
        }));
    }
    read_declarations(alloc, allowed - 1, window)
}

/// Reads the declarations of an instance type.
#[cycle(def_types)]
#[tactic(auto, unfolding(crate::specs::Binary::declarations))]
fn read_declarations(
    alloc: Global,
    more: u8,
    window: &mut Window<ComponentWhy>,
) -> Result<DefType, ReadError<ComponentWhy>>
    ensures { MayRead (λ t. t) (declarations (def_type more)) window.old window.new result }
{
    let count = window.u32()?;
    let decls = read_decls(alloc, more, count, window)?;
    Ok(DefType::Instance(decls))
}

/// Reads so many declarations, one after the other.
#[cycle(def_types)]
#[tactic(auto, using(ca_base::proofs::Times::times_none, ca_base::proofs::Times::times_ok, ca_base::proofs::Times::times_err))]
fn read_decls(
    alloc: Global,
    more: u8,
    count: u32,
    window: &mut Window<ComponentWhy>,
) -> Result<Seq<InstanceDecl>, ReadError<ComponentWhy>>
    ensures { MayRead (λ decls. decls) (times count (instance_decl (def_type more))) window.old window.new result }
{
    let mut decls = Seq::new(alloc);
    for _index in 0..count {
        let read = read_decl(alloc, more, window)?;
        decls.push(read)?;
    }
    Ok(decls)
}

/// Reads a declaration of an instance type (Component Model, Binary.md, `instancedecl`).
#[cycle(def_types)]
#[tactic(auto, unfolding(crate::specs::Binary::instance_decl))]
fn read_decl(
    alloc: Global,
    more: u8,
    window: &mut Window<ComponentWhy>,
) -> Result<InstanceDecl, ReadError<ComponentWhy>>
    ensures { MayRead (λ decl. decl) (instance_decl (def_type more)) window.old window.new result }
{
    let place = window.at();
    let byte = window.byte()?;
    if byte == 1 {
        let def_type = read_def_type(alloc, more, window)?;
        return Ok(InstanceDecl::Type(def_type));
    }
    if byte == 2 {
        let alias = read_alias(alloc, window)?;
        return Ok(InstanceDecl::Alias(alias));
    }
    if byte == 4 {
        let name = read_extern_name(alloc, window)?;
        let desc = read_extern_desc(window)?;
        return Ok(InstanceDecl::Export { name, desc });
    }
    Err(ReadError::Fault(unsupported(place, byte)))
}

/// Types of a component.
pub(crate) struct Types;

impl Kind for Types {
    ghost use Rattle.comp_reader.specs.Binary.{type_item};

    type Why = ComponentWhy;

    type Item = Item;

    ghost grammar = { type_item };

    #[tactic(auto, unfolding(crate::specs::Binary::type_item))]
    fn read(
        alloc: Global,
        window: &mut Window<ComponentWhy>,
    ) -> Result<Item, ReadError<ComponentWhy>> {
        let def_type = read_def_type(alloc, DEPTH_LIMIT, window)?;
        Ok(Item::Type(def_type))
    }
}
