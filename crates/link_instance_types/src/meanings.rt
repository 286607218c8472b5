//! Types.

ghost use Rattle.std.specs.Prelude.{◌≡◌, List, map, IfOk, OnOk};
ghost use Rattle.std.specs.List.{AllZip};
ghost use Rattle.link_spec.specs.Definitions.{Closure};
ghost use Rattle.link_spec.specs.Spaces as spaces;
ghost use Rattle.link_spec.specs.Types as types_read;
ghost use Rattle.link_spec.specs.Types.{nothing_declared, declared_by};
ghost use Rattle.link_types.specs.Table.{IsType, Grows};
ghost use Rattle.link_meanings.specs.Meant.{IsMeaning};
ghost use Rattle.link_meanings.specs.Levels.{AreLevels, IsEnclosing};
ghost use Rattle.link_instance_types.specs.Declaring.{IsDeclared, decl_makes};

use crate::around::{all_enclosing, innermost, within};
use crate::declaring::Declared;
use comp_tree::{DefType, InstanceDecl};
use link_meanings::{Enclosing, Level, func_meaning, value_meaning};
use link_types::{Meant, TypeRef, Types};
use std::alloc::{AllocError, Global};

/// What a type means, which stands within these.
#[cycle(meanings)]
fn meaning<'a>(
    alloc: Global,
    types: &mut Types<'a>,
    around: &[Enclosing<'_>],
    def_type: &'a DefType,
) -> Result<Meant<'a, TypeRef>, AllocError>
    ensures ok { IfOk result (λ m. (closures : List Closure) (levels : List spaces.Level) → AllZip (IsEnclosing types.old closures) around.now levels → IsMeaning (IsType types.new) m (types_read.meaning_of def_type.now levels)) }
    ensures grows { Grows types.old types.new }
{
    match def_type {
        DefType::Value(val_type) => {
            Ok(value_meaning(alloc, types, &innermost(around), val_type)?)
        }
        DefType::Func(func_type) => {
            Ok(func_meaning(alloc, types, &innermost(around), func_type)?)
        }
        DefType::Instance(decls) => Ok(instance_meaning(alloc, types, around, decls.as_slice())?),
        DefType::Resource(_) => Ok(Meant::there(None)),
    }
}

/// What an instance type of these declarations means, which stands within these.
#[cycle(meanings)]
fn instance_meaning<'a>(
    alloc: Global,
    types: &mut Types<'a>,
    around: &[Enclosing<'_>],
    decls: &'a [InstanceDecl],
) -> Result<Meant<'a, TypeRef>, AllocError>
    ensures ok { IfOk result (λ m. (closures : List Closure) (levels : List spaces.Level) → AllZip (IsEnclosing types.old closures) around.now levels → IsMeaning (IsType types.new) m (types_read.instance_meaning (declared_by levels nothing_declared (map decl_makes decls.now)))) }
    ensures grows { Grows types.old types.new }
{
    let mut declared = Declared::new(alloc, types)?;
    for decl in decls {
        declare(alloc, types, around, &mut declared, decl)?;
    }
    Ok(declared.finish(types)?)
}

/// A declaration of an instance type behind others.
#[cycle(meanings)]
fn declare<'a>(
    alloc: Global,
    types: &mut Types<'a>,
    around: &[Enclosing<'_>],
    declared: &mut Declared<'a>,
    decl: &'a InstanceDecl,
) -> Result<(), AllocError>
    ensures ok { OnOk result ((closures : List Closure) (levels : List spaces.Level) (d : types_read.Declared) → AllZip (IsEnclosing types.old closures) around.now levels → IsDeclared types.old closures declared.old d → IsDeclared types.new closures declared.new (decl_makes decl.now levels d)) }
    ensures grows { Grows types.old types.new }
{
    match decl {
        InstanceDecl::Type(def_type) => {
            let meant = {
                // The levels are lent again, for as long as the instance type is.
                let levels = within(alloc, declared.own_level(), &*around)?;
                meaning(alloc, types, &levels, def_type)?
            };
            declared.add_type(&meant)?
        }
        InstanceDecl::Alias(alias) => declared.add_alias(alloc, types, around, alias)?,
        InstanceDecl::Export { name, desc } => declared.add_export(alloc, types, name, *desc)?,
    }
    Ok(())
}

/// What a type means that a component defines, seen from the component instances around it, from the inside out: the first is
/// the one where it stands (Component Model, Explainer.md, "Type Definitions"). Whatever it answers, what stood in the table
/// stands there still.
pub fn meaning_of<'a>(
    alloc: Global,
    types: &mut Types<'a>,
    levels: &[Level<'_>],
    def_type: &'a DefType,
) -> Result<Meant<'a, TypeRef>, AllocError>
    ensures ok { IfOk result (λ m. (closures : List Closure) (around : List spaces.Level) → AreLevels types.old closures levels.now around → IsMeaning (IsType types.new) m (types_read.meaning_of def_type.now around)) }
    ensures grows { Grows types.old types.new }
{
    let around = all_enclosing(alloc, levels)?;
    Ok(meaning(alloc, types, &around, def_type)?)
}
