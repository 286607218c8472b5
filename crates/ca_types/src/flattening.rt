//! The core values that stand for a value (Component Model, CanonicalABI.md, "Flattening").

ghost use Rattle.std.specs.Prelude.{◌≡◌, ◌∷◌, ◌++◌, OnOk, IfOk};
ghost use Rattle.std.specs.List.{flat_map};
ghost use Rattle.syntax_trees.specs.declared.core_type.CoreType.TheVariants.{I32};
ghost use Rattle.syntax_trees.specs.Flat.{flat, flat_payload, flat_params, flat_func, at_most, out_place};

use faults::Memory;
use laid_types::{alone, joined_lists};
use std::alloc::Global;
use syntax_trees::{
    CoreFunc, CoreType, CoreTypes, FlatKind, FuncType, Param, Seq, Shared, ValType,
};

/// The number of a case, and behind it core types for the payloads.
fn tagged(alloc: Global, mut payloads: Vec<CoreType>) -> Result<Vec<CoreType>, Memory>
    ensures { IfOk result (λ types. types.items ≡ I32 ∷ payloads.items) }
{
    let mut types = alone(alloc, CoreType::I32)?;
    types.append(&mut payloads)?;
    Ok(types)
}

/// The core types of a type's values, in order. It fails for want of memory alone.
#[tactic(auto, using(syntax_trees::proofs::FlatEquations::flat_of_tuple, syntax_trees::proofs::FlatEquations::flat_of_record, syntax_trees::proofs::FlatEquations::flat_of_variant, syntax_trees::proofs::FlatEquations::flat_of_result, syntax_trees::proofs::Joins::joined_cases_all, syntax_trees::proofs::Joins::joined_two))]
fn flat(alloc: Global, val_type: &ValType) -> Result<Vec<CoreType>, Memory>
    ensures { IfOk result (λ types. types.items ≡ flat val_type.now) }
{
    match val_type {
        ValType::S64 | ValType::U64 => Ok(alone(alloc, CoreType::I64)?),
        ValType::String | ValType::List(_) => tagged(alloc, alone(alloc, CoreType::I32)?),
        ValType::Record(fields) => {
            let mut types = Vec::new(alloc);
            for field in fields.as_slice() {
                types.append(&mut flat(alloc, field.val_type.get())?)?;
            }
            Ok(types)
        }
        ValType::Tuple(parts) => {
            let mut types = Vec::new(alloc);
            for part in parts.as_slice() {
                types.append(&mut flat(alloc, part.get())?)?;
            }
            Ok(types)
        }
        ValType::Variant(cases) => {
            let mut payloads = Vec::new(alloc);
            for case in cases.as_slice() {
                if let Some(payload) = &case.payload {
                    payloads = joined_lists(alloc, &payloads, &flat(alloc, payload.get())?)?;
                }
            }
            tagged(alloc, payloads)
        }
        ValType::Option(payload) => tagged(alloc, flat(alloc, payload.get())?),
        ValType::Result { ok, err } => {
            let mut payloads = Vec::new(alloc);
            if let Some(payload) = ok {
                payloads = flat(alloc, payload.get())?;
            }
            if let Some(payload) = err {
                payloads = joined_lists(alloc, &payloads, &flat(alloc, payload.get())?)?;
            }
            tagged(alloc, payloads)
        }
        _ => Ok(alone(alloc, CoreType::I32)?),
    }
}

/// The core types that stand for a value of this type, in order (Component Model, CanonicalABI.md, "Flattening"). It
/// fails for want of memory alone.
pub fn flatten(alloc: Global, val_type: &ValType) -> Result<CoreTypes, Memory>
    ensures { IfOk result (λ types. types ≡ flat val_type.now) }
{
    Ok(Seq::from_vec(flat(alloc, val_type)?))
}

/// The core types of all parameters, in order.
fn flat_params(alloc: Global, params: &[Param]) -> Result<CoreTypes, Memory>
    ensures { IfOk result (λ types. types ≡ flat_map (λ p. flat p.val_type) params.now) }
{
    let mut types = Vec::new(alloc);
    for param in params {
        types.append(&mut flat(alloc, param.val_type.get())?)?;
    }
    Ok(Seq::from_vec(types))
}

/// The core types of a result, none where there is none.
fn flat_result(alloc: Global, returned: &Option<Shared<ValType>>) -> Result<CoreTypes, Memory>
    ensures { IfOk result (λ types. types ≡ flat_payload returned.now) }
{
    match returned {
        Some(val_type) => flatten(alloc, val_type.get()),
        None => Ok(Seq::new(alloc)),
    }
}

/// Core types, or one place in memory where they are more than so many.
fn at_most(alloc: Global, most: usize, types: CoreTypes) -> Result<CoreTypes, Memory>
    ensures { IfOk result (λ passed. passed ≡ at_most most types) }
{
    if types.len() <= most {
        return Ok(types);
    }
    Ok(Seq::of(alloc, CoreType::I32)?)
}

/// Puts a place for what a function returns behind its parameters, where the result is more than so many core types.
fn push_out_place(params: &mut CoreTypes, most: usize, results: &CoreTypes) -> Result<(), Memory>
    ensures { OnOk result (params.new ≡ params.old ++ out_place most results.now) }
{
    if results.len() > most {
        params.push(CoreType::I32)?;
    }
    Ok(())
}

/// The core function that stands for a function in one of the five ways (Component Model, CanonicalABI.md,
/// "Flattening": `flatten_functype`).
///
/// Up to 16 core parameters are passed as they are, 4 where a function is lowered and its caller goes on, and more as one
/// place in memory. One core result is returned as it is. More are returned as a place by a lifted function, and put at
/// a place that the caller passes last by a lowered one. It fails for want of memory alone.
pub fn flat_func(alloc: Global, kind: FlatKind, func_type: &FuncType) -> Result<CoreFunc, Memory>
    ensures { IfOk result (λ core. core ≡ flat_func kind func_type.now) }
{
    let params = flat_params(alloc, func_type.params.as_slice())?;
    let results = flat_result(alloc, &func_type.result)?;
    match kind {
        FlatKind::SyncLift => Ok(CoreFunc {
            params: at_most(alloc, 16, params)?,
            results: at_most(alloc, 1, results)?,
        }),
        FlatKind::AsyncLift => Ok(CoreFunc {
            params: at_most(alloc, 16, params)?,
            results: Seq::new(alloc),
        }),
        FlatKind::CallbackLift => Ok(CoreFunc {
            params: at_most(alloc, 16, params)?,
            results: Seq::of(alloc, CoreType::I32)?,
        }),
        FlatKind::SyncLower => {
            let mut params = at_most(alloc, 16, params)?;
            push_out_place(&mut params, 1, &results)?;
            let results = if results.len() > 1 {
                Seq::new(alloc)
            } else {
                results
            };
            Ok(CoreFunc { params, results })
        }
        FlatKind::AsyncLower => {
            let mut params = at_most(alloc, 4, params)?;
            push_out_place(&mut params, 0, &results)?;
            Ok(CoreFunc {
                params,
                results: Seq::of(alloc, CoreType::I32)?,
            })
        }
    }
}
