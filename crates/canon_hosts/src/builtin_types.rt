//! The types of built-ins as core functions.

ghost use Rattle.std.specs.Prelude.{◌≡◌, option_to_list, map, IfOk};
ghost use Rattle.syntax_trees.specs.Flat.{at_most};
ghost use Rattle.comp_graph.specs.Needs.{core_val, task_return_type};
ghost use Rattle.comp_graph.specs.Graph.{passed_value, resource_type, plain_type, context_type, copy_type, end_type, builtin_type};

use crate::canon_types::{flat_result, passed};
use builtin_kinds::{ContextOp, EndKind, PlainBuiltin, ResourceOp};
use comp_graph::{BuiltinKind, EndOp};
use faults::Memory;
use laid_types::LaidType;
use std::alloc::Global;
use syntax_trees::Seq;
use syntax_trees::module_types::{FuncType, ValType};

/// The type of a core function of these parameters, and of this result, if there is one.
pub(crate) fn func_type(
    alloc: Global,
    params: &[ValType],
    returned: Option<ValType>,
) -> Result<FuncType, Memory>
    ensures { IfOk result (λ t. t ≡ record { params = params.now; results = option_to_list returned }) }
{
    let params = Seq::from_vec(Vec::from_slice(alloc, params)?);
    match returned {
        Some(only) => {
            let results = Seq::of(alloc, only)?;
            Ok(FuncType { params, results })
        }
        None => Ok(FuncType {
            params,
            results: Seq::new(alloc),
        }),
    }
}

/// The type of a built-in of a resource (Component Model, CanonicalABI.md, `canon resource.new` and its fellows).
fn resource_type(alloc: Global, op: ResourceOp) -> Result<FuncType, Memory>
    ensures { IfOk result (λ t. t ≡ resource_type op) }
{
    match op {
        ResourceOp::New => func_type(alloc, &[ValType::I32], Some(ValType::I32)),
        ResourceOp::Drop => func_type(alloc, &[ValType::I32], None),
        ResourceOp::Rep => func_type(alloc, &[ValType::I32], Some(ValType::I32)),
    }
}

/// The type of a built-in that names nothing (Component Model, CanonicalABI.md, `canon task.cancel` and its fellows).
fn plain_type(alloc: Global, op: PlainBuiltin) -> Result<FuncType, Memory>
    ensures { IfOk result (λ t. t ≡ plain_type op) }
{
    match op {
        PlainBuiltin::TaskCancel => func_type(alloc, &[], None),
        PlainBuiltin::BackpressureSet => func_type(alloc, &[ValType::I32], None),
        PlainBuiltin::BackpressureInc => func_type(alloc, &[], None),
        PlainBuiltin::BackpressureDec => func_type(alloc, &[], None),
        PlainBuiltin::SubtaskCancel { is_async: _ } => {
            func_type(alloc, &[ValType::I32], Some(ValType::I32))
        }
        PlainBuiltin::SubtaskDrop => func_type(alloc, &[ValType::I32], None),
        PlainBuiltin::Yield { cancellable: _ } => func_type(alloc, &[], Some(ValType::I32)),
        PlainBuiltin::WaitableSetNew => func_type(alloc, &[], Some(ValType::I32)),
        PlainBuiltin::WaitableSetDrop => func_type(alloc, &[ValType::I32], None),
        PlainBuiltin::WaitableJoin => func_type(alloc, &[ValType::I32, ValType::I32], None),
    }
}

/// The type of a built-in of a word of the task (Component Model, CanonicalABI.md, `canon context.get` and `canon context.set`).
fn context_type(alloc: Global, op: ContextOp) -> Result<FuncType, Memory>
    ensures { IfOk result (λ t. t ≡ context_type op) }
{
    match op {
        ContextOp::Get => func_type(alloc, &[], Some(ValType::I32)),
        ContextOp::Set => func_type(alloc, &[ValType::I32], None),
    }
}

/// The type of a read or write: of an index and a place, and for a stream of a number of elements too.
fn copy_type(alloc: Global, kind: EndKind) -> Result<FuncType, Memory>
    ensures { IfOk result (λ t. t ≡ copy_type kind) }
{
    match kind {
        EndKind::Stream => func_type(
            alloc,
            &[ValType::I32, ValType::I32, ValType::I32],
            Some(ValType::I32),
        ),
        EndKind::Future => func_type(alloc, &[ValType::I32, ValType::I32], Some(ValType::I32)),
    }
}

/// The type of a built-in of the ends of streams or futures (Component Model, CanonicalABI.md, `canon stream.new` and its fellows).
fn end_type(alloc: Global, kind: EndKind, op: &EndOp) -> Result<FuncType, Memory>
    ensures { IfOk result (λ t. t ≡ end_type kind op.now) }
{
    match op {
        EndOp::New => func_type(alloc, &[], Some(ValType::I64)),
        EndOp::Copy {
            side: _,
            options: _,
        } => copy_type(alloc, kind),
        EndOp::Cancel {
            side: _,
            is_async: _,
        } => func_type(alloc, &[ValType::I32], Some(ValType::I32)),
        EndOp::Drop { side: _ } => func_type(alloc, &[ValType::I32], None),
    }
}

/// The type of a built-in that returns a result of a type (Component Model, CanonicalABI.md, `canon task.return`).
#[tactic(auto, using(crate::proofs::FirstTypes::return_params_are))]
fn return_type(alloc: Global, returned: &Option<LaidType<'_>>) -> Result<FuncType, Memory>
    ensures { IfOk result (λ t. t ≡ task_return_type returned.now) }
{
    let params = passed(alloc, flat_result(returned), 16)?;
    Ok(FuncType {
        params: Seq::from_vec(params),
        results: Seq::new(alloc),
    })
}

/// The type of a built-in, whose result or elements are of this type, where it has any (Component Model, CanonicalABI.md, "Canonical
/// Built-ins").
pub(crate) fn builtin_type(
    alloc: Global,
    kind: &BuiltinKind,
    value: &Option<LaidType<'_>>,
) -> Result<FuncType, Memory>
    requires { value.now ≡ passed_value kind.now }
    ensures { IfOk result (λ t. t ≡ builtin_type kind.now) }
{
    match kind {
        BuiltinKind::Resource { op, resource: _ } => resource_type(alloc, *op),
        BuiltinKind::TaskReturn {
            result: _,
            options: _,
        } => return_type(alloc, value),
        BuiltinKind::Plain(op) => plain_type(alloc, *op),
        BuiltinKind::Context { op, slot: _ } => context_type(alloc, *op),
        BuiltinKind::Wait {
            op: _,
            cancellable: _,
            memory: _,
        } => func_type(alloc, &[ValType::I32, ValType::I32], Some(ValType::I32)),
        BuiltinKind::End {
            kind,
            element: _,
            op,
        } => end_type(alloc, *kind, op),
    }
}
