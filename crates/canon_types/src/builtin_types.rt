//! The types of built-ins as core functions, and of those that the Canonical ABI calls.

ghost use Rattle.std.specs.Prelude.{◌≡◌, map, option_to_list};
ghost use Rattle.syntax_trees.specs.Flat.{at_most, flat_payload};
ghost use Rattle.comp_graph.specs.Needs.{core_val, taking, word, callback_type, destructor_type, task_return_type};
ghost use Rattle.comp_graph.specs.Graph as graph;

use crate::needs::PARAM_LIMIT;
use builtin_kinds::{ContextOp, EndKind, PlainBuiltin, ResourceOp};
use comp_graph::EndOp;
use laid_types::LaidType;
use link_core_types::{CoreFuncType, FewTypes, passed};
use syntax_trees::module_types::ValType;

/// The type of a core function without parameters.
fn of_nothing(returned: Option<ValType>) -> CoreFuncType
    ensures { result ≡ taking 0 (option_to_list returned) }
{
    CoreFuncType::new(FewTypes::new(), returned)
}

/// The type of a core function of one i32.
fn of_word(returned: Option<ValType>) -> CoreFuncType
    ensures { result ≡ taking 1 (option_to_list returned) }
{
    let mut params = FewTypes::new();
    params.push(ValType::I32);
    CoreFuncType::new(params, returned)
}

/// The type of a core function of two i32.
fn of_two_words(returned: Option<ValType>) -> CoreFuncType
    ensures { result ≡ taking 2 (option_to_list returned) }
{
    let mut params = FewTypes::new();
    params.push(ValType::I32);
    params.push(ValType::I32);
    CoreFuncType::new(params, returned)
}

/// The type of the core function that is called with what a handle represents when it is dropped (Component Model, Explainer.md,
/// "Type Definitions": `resourcetype`).
pub fn destructor_type() -> CoreFuncType
    ensures { result ≡ destructor_type }
{
    of_word(None)
}

/// The type of a built-in of a resource (Component Model, CanonicalABI.md, `canon resource.new` and its fellows).
pub(crate) fn resource_type(op: ResourceOp) -> CoreFuncType
    ensures { result ≡ graph.resource_type op }
{
    match op {
        ResourceOp::New => of_word(Some(ValType::I32)),
        ResourceOp::Drop => of_word(None),
        ResourceOp::Rep => of_word(Some(ValType::I32)),
    }
}

/// The type of a built-in that names nothing (Component Model, CanonicalABI.md, `canon task.cancel` and its fellows).
pub(crate) fn plain_type(builtin: PlainBuiltin) -> CoreFuncType
    ensures { result ≡ graph.plain_type builtin }
{
    match builtin {
        PlainBuiltin::TaskCancel | PlainBuiltin::BackpressureInc | PlainBuiltin::BackpressureDec =>
            of_nothing(None),
        PlainBuiltin::BackpressureSet | PlainBuiltin::SubtaskDrop | PlainBuiltin::WaitableSetDrop =>
            of_word(None),
        PlainBuiltin::SubtaskCancel { is_async: _ } => of_word(Some(ValType::I32)),
        PlainBuiltin::Yield { cancellable: _ } => of_nothing(Some(ValType::I32)),
        PlainBuiltin::WaitableSetNew => of_nothing(Some(ValType::I32)),
        PlainBuiltin::WaitableJoin => of_two_words(None),
    }
}

/// The type of a built-in of a word of the task (Component Model, CanonicalABI.md, `canon context.get` and `canon context.set`).
pub(crate) fn context_type(op: ContextOp) -> CoreFuncType
    ensures { result ≡ graph.context_type op }
{
    match op {
        ContextOp::Get => of_nothing(Some(ValType::I32)),
        ContextOp::Set => of_word(None),
    }
}

/// The type of a built-in that asks for an event of a set (Component Model, CanonicalABI.md, `canon waitable-set.wait` and `canon
/// waitable-set.poll`).
pub(crate) fn wait_type() -> CoreFuncType
    ensures { result ≡ taking 2 word }
{
    of_two_words(Some(ValType::I32))
}

/// The type of a core function of three i32.
fn of_three_words(returned: Option<ValType>) -> CoreFuncType
    ensures { result ≡ taking 3 (option_to_list returned) }
{
    let mut params = FewTypes::new();
    params.push(ValType::I32);
    params.push(ValType::I32);
    params.push(ValType::I32);
    CoreFuncType::new(params, returned)
}

/// The type of the core function that is called with each event of a task (Component Model, CanonicalABI.md, `canon lift`).
pub fn callback_type() -> CoreFuncType
    ensures { result ≡ callback_type }
{
    of_three_words(Some(ValType::I32))
}

/// The type of a read or a write: of an index and a place, and of a stream of a number of elements too.
fn copy_type(kind: EndKind) -> CoreFuncType
    ensures { result ≡ graph.copy_type kind }
{
    match kind {
        EndKind::Stream => of_three_words(Some(ValType::I32)),
        EndKind::Future => of_two_words(Some(ValType::I32)),
    }
}

/// The type of a built-in of the ends of streams or futures (Component Model, CanonicalABI.md, `canon stream.new` and its fellows).
pub(crate) fn end_type(kind: EndKind, op: &EndOp) -> CoreFuncType
    ensures { result ≡ graph.end_type kind op.now }
{
    match op {
        EndOp::New => of_nothing(Some(ValType::I64)),
        EndOp::Copy { .. } => copy_type(kind),
        EndOp::Cancel { .. } => of_word(Some(ValType::I32)),
        EndOp::Drop { .. } => of_word(None),
    }
}

/// The types of the core values in which a result is passed: of more than 16 it is one place in memory.
fn return_params(result_type: &Option<LaidType<'_>>) -> FewTypes
    ensures { result ≡ map core_val (at_most 16 (flat_payload result_type.now)) }
{
    match result_type {
        Some(val_type) => passed(val_type.flat(), PARAM_LIMIT),
        None => FewTypes::new(),
    }
}

/// The type of a built-in that returns a result of a type (Component Model, CanonicalABI.md, `canon task.return`).
pub(crate) fn return_type(result_type: &Option<LaidType<'_>>) -> CoreFuncType
    ensures { result ≡ task_return_type result_type.now }
{
    CoreFuncType::new(return_params(result_type), None)
}
