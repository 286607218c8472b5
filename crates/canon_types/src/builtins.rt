//! Built-ins, with the types of their core functions, and what one comes to as it is written.

ghost use Rattle.std.specs.Prelude.{◌≡◌, true, false, List, None, Some, IfOk, IfSome};
ghost use Rattle.std.specs.Option.{option_map, option_map_or};
ghost use Rattle.syntax_trees.specs.declared.types.ValType.{ValType};
ghost use Rattle.comp_graph.specs.Graph.{builtin_type};
ghost use Rattle.comp_graph.specs.declared.graph.BuiltinKind.TheVariants as builtin;
ghost use Rattle.link_spec.specs.Builtins.{of_kind, context_meaning, wait_meaning, resource_meaning};
ghost use Rattle.link_spec.specs.Resources.{resource_numbered, resource_serves};
ghost use Rattle.canon_types.specs.declared.builtins.Built.{Built};
ghost use Rattle.canon_types.specs.Built.{IsBuilt, IsBuiltinMeaning};

use crate::builtin_types::{
    context_type, end_type, plain_type, resource_type, return_type, wait_type,
};
use builtin_kinds::{ContextOp, EndKind, PlainBuiltin, ResourceOp, WaitOp};
use comp_graph::{BuiltinKind, CoreRef, EndOp, Options, Resource, graph_number};
use laid_types::LaidType;
use link_core_types::CoreFuncType;
use std::alloc::{AllocError, Global};
use syntax_trees::{Boxed, Shared, ValType};

/// How many words a task has.
const WORDS: u32 = 2;

/// A built-in, with the type of its core function.
#[derive(Drop)]
pub struct Built {
    /// What it is.
    pub kind: BuiltinKind,
    /// The type of its core function.
    pub core_type: CoreFuncType,
    /// The number, among types of values, of the type of its result, or of the ends that it is of, if it has one.
    pub passed: Option<u32>,
}

/// What a built-in comes to as it is written (Component Model, Explainer.md, "Canonical Built-ins").
#[derive(Drop)]
pub struct BuiltinMeant {
    /// Whether all indices that it names are there.
    pub is_there: bool,
    /// What it is, where its types are such as it asks for.
    pub means: Option<Built>,
    /// Whether its options, its word of the task, or its resource serve it.
    pub serves: bool,
}

/// One whose type is none such as it asks for, where its indices are there or not.
pub fn no_builtin(is_there: bool) -> BuiltinMeant
    ensures { (values : List ValType) → IsBuiltinMeaning values result (record { is_there = is_there; means = None; serves = true }) }
{
    BuiltinMeant {
        is_there,
        means: None,
        serves: true,
    }
}

/// A built-in that names nothing (Component Model, CanonicalABI.md, `canon task.cancel` and its fellows).
pub fn plain_builtin(named: PlainBuiltin) -> BuiltinMeant
    ensures { (values : List ValType) → IsBuiltinMeaning values result (of_kind (builtin.Plain named)) }
{
    BuiltinMeant {
        is_there: true,
        means: Some(Built {
            kind: BuiltinKind::Plain(named),
            core_type: plain_type(named),
            passed: None,
        }),
        serves: true,
    }
}

/// A built-in of a word of the task. A task has two (Component Model, CanonicalABI.md, `canon context.get` and `canon context.set`).
pub fn context_builtin(op: ContextOp, slot: u32) -> BuiltinMeant
    ensures { (values : List ValType) → IsBuiltinMeaning values result (context_meaning op slot) }
{
    BuiltinMeant {
        is_there: true,
        means: Some(Built {
            kind: BuiltinKind::Context { op, slot },
            core_type: context_type(op),
            passed: None,
        }),
        serves: slot < WORDS,
    }
}

/// The resource of a number, counted from 1.
#[tactic(auto, using(crate::proofs::Numbered::none_numbered, crate::proofs::Numbered::one_numbered))]
fn resource_numbered(resources: &[Resource], number: usize) -> Option<Resource>
    ensures { result ≡ resource_numbered resources.now number }
{
    if number == 0 {
        return None;
    }
    resources.get(number - 1).copied()
}

/// Whether a resource serves a built-in of the component instance of a number: the one that defines it makes handles of it and tells what
/// they represent, and each one drops them.
fn resource_serves(n: usize, op: ResourceOp, resource: Resource) -> bool
    ensures { result ≡ resource_serves n op resource }
{
    match op {
        ResourceOp::New => resource.instance as usize == n,
        ResourceOp::Drop => true,
        ResourceOp::Rep => resource.instance as usize == n,
    }
}

/// The same of the resource of a number, if it is there.
fn number_serves(resources: &[Resource], n: usize, op: ResourceOp, number: usize) -> bool
    ensures { result ≡ option_map_or (resource_serves n op) (resource_numbered resources.now number) false }
{
    match resource_numbered(resources, number) {
        Some(resource) => resource_serves(n, op, resource),
        None => false,
    }
}

/// A built-in of the component instance of a number, of the resource of a number, where its type is one of resources (Component Model,
/// CanonicalABI.md, `canon resource.new` and its fellows). It fails for want of memory alone.
pub fn resource_builtin(
    resources: &[Resource],
    n: usize,
    is_there: bool,
    op: ResourceOp,
    number: Option<usize>,
) -> Result<BuiltinMeant, AllocError>
    ensures { IfOk result (λ m. (values : List ValType) → IsBuiltinMeaning values m (resource_meaning resources.now n is_there op number)) }
{
    let Some(number) = number else {
        return Ok(no_builtin(is_there));
    };
    let serves = number_serves(resources, n, op, number);
    let resource = graph_number(number)?;
    Ok(BuiltinMeant {
        is_there,
        means: Some(Built {
            kind: BuiltinKind::Resource { op, resource },
            core_type: resource_type(op),
            passed: None,
        }),
        serves,
    })
}

/// A built-in that asks for an event of a set, which goes into this memory.
fn waiting(op: WaitOp, cancellable: bool, memory: CoreRef) -> Built
    ensures kind { result.kind ≡ builtin.Wait op cancellable memory }
    ensures built { (values : List ValType) → IsBuilt values result }
{
    Built {
        kind: BuiltinKind::Wait {
            op,
            cancellable,
            memory,
        },
        core_type: wait_type(),
        passed: None,
    }
}

/// The same, where there is a memory.
fn waiting_in(op: WaitOp, cancellable: bool, memory: Option<CoreRef>) -> Option<Built>
    ensures kind { option_map (λ (b : Built). b.kind) result ≡ option_map (λ m. builtin.Wait op cancellable m) memory }
    ensures built { (values : List ValType) → IfSome result (IsBuilt values) }
{
    match memory {
        Some(memory) => Some(waiting(op, cancellable, memory)),
        None => None,
    }
}

/// A built-in that asks for an event of a set, which goes into a memory, if that is there (Component Model, CanonicalABI.md, `canon
/// waitable-set.wait` and `canon waitable-set.poll`).
pub fn wait_builtin(
    op: WaitOp,
    cancellable: bool,
    is_there: bool,
    memory: Option<CoreRef>,
) -> BuiltinMeant
    ensures { (values : List ValType) → IsBuiltinMeaning values result (wait_meaning is_there op cancellable memory) }
{
    BuiltinMeant {
        is_there,
        means: waiting_in(op, cancellable, memory),
        serves: true,
    }
}

/// A type as a tree that is shared, if there is one. It fails only where there are as many owners as can be counted.
fn shared_type(val_type: &Option<LaidType<'_>>) -> Result<Option<Shared<ValType>>, AllocError>
    ensures { IfOk result (λ t. t ≡ val_type.now) }
{
    match val_type {
        Some(val_type) => Ok(Some(val_type.share()?)),
        None => Ok(None),
    }
}

/// The number, as graphs have it, if there is one.
fn held_number(number: Option<usize>) -> Result<Option<u32>, AllocError>
    ensures { IfOk result (λ n. n ≡ number) }
{
    match number {
        Some(number) => Ok(Some(graph_number(number)?)),
        None => Ok(None),
    }
}

/// A built-in that returns a result of a type, which has this number, with these options (Component Model, CanonicalABI.md, `canon
/// task.return`). It fails for want of memory alone.
pub fn return_builtin(
    alloc: Global,
    number: Option<usize>,
    result_type: &Option<LaidType<'_>>,
    options: Options,
) -> Result<Built, AllocError>
    ensures kind { IfOk result (λ b. b.kind ≡ builtin.TaskReturn result_type.now options) }
    ensures typed { IfOk result (λ b. b.core_type ≡ builtin_type b.kind) }
    ensures passed { IfOk result (λ b. b.passed ≡ number) }
{
    let core_type = return_type(result_type);
    let passed = held_number(number)?;
    let shared = shared_type(result_type)?;
    let options = Boxed::new(alloc, options)?;
    Ok(Built {
        kind: BuiltinKind::TaskReturn {
            result: shared,
            options,
        },
        core_type,
        passed,
    })
}

/// A built-in of the ends of the streams or futures of a type, which has this number and in which these elements pass (Component Model,
/// CanonicalABI.md, `canon stream.new` and its fellows). It fails for want of memory alone.
pub fn end_builtin(
    number: usize,
    kind: EndKind,
    element: &Option<LaidType<'_>>,
    op: EndOp,
) -> Result<Built, AllocError>
    ensures kind { IfOk result (λ b. b.kind ≡ builtin.End kind element.now op) }
    ensures typed { IfOk result (λ b. b.core_type ≡ builtin_type b.kind) }
    ensures passed { IfOk result (λ b. b.passed ≡ Some number) }
{
    let core_type = end_type(kind, &op);
    let passed = graph_number(number)?;
    let shared = shared_type(element)?;
    Ok(Built {
        kind: BuiltinKind::End {
            kind,
            element: shared,
            op,
        },
        core_type,
        passed: Some(passed),
    })
}
