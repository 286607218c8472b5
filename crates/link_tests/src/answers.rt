//! What becomes of components, as text.
//!
//! A component, its graph and its fault are each lent to the function that tells of them as the last step, so that they are let
//! go in one place.

ghost use Rattle.std.specs.Prelude.{◌<◌, length};

use builtin_kinds::{ContextOp, EndKind, EndSide, PlainBuiltin, ResourceOp, WaitOp};
use ca_base::{ReadError, Refusal};
use comp_graph::{
    Action, Builtin, BuiltinKind, CanonFunc, CoreExtern, CoreMake, CoreRef, EndOp, FuncRef, Graph,
    Lift, Lower, Options, Resource,
};
use comp_link::{LinkFault, LinkWhy, link};
use comp_reader::{Component, ComponentWhy, read_component};
use faults::MemoryOr;
use std::alloc::{AllocError, Global};
use std::fmt::Write;
use std::test::Fail;
use syntax_trees::ValType;
use type_texts::type_told;

/// How many core instances are told by their number alone.
const MANY: usize = 256;

/// Writes which definition of which core instance it is.
fn write_ref(text: &mut String, core: CoreRef) -> Result<(), AllocError> {
    let CoreRef { instance, index } = core;
    write!(text, "{instance}.{index}")
}

/// Writes which core function it is.
fn write_func(text: &mut String, func: FuncRef) -> Result<(), AllocError> {
    match func {
        FuncRef::Instance(core) => write_ref(text, core),
        FuncRef::Canon(number) => write!(text, "canon {number}"),
    }
}

/// Writes an import that is a function.
fn write_func_import(text: &mut String, func: FuncRef) -> Result<(), AllocError> {
    text.push_str("func ")?;
    write_func(text, func)
}

/// Writes an import.
fn write_import(text: &mut String, import: CoreExtern) -> Result<(), AllocError> {
    let (word, core) = match import {
        CoreExtern::Func(func) => return write_func_import(text, func),
        CoreExtern::Table(core) => ("table ", core),
        CoreExtern::Memory(core) => ("memory ", core),
        CoreExtern::Global(core) => ("global ", core),
    };
    text.push_str(word)?;
    write_ref(text, core)
}

/// Writes a core instance with its imports, in a line.
fn write_core(text: &mut String, core: &CoreMake<'_>) -> Result<(), AllocError> {
    text.push_str("core")?;
    let mut front = " ";
    for import in core.imports() {
        text.push_str(front)?;
        write_import(text, *import)?;
        front = ", ";
    }
    text.push('\n')
}

/// Writes each core instance.
fn write_cores(text: &mut String, cores: &[CoreMake<'_>]) -> Result<(), AllocError> {
    for core in cores {
        write_core(text, core)?;
    }
    Ok(())
}

/// Writes what begins or is made.
fn write_action(text: &mut String, action: &Action) -> Result<(), AllocError> {
    let (word, number) = match action {
        Action::Begin(number) => ("begin", *number),
        Action::Make(number) => ("make", *number),
    };
    write!(text, " {word} {number}")
}

/// Writes what is made, in a line.
fn write_plan(text: &mut String, plan: &[Action]) -> Result<(), AllocError> {
    text.push_str("plan")?;
    for action in plan {
        write_action(text, action)?;
    }
    text.push('\n')
}

/// Writes the memory that is used, if there is one.
fn write_memory(text: &mut String, used: Option<CoreRef>) -> Result<(), AllocError> {
    match used {
        Some(core) => {
            text.push_str(" memory ")?;
            write_ref(text, core)
        }
        None => Ok(()),
    }
}

/// Writes a core function that is used behind what it is used as, if there is one.
fn write_used(text: &mut String, word: &str, used: Option<FuncRef>) -> Result<(), AllocError> {
    match used {
        Some(func) => {
            write!(text, " {word} ")?;
            write_func(text, func)
        }
        None => Ok(()),
    }
}

/// Writes a word behind a space, if it holds.
fn write_flag(text: &mut String, word: &str, holds: bool) -> Result<(), AllocError> {
    if holds {
        text.push(' ')?;
        return text.push_str(word);
    }
    Ok(())
}

/// Writes what a lift or a lower uses beside its function.
fn write_options(text: &mut String, options: Options) -> Result<(), AllocError> {
    write_memory(text, options.memory)?;
    write_used(text, "realloc", options.realloc)?;
    write_used(text, "post-return", options.post_return)?;
    write_used(text, "callback", options.callback)?;
    write_flag(text, "async", options.is_async)
}

/// Writes what a function lifts, to the end of the line.
fn write_lift(text: &mut String, lift: Lift) -> Result<(), AllocError> {
    let instance = lift.instance;
    write!(text, "{instance} ")?;
    write_func(text, lift.core)?;
    write_options(text, lift.options)?;
    text.push('\n')
}

/// Writes a function that is lowered, in a line.
fn write_lower(text: &mut String, lower: &Lower) -> Result<(), AllocError> {
    let instance = lower.instance;
    write!(text, "lower {instance}")?;
    write_options(text, lower.options)?;
    text.push_str(" of ")?;
    write_lift(text, lower.lift)
}

/// The name of a built-in that names nothing.
fn plain_name(builtin: PlainBuiltin) -> &'static str {
    match builtin {
        PlainBuiltin::TaskCancel => "task.cancel",
        PlainBuiltin::BackpressureSet => "backpressure.set",
        PlainBuiltin::BackpressureInc => "backpressure.inc",
        PlainBuiltin::BackpressureDec => "backpressure.dec",
        PlainBuiltin::SubtaskCancel { is_async: false } => "subtask.cancel",
        PlainBuiltin::SubtaskCancel { is_async: true } => "subtask.cancel async",
        PlainBuiltin::SubtaskDrop => "subtask.drop",
        PlainBuiltin::Yield { cancellable: false } => "yield",
        PlainBuiltin::Yield { cancellable: true } => "yield cancellable",
        PlainBuiltin::WaitableSetNew => "waitable-set.new",
        PlainBuiltin::WaitableSetDrop => "waitable-set.drop",
        PlainBuiltin::WaitableJoin => "waitable.join",
    }
}

/// Writes a built-in of a word of the task.
fn write_context(text: &mut String, op: ContextOp, slot: u32) -> Result<(), AllocError> {
    let word = match op {
        ContextOp::Get => "get",
        ContextOp::Set => "set",
    };
    write!(text, "context.{word} {slot}")
}

/// Writes a built-in that asks for an event of a set.
fn write_wait(
    text: &mut String,
    op: WaitOp,
    cancellable: bool,
    memory: CoreRef,
) -> Result<(), AllocError> {
    text.push_str(match op {
        WaitOp::Wait => "waitable-set.wait",
        WaitOp::Poll => "waitable-set.poll",
    })?;
    write_flag(text, "cancellable", cancellable)?;
    write_memory(text, Some(memory))
}

/// Writes a built-in of the resources of a number.
fn write_resource_op(text: &mut String, op: ResourceOp, resource: u32) -> Result<(), AllocError> {
    let word = match op {
        ResourceOp::New => "new",
        ResourceOp::Drop => "drop",
        ResourceOp::Rep => "rep",
    };
    write!(text, "resource.{word} R{resource}")
}

/// Writes a type of values, or `_` where there is none.
fn write_type(alloc: Global, text: &mut String, val_type: Option<&ValType>) -> Result<(), Fail> {
    match val_type {
        Some(val_type) => text.push_str(type_told(alloc, val_type)?.as_str())?,
        None => text.push('_')?,
    }
    Ok(())
}

/// The word of what ends belong to.
fn kind_word(kind: EndKind) -> &'static str {
    match kind {
        EndKind::Stream => "stream",
        EndKind::Future => "future",
    }
}

/// The word of what is done with an end.
fn op_word(op: &EndOp) -> &'static str {
    match op {
        EndOp::New => "new",
        EndOp::Copy {
            side: EndSide::Readable,
            ..
        } => "read",
        EndOp::Copy {
            side: EndSide::Writable,
            ..
        } => "write",
        EndOp::Cancel {
            side: EndSide::Readable,
            ..
        } => "cancel-read",
        EndOp::Cancel {
            side: EndSide::Writable,
            ..
        } => "cancel-write",
        EndOp::Drop {
            side: EndSide::Readable,
        } => "drop-readable",
        EndOp::Drop {
            side: EndSide::Writable,
        } => "drop-writable",
    }
}

/// Writes what is done with an end uses.
fn write_op(text: &mut String, op: &EndOp) -> Result<(), AllocError> {
    match op {
        EndOp::Copy { side: _, options } => write_options(text, *options.get()),
        EndOp::Cancel { side: _, is_async } => write_flag(text, "async", *is_async),
        EndOp::New | EndOp::Drop { side: _ } => Ok(()),
    }
}

/// Writes the type of ends in which values of this type pass, if anything does.
fn write_ends(
    alloc: Global,
    text: &mut String,
    word: &str,
    passed: Option<&ValType>,
) -> Result<(), Fail> {
    text.push_str(word)?;
    if let Some(val_type) = passed {
        text.push('<')?;
        text.push_str(type_told(alloc, val_type)?.as_str())?;
        text.push('>')?;
    }
    Ok(())
}

/// Writes what a built-in of ends is.
fn write_end(
    alloc: Global,
    text: &mut String,
    kind: EndKind,
    op: &EndOp,
    passed: Option<&ValType>,
) -> Result<(), Fail> {
    let word = kind_word(kind);
    let done = op_word(op);
    write!(text, "{word}.{done} ")?;
    write_ends(alloc, text, word, passed)?;
    write_op(text, op)?;
    Ok(())
}

/// Writes what a built-in is that passes values of this type.
fn write_kind(
    alloc: Global,
    text: &mut String,
    kind: &BuiltinKind,
    passed: Option<&ValType>,
) -> Result<(), Fail> {
    match kind {
        BuiltinKind::Plain(builtin) => text.push_str(plain_name(*builtin))?,
        BuiltinKind::Context { op, slot } => write_context(text, *op, *slot)?,
        BuiltinKind::Wait {
            op,
            cancellable,
            memory,
        } => write_wait(text, *op, *cancellable, *memory)?,
        BuiltinKind::TaskReturn { result: _, options } => {
            text.push_str("task.return ")?;
            write_type(alloc, text, passed)?;
            write_options(text, *options.get())?
        }
        BuiltinKind::End {
            kind,
            element: _,
            op,
        } => write_end(alloc, text, *kind, op, passed)?,
        BuiltinKind::Resource { op, resource } => write_resource_op(text, *op, *resource)?,
    }
    Ok(())
}

/// Writes a built-in, in a line.
fn write_builtin(
    alloc: Global,
    text: &mut String,
    builtin: &Builtin,
    passed: Option<&ValType>,
) -> Result<(), Fail> {
    let instance = builtin.instance;
    write!(text, "builtin {instance} ")?;
    write_kind(alloc, text, &builtin.kind, passed)?;
    text.push('\n')?;
    Ok(())
}

/// Writes the core function of a number that the Canonical ABI makes, which is there.
fn write_canon(
    alloc: Global,
    text: &mut String,
    graph: &Graph<'_>,
    number: usize,
) -> Result<(), Fail>
    requires { number < length graph.now.canons }
{
    match &graph.canons()[number] {
        CanonFunc::Lower(lower) => write_lower(text, lower.get())?,
        CanonFunc::Builtin(builtin) => match graph.canon_value(number) {
            Some(passed) => write_builtin(alloc, text, builtin, Some(passed.val_type()))?,
            None => write_builtin(alloc, text, builtin, None)?,
        },
    }
    Ok(())
}

/// Writes each core function that the Canonical ABI makes.
fn write_canons(alloc: Global, text: &mut String, graph: &Graph<'_>) -> Result<(), Fail> {
    for number in 0..graph.canons().len() {
        write_canon(alloc, text, graph, number)?;
    }
    Ok(())
}

/// Writes a type of resources, in a line.
fn write_resource(text: &mut String, resource: Resource) -> Result<(), AllocError> {
    let instance = resource.instance;
    write!(text, "resource {instance}")?;
    write_used(text, "destructor", resource.destructor)?;
    text.push('\n')
}

/// Writes each type of resources.
fn write_resources(text: &mut String, resources: &[Resource]) -> Result<(), AllocError> {
    for resource in resources {
        write_resource(text, *resource)?;
    }
    Ok(())
}

/// Writes an export, in a line.
fn write_export(text: &mut String, name: &str, lift: Lift) -> Result<(), AllocError> {
    write!(text, "export {name} ")?;
    write_lift(text, lift)
}

/// Writes each export.
fn write_exports(text: &mut String, graph: &Graph<'_>) -> Result<(), AllocError> {
    let exports = graph.exports();
    for number in 0..exports.len() {
        let name = exports.as_slice()[number].name.as_str();
        write_export(text, name, graph.lift(number))?;
    }
    Ok(())
}

/// Writes a graph, or how many core instances it has where there are many.
fn write_graph(alloc: Global, text: &mut String, graph: &Graph<'_>) -> Result<(), Fail> {
    let cores = graph.cores();
    if cores.len() == MANY {
        text.push_str("256 core instances")?;
        return Ok(());
    }
    write_plan(text, graph.plan())?;
    write_cores(text, cores)?;
    write_canons(alloc, text, graph)?;
    write_resources(text, graph.resources())?;
    write_exports(text, graph)?;
    Ok(())
}

/// The text of a graph.
fn graph_shown(alloc: Global, graph: &Graph<'_>) -> Result<String, Fail> {
    let mut text = String::new(alloc);
    write_graph(alloc, &mut text, graph)?;
    Ok(text)
}

/// The text of a graph that is let go then.
fn graph_text(alloc: Global, graph: Graph<'_>) -> Result<String, Fail> {
    graph_shown(alloc, &graph)
}

/// Why an item is refused, and where.
fn fault_shown(alloc: Global, fault: &LinkFault) -> Result<String, AllocError> {
    let place = fault.place;
    match &fault.why {
        LinkWhy::Missing(name) => {
            let name = name.as_str();
            format!(in alloc; "{place} Missing({name})")
        }
        why => format!(in alloc; "{place} {why:?}"),
    }
}

/// The same of a fault that is let go then.
fn fault_text(alloc: Global, fault: LinkFault) -> Result<String, AllocError> {
    fault_shown(alloc, &fault)
}

/// The graph of a component, or its fault.
pub(crate) fn graph_of(
    alloc: Global,
    component: &Component,
) -> Result<Graph<'_>, MemoryOr<LinkFault>> {
    link(alloc, component)
}

/// The text of what a component is linked to, or of its fault.
fn linked(alloc: Global, component: &Component) -> Result<String, Fail> {
    match graph_of(alloc, component) {
        Ok(graph) => Ok(graph_text(alloc, graph)?),
        Err(MemoryOr::Memory) => Err(Fail::new("memory")),
        Err(MemoryOr::Fault(fault)) => Ok(fault_text(alloc, fault)?),
    }
}

/// The same of a component that is let go then.
fn told(alloc: Global, component: Component) -> Result<String, Fail> {
    linked(alloc, &component)
}

/// The component of bytes, or its refusal.
pub(crate) fn component_of(
    alloc: Global,
    bytes: &[u8],
) -> Result<Component, ReadError<ComponentWhy>> {
    read_component(alloc, bytes)
}

/// The place and the reason of a refusal.
fn refusal_text(alloc: Global, refusal: Refusal<ComponentWhy>) -> Result<String, AllocError> {
    let Refusal { place, why } = refusal;
    format!(in alloc; "not read at {place}: {why:?}")
}

/// What becomes of bytes.
pub fn answer_of(alloc: Global, bytes: &[u8]) -> Result<String, Fail> {
    match component_of(alloc, bytes) {
        Ok(component) => told(alloc, component),
        Err(ReadError::Memory) => Err(Fail::new("memory")),
        Err(ReadError::Fault(refusal)) => Ok(refusal_text(alloc, refusal)?),
    }
}
