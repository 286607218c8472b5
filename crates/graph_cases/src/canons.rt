//! The canonical functions of the cases, by their names.
//!
//! A name is that of a built-in, or `lower`, and then by slashes what it is of and how it is made: `yield/c` and `waitable-set.wait/c` have
//! the flag, `subtask.cancel/async` does not wait; `context.get/1` is of the second word, `resource.drop/2` of resource 2, `lower/3/sync`
//! of the function of the third instance that is lifted so, and `stream.read/u8/async` of the type of bytes.

ghost use Rattle.std.specs.Prelude.{◌≡◌, Some, None, IfOk};
ghost use Rattle.std.specs.List.{slice_get};
ghost use Rattle.comp_graph.specs.Graph.{numbered_value};
ghost use Rattle.comp_graph.specs.Passed.{HasCanonType};

use crate::tabling::{EndNumbers, Numbers};
use builtin_kinds::{ContextOp, EndKind, EndSide, PlainBuiltin, ResourceOp, WaitOp};
use comp_graph::{
    Builtin, BuiltinKind, CanonFunc, CoreRef, EndOp, FuncRef, FuncTypes, Lift, Lower, Options,
};
use laid_types::LaidType;
use std::alloc::{AllocError, Global};
use std::test::Fail;
use syntax_trees::{Boxed, Shared, ValType};

/// A canonical function, with the number of the type by which it is known what it passes.
#[derive(Drop)]
pub(crate) struct Canon {
    /// The canonical function.
    pub func: CanonFunc,
    /// The number.
    pub number: Option<u32>,
}

/// What a name says.
#[derive(Clone, Copy)]
struct Words<'w> {
    /// The name of the built-in.
    name: &'w str,
    /// What it is of.
    of: &'w str,
    /// How it is made.
    how: &'w str,
}

/// What a name says.
fn words_of(text: &str) -> Words<'_> {
    let (name, rest) = text.split_once('/').unwrap_or((text, ""));
    let (of, how) = rest.split_once('/').unwrap_or((rest, ""));
    Words { name, of, how }
}

/// The built-in of a name that names nothing.
fn plain_named(words: Words<'_>) -> Option<PlainBuiltin> {
    match words.name {
        "task.cancel" => Some(PlainBuiltin::TaskCancel),
        "backpressure.set" => Some(PlainBuiltin::BackpressureSet),
        "backpressure.inc" => Some(PlainBuiltin::BackpressureInc),
        "backpressure.dec" => Some(PlainBuiltin::BackpressureDec),
        "subtask.cancel" => Some(PlainBuiltin::SubtaskCancel {
            is_async: words.of == "async",
        }),
        "subtask.drop" => Some(PlainBuiltin::SubtaskDrop),
        "yield" => Some(PlainBuiltin::Yield {
            cancellable: words.of == "c",
        }),
        "waitable-set.new" => Some(PlainBuiltin::WaitableSetNew),
        "waitable-set.drop" => Some(PlainBuiltin::WaitableSetDrop),
        "waitable.join" => Some(PlainBuiltin::WaitableJoin),
        _ => None,
    }
}

/// What a built-in of a name does with handles.
fn resource_named(name: &str) -> Option<ResourceOp> {
    match name {
        "resource.new" => Some(ResourceOp::New),
        "resource.drop" => Some(ResourceOp::Drop),
        "resource.rep" => Some(ResourceOp::Rep),
        _ => None,
    }
}

/// What a built-in of a name does with a word of the task.
fn context_named(name: &str) -> Option<ContextOp> {
    match name {
        "context.get" => Some(ContextOp::Get),
        "context.set" => Some(ContextOp::Set),
        _ => None,
    }
}

/// How a built-in of a name asks for an event.
fn wait_named(name: &str) -> Option<WaitOp> {
    match name {
        "waitable-set.wait" => Some(WaitOp::Wait),
        "waitable-set.poll" => Some(WaitOp::Poll),
        _ => None,
    }
}

/// The memory of the core instance of a number.
fn memory_of(instance: u32) -> CoreRef {
    CoreRef { instance, index: 0 }
}

/// The function of an index of the core instance of a number.
pub(crate) fn core_func(instance: u32, index: u32) -> FuncRef {
    FuncRef::Instance(CoreRef { instance, index })
}

/// What a built-in or a lower uses: the memory of its instance.
fn options(instance: u32, is_async: bool) -> Options {
    Options {
        memory: Some(memory_of(instance)),
        realloc: None,
        post_return: None,
        callback: None,
        is_async,
    }
}

/// A function of a component instance that is lifted so: function 0 of its core instance, and function 1 as the callback. One that is lifted
/// `bare` is stackful, and uses no memory.
pub(crate) fn lift_named(instance: u32, how: &str) -> Lift {
    let used = options(instance, how != "sync");
    let options = match how {
        "callback" => Options {
            callback: Some(core_func(instance, 1)),
            ..used
        },
        "bare" => Options {
            memory: None,
            ..used
        },
        _ => used,
    };
    Lift {
        instance,
        core: core_func(instance, 0),
        options,
    }
}

/// A built-in that passes no type.
#[tactic(auto, using(crate::proofs::Known::unnumbered))]
fn untyped(types: &FuncTypes, instance: u32, kind: BuiltinKind) -> Canon
    requires { numbered_value kind ≡ None }
    ensures { HasCanonType types.now result.number result.func }
{
    let _ = types;
    Canon {
        func: CanonFunc::Builtin(Builtin { instance, kind }),
        number: None,
    }
}

/// A built-in that passes the type of a number.
#[tactic(auto, using(crate::proofs::Known::numbered))]
fn typed(
    types: &FuncTypes,
    instance: u32,
    kind: BuiltinKind,
    number: u32,
    passed: &LaidType<'_>,
) -> Canon
    requires kind { numbered_value kind ≡ Some passed.now }
    requires there { slice_get types.now.values number ≡ Some passed.now }
    ensures { HasCanonType types.now result.number result.func }
{
    Canon {
        func: CanonFunc::Builtin(Builtin { instance, kind }),
        number: Some(number),
    }
}

/// The same type, where there is one.
fn shared(element: &Option<Shared<ValType>>) -> Result<Option<Shared<ValType>>, AllocError>
    ensures { IfOk result (λ same. same ≡ element.now) }
{
    match element {
        Some(element) => Ok(Some(element.share()?)),
        None => Ok(None),
    }
}

/// The built-in of the ends of a type that does this.
fn end_kind(ends: &LaidType<'_>, op: EndOp) -> Result<BuiltinKind, Fail>
    ensures { IfOk result (λ kind. numbered_value kind ≡ Some ends.now) }
{
    match ends.val_type() {
        ValType::Stream(element) => Ok(BuiltinKind::End {
            kind: EndKind::Stream,
            element: shared(element)?,
            op,
        }),
        ValType::Future(element) => Ok(BuiltinKind::End {
            kind: EndKind::Future,
            element: shared(element)?,
            op,
        }),
        _ => Err(Fail::new("no ends")),
    }
}

/// A read or write.
fn copy(alloc: Global, instance: u32, side: EndSide, is_async: bool) -> Result<EndOp, AllocError> {
    let options = Boxed::new(alloc, options(instance, is_async))?;
    Ok(EndOp::Copy { side, options })
}

/// What a built-in of a name does with ends.
fn end_op(alloc: Global, instance: u32, name: &str, is_async: bool) -> Result<EndOp, Fail> {
    match name {
        "new" => Ok(EndOp::New),
        "read" => Ok(copy(alloc, instance, EndSide::Readable, is_async)?),
        "write" => Ok(copy(alloc, instance, EndSide::Writable, is_async)?),
        "cancel-read" => Ok(EndOp::Cancel {
            side: EndSide::Readable,
            is_async,
        }),
        "cancel-write" => Ok(EndOp::Cancel {
            side: EndSide::Writable,
            is_async,
        }),
        "drop-readable" => Ok(EndOp::Drop {
            side: EndSide::Readable,
        }),
        "drop-writable" => Ok(EndOp::Drop {
            side: EndSide::Writable,
        }),
        _ => Err(Fail::new("no built-in")),
    }
}

/// The number of the type of ends of an element.
fn number_of(numbers: EndNumbers, element: &str) -> u32 {
    match element {
        "units" => numbers.units,
        "u8" => numbers.bytes,
        "u32" => numbers.words,
        _ => numbers.texts,
    }
}

/// The number of the type of streams or futures of an element.
fn end_number(numbers: &Numbers, kind: &str, element: &str) -> u32 {
    match kind {
        "stream" => number_of(numbers.streams, element),
        _ => number_of(numbers.futures, element),
    }
}

/// A built-in of ends.
fn end_named(
    alloc: Global,
    types: &FuncTypes,
    numbers: &Numbers,
    instance: u32,
    words: Words<'_>,
) -> Result<Canon, Fail>
    ensures { IfOk result (λ canon. HasCanonType types.now canon.number canon.func) }
{
    let (kind, name) = words.name.split_once('.').ok_or("no built-in")?;
    let number = end_number(numbers, kind, words.of);
    let op = end_op(alloc, instance, name, words.how == "async")?;
    let Some(ends) = types.value(Some(number)) else {
        return Err(Fail::new("no type"));
    };
    let kind = end_kind(&ends, op)?;
    Ok(typed(types, instance, kind, number, &ends))
}

/// `task.return` of the type of a number.
fn return_of(alloc: Global, types: &FuncTypes, instance: u32, number: u32) -> Result<Canon, Fail>
    ensures { IfOk result (λ canon. HasCanonType types.now canon.number canon.func) }
{
    let Some(passed) = types.value(Some(number)) else {
        return Err(Fail::new("no type"));
    };
    let kind = BuiltinKind::TaskReturn {
        result: Some(passed.share()?),
        options: Boxed::new(alloc, options(instance, false))?,
    };
    Ok(typed(types, instance, kind, number, &passed))
}

/// `task.return` of no result.
fn return_none(alloc: Global, instance: u32) -> Result<BuiltinKind, AllocError>
    ensures { IfOk result (λ kind. numbered_value kind ≡ None) }
{
    let options = Boxed::new(alloc, options(instance, false))?;
    Ok(BuiltinKind::TaskReturn {
        result: None,
        options,
    })
}

/// `task.return` of a result of a type, or of none.
fn return_named(
    alloc: Global,
    types: &FuncTypes,
    numbers: &Numbers,
    instance: u32,
    of: &str,
) -> Result<Canon, Fail>
    ensures { IfOk result (λ canon. HasCanonType types.now canon.number canon.func) }
{
    match of {
        "u32" => return_of(alloc, types, instance, numbers.word),
        _ => {
            let kind = return_none(alloc, instance)?;
            Ok(untyped(types, instance, kind))
        }
    }
}

/// A lower of a function of no parameter and no result.
fn lower(
    alloc: Global,
    types: &FuncTypes,
    instance: u32,
    lift: Lift,
    is_async: bool,
) -> Result<Canon, Fail>
    ensures { IfOk result (λ canon. HasCanonType types.now canon.number canon.func) }
{
    if types.len() == 0 {
        return Err(Fail::new("no function type"));
    }
    let func_type = types.func(0).func_type.share()?;
    let lower = Lower {
        instance,
        lift,
        func_type,
        options: options(instance, is_async),
    };
    Ok(Canon {
        func: CanonFunc::Lower(Boxed::new(alloc, lower)?),
        number: Some(0),
    })
}

/// A lower of the function of an instance, counted from 1, that is lifted in a way; with `-async` behind the way it does not wait.
fn lower_named(
    alloc: Global,
    types: &FuncTypes,
    instance: u32,
    words: Words<'_>,
) -> Result<Canon, Fail>
    ensures { IfOk result (λ canon. HasCanonType types.now canon.number canon.func) }
{
    let callee = words.of.parse::<u32>()?;
    let callee = callee.checked_sub(1).ok_or("no instance")?;
    let (how, waits) = words.how.split_once('-').unwrap_or((words.how, ""));
    lower(
        alloc,
        types,
        instance,
        lift_named(callee, how),
        waits == "async",
    )
}

/// The canonical function of a name that a component instance makes.
pub(crate) fn canon_named(
    alloc: Global,
    types: &FuncTypes,
    numbers: &Numbers,
    instance: u32,
    name: &str,
) -> Result<Canon, Fail>
    ensures { IfOk result (λ canon. HasCanonType types.now canon.number canon.func) }
{
    let words = words_of(name);
    if let Some(op) = plain_named(words) {
        return Ok(untyped(types, instance, BuiltinKind::Plain(op)));
    }
    if let Some(op) = resource_named(words.name) {
        let resource = words.of.parse::<u32>()?;
        return Ok(untyped(types, instance, BuiltinKind::Resource { op, resource }));
    }
    if let Some(op) = context_named(words.name) {
        let slot = words.of.parse::<u32>()?;
        return Ok(untyped(types, instance, BuiltinKind::Context { op, slot }));
    }
    if let Some(op) = wait_named(words.name) {
        let kind = BuiltinKind::Wait {
            op,
            cancellable: words.of == "c",
            memory: memory_of(instance),
        };
        return Ok(untyped(types, instance, kind));
    }
    match words.name {
        "task.return" => return_named(alloc, types, numbers, instance, words.of),
        "lower" => lower_named(alloc, types, instance, words),
        _ => end_named(alloc, types, numbers, instance, words),
    }
}
