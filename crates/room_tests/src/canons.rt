//! The canonical functions that a realloc may call.

use builtin_kinds::{ContextOp, PlainBuiltin, ResourceOp};
use comp_graph::{Builtin, BuiltinKind, CanonFunc, FuncRef, Lift, Lower, Options};
use std::alloc::Global;
use std::test::Fail;
use syntax_trees::{Boxed, Shared};
use type_texts::func_of;

/// Options that name nothing.
const NO_OPTIONS: Options = Options {
    memory: None,
    realloc: None,
    post_return: None,
    callback: None,
    is_async: false,
};

/// The function of four numbers to one, lowered.
fn lowered(alloc: Global) -> Result<CanonFunc, Fail> {
    let func_type = Shared::new(alloc, func_of(alloc, "u32 u32 u32 u32", "u32")?)?;
    let lift = Lift {
        instance: 2,
        core: FuncRef::Canon(0),
        options: NO_OPTIONS,
    };
    let lower = Lower {
        instance: 1,
        lift,
        func_type,
        options: NO_OPTIONS,
    };
    Ok(CanonFunc::Lower(Boxed::new(alloc, lower)?))
}

/// What the built-in of a number is.
fn kind_of(number: u32) -> BuiltinKind {
    match number {
        1 => BuiltinKind::Context {
            op: ContextOp::Set,
            slot: 0,
        },
        2 => BuiltinKind::Context {
            op: ContextOp::Get,
            slot: 1,
        },
        3 => BuiltinKind::Context {
            op: ContextOp::Set,
            slot: 1,
        },
        4 => BuiltinKind::Resource {
            op: ResourceOp::Rep,
            resource: 1,
        },
        5 => BuiltinKind::Resource {
            op: ResourceOp::Drop,
            resource: 1,
        },
        6 => BuiltinKind::Plain(PlainBuiltin::Yield { cancellable: false }),
        _ => BuiltinKind::Context {
            op: ContextOp::Get,
            slot: 0,
        },
    }
}

/// The canonical function of a number.
fn canon_of(alloc: Global, number: u32) -> Result<CanonFunc, Fail> {
    if number == 9 {
        return lowered(alloc);
    }
    let instance = if number == 7 { 2 } else { 1 };
    let kind = kind_of(number);
    Ok(CanonFunc::Builtin(Builtin { instance, kind }))
}

/// The canonical functions 0 to 9. All are of the component instance 1, but for 7, which is as 0 of instance 2; 8 is as 0 too, and the
/// store's function has another type. The function 10 of the store is none.
pub(crate) fn canons(alloc: Global) -> Result<Vec<CanonFunc>, Fail> {
    let mut canons = Vec::new(alloc);
    for number in 0..10 {
        canons.push(canon_of(alloc, number)?)?;
    }
    Ok(canons)
}
