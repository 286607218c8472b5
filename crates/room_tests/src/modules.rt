//! A store with two instances of the module in which a realloc stands.

use cases::bytes_of;
use module_reading::valid_of;
use std::alloc::Global;
use std::test::Fail;
use syntax_trees::Seq;
use syntax_trees::module_types::{FuncType, ValType};
use wasm_code::External;
use wasm_store::Store;
use wasm_typing::Valid;

/// The preamble of a core module, and the sections before its code: the types (i32, i32, i32, i32) -> i32 and (i32) -> (), a function of
/// the host of each, of the second one first, one function of the first type, and a memory of a page.
const FRONT: &str =
    "0061736d01000000 010d0260047f7f7f7f017f60017f00 020d02016d01680001016d01720000 03020100 0503010001";

/// The same with eleven functions of the host, of the types () -> i32, (i32) -> (), () -> i32, (i32) -> (), (i32) -> i32, (i32) -> (),
/// () -> i32, () -> i32, () -> (), (i32, i32, i32, i32) -> i32 and () -> ().
const HOSTED_FRONT: &str = "0061736d01000000 \
    0119 05 60047f7f7f7f017f 6000017f 60017f00 60017f017f 600000 \
    0243 0b 016d01610001 016d01620002 016d01630001 016d01640002 016d01650003 016d01660002 \
    016d01670001 016d01680001 016d01690004 016d016a0000 016d016b0004 \
    03020100 0503010001";

/// How many parameters and results these functions of the host have.
const HOSTS: [(u32, u32); 11] = [
    (0, 1),
    (1, 0),
    (0, 1),
    (1, 0),
    (1, 1),
    (1, 0),
    (0, 1),
    (0, 1),
    (0, 0),
    (4, 1),
    (0, 0),
];

/// The module with this code section.
pub(crate) fn module_with(alloc: Global, code: &str) -> Result<Valid, Fail> {
    let mut bytes = bytes_of(alloc, FRONT)?;
    let code = bytes_of(alloc, code)?;
    bytes.extend_from_slice(&code)?;
    valid_of(alloc, &bytes)
}

/// The module with eleven functions of the host and this body of its own function, which is the twelfth and has no locals.
pub(crate) fn hosted_module(alloc: Global, body: &str) -> Result<Valid, Fail> {
    let body = bytes_of(alloc, body)?;
    if body.len() > 100 {
        return Err(Fail::new("a long body"));
    }
    let size = body.len() as u8;
    let mut bytes = bytes_of(alloc, HOSTED_FRONT)?;
    bytes.extend_from_slice(&[0x0a, size + 4, 0x01, size + 2, 0x00])?;
    bytes.extend_from_slice(&body)?;
    bytes.push(0x0b)?;
    valid_of(alloc, &bytes)
}

/// So many values i32.
fn numbers(alloc: Global, count: u32) -> Result<Seq<ValType>, Fail> {
    let mut types = Seq::new(alloc);
    for _ in 0..count {
        types.push(ValType::I32)?;
    }
    Ok(types)
}

/// Adds a function of the host of so many parameters and results to a store.
fn add_host(alloc: Global, store: &mut Store, params: u32, results: u32) -> Result<External, Fail> {
    let params = numbers(alloc, params)?;
    let results = numbers(alloc, results)?;
    Ok(External::Func(store.host(FuncType { params, results })?))
}

/// Adds an instance of a module with these imports to a store.
fn add_instance(
    alloc: Global,
    store: &mut Store,
    valid: &Valid,
    imports: &[External],
) -> Result<(), Fail> {
    if !store.matches(valid, imports) {
        return Err(Fail::new("other imports"));
    }
    store.add(alloc, valid, imports)?;
    Ok(())
}

/// Adds functions of the host, and two instances of the module that imports them, to a store.
fn add_instances(
    alloc: Global,
    store: &mut Store,
    valid: &Valid,
    hosts: &[(u32, u32)],
) -> Result<(), Fail> {
    let mut imports = Vec::new(alloc);
    for host in hosts {
        let (params, results) = *host;
        imports.push(add_host(alloc, store, params, results)?)?;
    }
    add_instance(alloc, store, valid, &imports)?;
    add_instance(alloc, store, valid, &imports)
}

/// Adds functions of the host and two instances of the module to a store. The functions are then: of the host 0, (i32) -> (), and 1, of
/// four i32 to one; those of the instances 2 and 3; of the host 4, of four i32 to none, and 5, of three i32 to one. The memories are 0 and
/// 1, each of one instance.
pub(crate) fn add_all(alloc: Global, store: &mut Store, valid: &Valid) -> Result<(), Fail> {
    add_instances(alloc, store, valid, &[(1, 0), (4, 1)])?;
    add_host(alloc, store, 4, 0)?;
    add_host(alloc, store, 3, 1)?;
    Ok(())
}

/// Adds the eleven functions of the host, 0 to 10, and two instances of the module to a store. Their functions are 11 and 12, and their
/// memories 0 and 1.
pub(crate) fn add_hosted(alloc: Global, store: &mut Store, valid: &Valid) -> Result<(), Fail> {
    add_instances(alloc, store, valid, &HOSTS)
}
