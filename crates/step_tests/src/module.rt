//! The core instance of post-returns: it imports canonical functions, and has a memory of a page and a function.

use canon_hosts::first_store;
use cases::bytes_of;
use graph_cases::NamedGraph;
use module_reading::valid_of;
use std::alloc::Global;
use std::test::Fail;
use wasm_code::External;
use wasm_store::Store;
use wasm_typing::Valid;

/// The preamble of a core module, the types () -> i32, (i32) -> (), (i32) -> i32, () -> () and (i64) -> (), and nine functions of the host.
const FRONT: &str = "0061736d01000000 0115 05 6000017f 60017f00 60017f017f 600000 60017e00 \
    0237 09 016d01610000 016d01620000 016d01630001 016d01640001 016d01650002 016d01660000 016d01670001 016d01680003 016d01690000";

/// The instances that make the functions, counted from 0, and their names.
const IMPORTS: [(usize, &str); 9] = [
    (0, "context.get/0"),
    (0, "context.get/1"),
    (0, "context.set/0"),
    (0, "context.set/1"),
    (0, "resource.rep/1"),
    (0, "waitable-set.new"),
    (0, "resource.drop/2"),
    (0, "lower/2/sync"),
    (1, "context.get/0"),
];

/// The number of the type of a function that takes this.
fn type_of(takes: &str) -> u8 {
    match takes {
        "i32" => 1,
        "i64" => 4,
        _ => 3,
    }
}

/// The module whose own function takes this and has these instructions.
fn module_of(alloc: Global, takes: &str, code: &str) -> Result<Valid, Fail> {
    let code = bytes_of(alloc, code)?;
    if code.len() > 100 {
        return Err(Fail::new("much code"));
    }
    let size = code.len() as u8;
    let mut bytes = bytes_of(alloc, FRONT)?;
    bytes.extend_from_slice(&[3, 2, 1, type_of(takes), 5, 3, 1, 0, 1])?;
    bytes.extend_from_slice(&[10, size + 4, 1, size + 2, 0])?;
    bytes.extend_from_slice(&code)?;
    bytes.push(11)?;
    valid_of(alloc, &bytes)
}

/// What the module imports.
fn imports_of(alloc: Global, named: &NamedGraph) -> Result<Vec<External>, Fail> {
    let mut imports = Vec::new(alloc);
    for (instance, name) in IMPORTS {
        let number = named.canon(instance, name).ok_or("no such function")?;
        imports.push(External::Func(number as usize))?;
    }
    Ok(imports)
}

/// Adds an instance of a module with these imports.
fn add_instance(
    alloc: Global,
    store: &mut Store,
    valid: &Valid,
    imports: &[External],
) -> Result<(), Fail> {
    if !store.matches(valid, imports) {
        return Err(Fail::new("other imports"));
    }
    store.add(alloc, valid, imports)?;
    Ok(())
}

/// Adds an instance of a module over the canonical functions of a graph to its store.
fn add_linked(
    alloc: Global,
    named: &NamedGraph,
    store: &mut Store,
    valid: &Valid,
) -> Result<(), Fail> {
    let imports = imports_of(alloc, named)?;
    add_instance(alloc, store, valid, &imports)
}

/// Adds a core instance to the store of a graph, whose own function takes this and has these instructions.
fn add_module(
    alloc: Global,
    named: &NamedGraph,
    store: &mut Store,
    takes: &str,
    code: &str,
) -> Result<(), Fail> {
    let valid = module_of(alloc, takes, code)?;
    add_linked(alloc, named, store, &valid)
}

/// The store of a graph, with one core instance, whose own function takes this and has these instructions.
pub(crate) fn store_with(
    alloc: Global,
    named: &NamedGraph,
    takes: &str,
    code: &str,
) -> Result<Store, Fail> {
    let mut store = first_store(alloc, &named.graph)?;
    add_module(alloc, named, &mut store, takes, code)?;
    Ok(store)
}
