//! The addresses of core definitions in the store (Core 2.0, section 4.2.5).

ghost use Rattle.std.specs.Prelude.{◌≡◌, ◌<◌, length};
ghost use Rattle.std.specs.List.{slice_get};
ghost use Rattle.wasm_store.specs.Store.{Instance};
ghost use Rattle.world_stacks.specs.Addresses.{address_in, func_address, memory_of, realloc_of};

use comp_graph::{CoreRef, FuncRef, Options};
use wasm_store::Store;

/// The address of a core function, where it is there. A canonical function has its number as its address.
pub fn func_address(store: &Store, func: FuncRef) -> Option<usize>
    ensures { result ≡ func_address store.now func }
{
    match func {
        FuncRef::Instance(at) => own_address(store, at),
        FuncRef::Canon(number) => Some(number as usize),
    }
}

/// The address of a function of a core instance, where it is there.
fn own_address(store: &Store, at: CoreRef) -> Option<usize>
    ensures { result ≡ address_in (λ i. i.funcs) store.now at }
{
    let instance = at.instance as usize;
    if instance >= store.instance_count() {
        return None;
    }
    store
        .instance(instance)
        .funcs
        .as_slice()
        .get(at.index as usize)
        .copied()
}

/// The address of a table of a core instance, where it is there.
pub(crate) fn table_address(store: &Store, at: CoreRef) -> Option<usize>
    ensures { result ≡ address_in (λ i. i.tables) store.now at }
{
    let instance = at.instance as usize;
    if instance >= store.instance_count() {
        return None;
    }
    store
        .instance(instance)
        .tables
        .as_slice()
        .get(at.index as usize)
        .copied()
}

/// The address of a memory of a core instance, where it is there.
pub(crate) fn memory_address(store: &Store, at: CoreRef) -> Option<usize>
    ensures { result ≡ address_in (λ i. i.memories) store.now at }
{
    let instance = at.instance as usize;
    if instance >= store.instance_count() {
        return None;
    }
    store
        .instance(instance)
        .memories
        .as_slice()
        .get(at.index as usize)
        .copied()
}

/// The address of a global of a core instance, where it is there.
pub(crate) fn global_address(store: &Store, at: CoreRef) -> Option<usize>
    ensures { result ≡ address_in (λ i. i.globals) store.now at }
{
    let instance = at.instance as usize;
    if instance >= store.instance_count() {
        return None;
    }
    store
        .instance(instance)
        .globals
        .as_slice()
        .get(at.index as usize)
        .copied()
}

/// The address of the memory of options, where they have one that is there.
pub fn memory_of(store: &Store, options: &Options) -> Option<usize>
    ensures { result ≡ memory_of store.now options.now }
{
    match options.memory {
        Some(at) => memory_address(store, at),
        None => None,
    }
}

/// The address of the function that gives places in the memory, where options have one that is there.
pub fn realloc_of(store: &Store, options: &Options) -> Option<usize>
    ensures { result ≡ realloc_of store.now options.now }
{
    match options.realloc {
        Some(func) => func_address(store, func),
        None => None,
    }
}
