//! What the options of canonical functions give.

ghost use Rattle.std.specs.Prelude.{◌≡◌, Option, is_some, true};
ghost use Rattle.std.specs.Option.{option_and_then, option_map_or};
ghost use Rattle.comp_graph.specs.CoreItems.{CoreItem, core_func_of, core_memory_of};
ghost use Rattle.link_spec.specs.Canons.{is_of_core_type, options_of};

use crate::core_item::CoreItem;
use comp_graph::{CoreRef, FuncRef, Options};
use link_core_types::CoreFuncType;
use std::marker::Model;

/// What the options of a canonical function give it (Component Model, CanonicalABI.md, "Canonical ABI Options"): the memory, the
/// core function that gives places in it, the core function that is called when the result was lifted, and the one that is called
/// with each event of a task; and whether one is `async`.
#[derive(Drop)]
pub struct Given<'a> {
    memory: Option<CoreItem<'a>>,
    realloc: Option<CoreItem<'a>>,
    post_return: Option<CoreItem<'a>>,
    callback: Option<CoreItem<'a>>,
    is_async: bool,
}

impl<'a> Model for Given<'a> {
    ghost use Rattle.std.specs.Coded.{codes};
    ghost use Rattle.syntax_trees.specs.contracts.module_types.FuncType as func_type;
    ghost use Rattle.syntax_trees.specs.contracts.module_types.Limits as limits;
    ghost use Rattle.syntax_trees.specs.contracts.module_types.GlobalType as global_type;
    ghost use Rattle.comp_graph.specs.contracts.graph.CoreRef as core_ref;
    ghost use Rattle.comp_graph.specs.contracts.graph.FuncRef as func_ref;
    ghost use Rattle.link_spec.specs.Canons as canons;

    ghost Value = { canons.Given };

    ghost coded = { Prim.hlevel (codes, func_type.the_row.coded, limits.the_row.coded, global_type.the_row.coded, core_ref.the_row.coded, func_ref.the_row.coded) };

    ghost view = { λ g. record { memory = g.memory; realloc = g.realloc; post_return = g.post_return; callback = g.callback; is_async = g.is_async } };
}

impl<'a> Given<'a> {
    /// This memory, this core function that gives places in it, this one that is called when the result was lifted, and this one that
    /// is called with each event of a task, where there is one; and whether an option is `async`.
    pub fn new(
        memory: Option<CoreItem<'a>>,
        realloc: Option<CoreItem<'a>>,
        post_return: Option<CoreItem<'a>>,
        callback: Option<CoreItem<'a>>,
        is_async: bool,
    ) -> Given<'a>
        ensures { result ≡ record { memory = memory.entry; realloc = realloc.entry; post_return = post_return.entry; callback = callback.entry; is_async = is_async } }
    {
        Given {
            memory,
            realloc,
            post_return,
            callback,
            is_async,
        }
    }

    /// Whether an option is `async`.
    pub fn is_async(&self) -> bool
        ensures { result ≡ self.now.is_async }
    {
        self.is_async
    }

    /// Whether a memory is given.
    pub fn has_memory(&self) -> bool
        ensures { result ≡ is_some self.now.memory }
    {
        self.memory.is_some()
    }

    /// Whether a core function that gives places is given.
    pub fn has_realloc(&self) -> bool
        ensures { result ≡ is_some self.now.realloc }
    {
        self.realloc.is_some()
    }

    /// Whether a core function that is called when the result was lifted is given.
    pub fn has_post_return(&self) -> bool
        ensures { result ≡ is_some self.now.post_return }
    {
        self.post_return.is_some()
    }

    /// Whether a core function that is called with events is given.
    pub fn has_callback(&self) -> bool
        ensures { result ≡ is_some self.now.callback }
    {
        self.callback.is_some()
    }

    /// Whether what is to give places is a core function of this type, where it is given.
    pub fn realloc_is(&self, func_type: &CoreFuncType) -> bool
        ensures { result ≡ option_map_or (is_of_core_type func_type.now) self.now.realloc true }
    {
        is_or_absent(&self.realloc, func_type)
    }

    /// Whether what is to be called when the result was lifted is a core function of this type, where it is given.
    pub fn post_return_is(&self, func_type: &CoreFuncType) -> bool
        ensures { result ≡ option_map_or (is_of_core_type func_type.now) self.now.post_return true }
    {
        is_or_absent(&self.post_return, func_type)
    }

    /// Whether what is to be called with events is a core function of this type, where it is given.
    pub fn callback_is(&self, func_type: &CoreFuncType) -> bool
        ensures { result ≡ option_map_or (is_of_core_type func_type.now) self.now.callback true }
    {
        is_or_absent(&self.callback, func_type)
    }

    /// The same without types.
    pub fn options(&self) -> Options
        ensures { result ≡ options_of self.now }
    {
        Options {
            memory: memory_of(&self.memory),
            realloc: func_of(&self.realloc),
            post_return: func_of(&self.post_return),
            callback: func_of(&self.callback),
            is_async: self.is_async,
        }
    }
}

/// Whether an item is a core function of a type, if there is one.
fn is_or_absent(item: &Option<CoreItem<'_>>, func_type: &CoreFuncType) -> bool
    ensures { result ≡ option_map_or (is_of_core_type func_type.now) item.now true }
{
    match item {
        Some(item) => item.is_of_type(func_type),
        None => true,
    }
}

/// Which memory an item is, if there is one.
fn memory_of(item: &Option<CoreItem<'_>>) -> Option<CoreRef>
    ensures { result ≡ option_and_then core_memory_of item.now }
{
    match item {
        Some(item) => item.core_memory(),
        None => None,
    }
}

/// Which core function an item is, if there is one.
fn func_of(item: &Option<CoreItem<'_>>) -> Option<FuncRef>
    ensures { result ≡ option_and_then core_func_of item.now }
{
    match item {
        Some(item) => item.core_func(),
        None => None,
    }
}
