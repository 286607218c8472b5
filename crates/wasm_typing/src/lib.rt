//! What it is for a core module to be valid (Core 2.0, section 3).
//!
//! The typing rules are definitions, and a `Valid` is a module that they type. The layers above run and link such modules
//! without tests of their own; the crate `wasm_valid` makes them of the modules that are read. The rules on items outside
//! bodies, and what the rules know of a function, are here as code too.
//!
//! What a module says apart from any rule is here too: its index spaces, its locals, and where its parts stand.
//!
//! - `module_places`: modules with the places of their parts; `spot`: parts by their numbers, and where they stand
//! - `space`: index spaces; `locals` and `local_runs`: the types of the locals of a function, in a list and by their indices
//! - `valid`: the modules that are typed
//! - `checked`: rules on the items of a section; `items`, `segments`, `exports`: those of each section; `consts`: constant
//!   expressions
//! - `context`: what the rules know of a function; `block`: kinds of blocks
//! - `fault`, `why` and `place`: what faults are, and where they stand
//! - `laws`: that the first fault decides whether a module is typed
#![tactic(auto)]

mod block;
mod checked;
mod consts;
mod context;
mod exports;
mod fault;
mod items;
pub mod laws;
mod local_runs;
mod locals;
mod module_places;
mod place;
mod segments;
mod space;
mod spot;
mod valid;
mod why;

pub use block::BlockKind;
pub use checked::{Checked, check_each};
pub use context::Context;
pub use exports::{check_exports, check_start};
pub use fault::{Fault, PartFault, ValidFault};
pub use local_runs::LocalTypes;
pub use locals::local_types;
pub use module_places::{
    DataPlaces, ElementPlaces, FuncPlaces, GlobalPlaces, Module, ModuleParts, ModulePlaces,
};
pub use place::told;
pub use space::{Space, imported_memories, imported_tables};
pub use spot::{Spot, place_of};
pub use valid::Valid;
pub use why::ValidWhy;
