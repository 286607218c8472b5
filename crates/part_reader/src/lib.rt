//! The readers of the parts of components: names, types of values, of functions and of resources, and canonical functions.
//!
//! A reader answers a part exactly for its bytes, as its grammar in `specs/` says, and else the first place at which they leave it,
//! with the reason. Only want of memory keeps it from either. The layer above reads whole components, whose items hold these parts.
//!
//! - `names`: names, and names of imports and exports
//! - `val_types`, `def_val_types`, `func_types`, `resource_types`: types of values, of functions and of resources
//! - `canons`, `builtins`, `options`: canonical functions, the built-ins among them, and their options
//! - `fault`: why the bytes of a component are refused
#![tactic(auto)]

mod builtins;
mod canons;
mod def_val_types;
mod fault;
mod func_types;
mod names;
mod options;
mod resource_types;
mod val_types;

pub use canons::read_canon;
pub use def_val_types::read_def_val_type;
pub use fault::{ComponentWhy, unsupported};
pub use func_types::read_func_type;
pub use names::{read_extern_name, read_name};
pub use resource_types::read_resource_type;
