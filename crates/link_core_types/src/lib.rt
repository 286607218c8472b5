//! Types of core functions (Core 2.0, section 2.3.6), at hand for those that link them.
//!
//! - `module_type` and `module_types`: the types of core modules, by their modules and indices, each content of which is compared
//!   once for each index at which it is asked for
//! - `type_texts`: texts by which types of equal content are found
//! - `few_types`: the types of the core values in which values are passed
//! - `core_func_type`: the types of the core functions that the Canonical ABI makes and asks for
#![tactic(auto)]

mod core_func_type;
mod few_types;
mod module_type;
mod module_types;
mod type_texts;

pub use core_func_type::CoreFuncType;
pub use few_types::{FewTypes, passed, val_type_of};
pub use module_type::ModuleType;
pub use module_types::ModuleTypes;
