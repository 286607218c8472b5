//! The reader of the binary format of components.
//!
//! `read_component` answers a component exactly for its bytes, and else the first place at which they leave the format, with the
//! reason. Each core module is read and validated where it stands. Only want of memory keeps it from either.
//!
//! - `reading`: the reading of a whole component
//! - `sections`: the sections by their ids, and components that hold others
//! - `core_modules`, `core_instances`, `instances`, `aliases`, `def_types`, `canons`, `externs`: the items, a kind for each
//! - `sorts`: the sorts of what stands in them; types of values, of functions and of resources, names and canonical functions are
//!   read by `part_reader`
//! - `laws`: that bytes are one component, or are refused in one way
#![tactic(auto)]

mod aliases;
mod canons;
mod core_instances;
mod core_modules;
mod def_types;
mod externs;
mod instances;
mod laws;
mod reading;
mod sections;
mod sorts;

pub use comp_tree::Component;
pub use laws::one_reading;
pub use part_reader::ComponentWhy;
pub use reading::read_component;
