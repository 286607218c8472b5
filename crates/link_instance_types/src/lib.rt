//! What any written type means, instance types among them (Component Model, Explainer.md, "Type Definitions"): the reference into a
//! table of types, or what keeps the type from a meaning.
//!
//! The layer above links components, and asks for the meaning of each type that a component defines. What types of values and of
//! functions mean stands below, in `link_meanings`; an instance type is read here, declaration by declaration.
//!
//! - `around`: what stands around a type, `outer`: what outer aliases name of it
//! - `so_far`: what the declarations of an instance type tell so far; `declaring`: all of them; `aliases`: those of aliases
//! - `bringing`: how many resources types of instances bring; `exporting`: what exports of instance types are to be
//! - `meanings`: what any type means
#![tactic(auto)]

mod aliases;
mod around;
mod bringing;
mod declaring;
mod exporting;
mod meanings;
mod outer;
mod so_far;

pub use meanings::meaning_of;
