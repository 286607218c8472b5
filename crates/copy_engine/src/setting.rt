//! Where values are lowered.

use crate::store_room::LowerOptions;
use comp_graph::CanonFunc;
use res_handles::Home;

/// Where values are lowered (Component Model, CanonicalABI.md, "Lifting and Lowering Context").
#[derive(Clone, Copy)]
pub struct Lowering<'a> {
    /// What the canonical options say.
    pub options: LowerOptions,
    /// The canonical functions, each at the address of the store that is its number.
    pub canons: &'a [CanonFunc],
    /// The number of the component instance.
    pub instance: u32,
    /// The task for which values are lowered, and the resources that the instance defines.
    pub home: Home<'a>,
}
