//! Which type of which core module.

/// A type of a core module (Core 2.0, section 2.5.2).
#[derive(Clone, Copy, PartialEq, Eq, PartialOrd, Ord)]
pub struct ModuleType {
    /// The number of the module.
    pub module: usize,
    /// The index of the type in the module.
    pub index: u32,
}
