//! The kinds of tasks.

ghost use Rattle.std.specs.Prelude.{◌≡◌};
ghost use Rattle.entry_gate.specs.Kinds.{needs_entry};

/// How the core function of a task is lifted, and so how it waits (Component Model, CanonicalABI.md, `canon lift`).
#[derive(Clone, Copy, Debug)]
pub enum Kind {
    /// Without `async`: the function's end is the task's end.
    Sync,
    /// With `async` and a `callback`: between waits the callback is called again.
    Callback,
    /// With `async` and no `callback`: the task waits on its own stack.
    Stackful,
}

impl Kind {
    /// Whether a task of this kind needs exclusive entry to its instance.
    pub fn needs_entry(self) -> bool
        ensures { result ≡ needs_entry self }
    {
        match self {
            Kind::Sync => true,
            Kind::Callback => true,
            Kind::Stackful => false,
        }
    }
}
