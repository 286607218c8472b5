//! Where and for which task a borrow is lowered.

ghost use Rattle.std.specs.Prelude.{◌≡◌};
ghost use Rattle.res_handles.specs.Calls.{is_defined};

/// An instance into which values are lowered, and the task for which that is done.
#[derive(Clone, Copy)]
pub struct Home<'a> {
    /// The number of the task: the callee for arguments, the caller for a result, and for a copy of elements the task that reads.
    pub task: u32,
    /// The numbers of the resources that the instance defines.
    pub resources: &'a [u32],
}

impl Home<'_> {
    /// Whether the instance defines this resource.
    pub(crate) fn defines(&self, resource: u32) -> bool
        ensures { result ≡ is_defined resource self.now.resources.now }
    {
        self.resources.contains(&resource)
    }
}
