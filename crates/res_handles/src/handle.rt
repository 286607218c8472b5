//! A handle.

ghost use Rattle.std.specs.Prelude.{◌≡◌};
ghost use Rattle.res_handles.specs.Refusals.{of_resource, unlent, owned};
ghost use Rattle.res_handles.specs.Calls.{own_handle, borrow_handle, with_lends};

use crate::refusal::Refusal;

/// Whether a handle owns what it names.
#[derive(Clone, Copy)]
pub enum Ownership {
    /// It does.
    Own,
    /// It borrows it, and counts for this task, which drops it before it resolves.
    Borrow(u32),
}

/// A handle of a resource.
#[derive(Clone, Copy)]
pub struct Handle {
    /// The number of the resource.
    pub resource: u32,
    /// The representation, by which the resource's own instance knows what the handle names.
    pub rep: u32,
    /// How many borrows are lifted from it whose loans aren't ended: the caller ends a loan when the resolution of the subtask for
    /// which the borrow was lifted is delivered.
    pub lends: u64,
    /// Whether it owns what it names.
    pub ownership: Ownership,
}

impl Handle {
    /// A new own handle.
    pub(crate) fn own(resource: u32, rep: u32) -> Handle
        ensures { result ≡ own_handle resource rep }
    {
        Handle {
            resource,
            rep,
            lends: 0,
            ownership: Ownership::Own,
        }
    }

    /// A new borrow handle of this task.
    pub(crate) fn borrow(resource: u32, rep: u32, task: u32) -> Handle
        ensures { result ≡ borrow_handle resource rep task }
    {
        Handle {
            resource,
            rep,
            lends: 0,
            ownership: Ownership::Borrow(task),
        }
    }

    /// The same handle with another number of lends.
    pub(crate) fn with_lends(self, lends: u64) -> Handle
        ensures { result ≡ with_lends lends self }
    {
        Handle { lends, ..self }
    }

    /// The handle, if it is one of this resource.
    pub(crate) fn if_of(self, resource: u32) -> Result<Handle, Refusal>
        ensures { result ≡ of_resource resource self }
    {
        if self.resource == resource {
            Ok(self)
        } else {
            Err(Refusal::OtherType)
        }
    }

    /// The handle, if nothing is lent of it.
    pub(crate) fn if_unlent(self) -> Result<Handle, Refusal>
        ensures { result ≡ unlent self }
    {
        if self.lends == 0 {
            Ok(self)
        } else {
            Err(Refusal::Lent)
        }
    }

    /// The handle, if it owns what it names and nothing is lent of it.
    pub(crate) fn if_owned(self) -> Result<Handle, Refusal>
        ensures { result ≡ owned self }
    {
        match self.ownership {
            Ownership::Own => self.if_unlent(),
            Ownership::Borrow(_) => Err(Refusal::NotOwn),
        }
    }
}
