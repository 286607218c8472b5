//! What an entry of a table is, for handles and ends.

use crate::handle::Handle;
use crate::readable_end::ReadableEnd;
use std::alloc::AllocError;

/// What an entry is.
#[derive(Clone, Copy)]
pub enum EntryView {
    /// A handle.
    Handle(Handle),
    /// The readable end of a stream or a future.
    ReadableEnd(ReadableEnd),
    /// An entry of another kind.
    Other,
}

/// Entries of a table, some of which are handles, and some readable ends.
///
/// Contracts see what an entry is, the type of an end, and the entries that are made of a handle and of an end.
pub trait Entry {
    ghost use Rattle.std.specs.Prelude.{◌≡◌, ◌↔◌, ℕ, Option, Some, IsTrue, IfOk};
    ghost use Rattle.res_handles.specs.declared.handle.Handle.{Handle};
    ghost use Rattle.res_handles.specs.Ends.{idle_end};
    ghost use Rattle.res_handles.specs.declared.entry.EntryView.{EntryView};
    ghost use Rattle.res_handles.specs.declared.entry.EntryView.TheVariants as seen;

    /// The types of readable ends: each stands for a stream or a future, with the type of its elements where it has one.
    type EndType;

    ghost view: { Self → EntryView };

    ghost end_type: { Self → Option Self.EndType };

    ghost made: { Handle → Self };

    ghost made_end: { Self.EndType → ℕ → Self };

    /// What the entry is.
    fn view(&self) -> EntryView
        ensures { result ≡ view self.now };

    /// Whether the entry is an end of this type.
    fn is_of(&self, wanted: &Self::EndType) -> bool
        ensures { IsTrue result ↔ (end_type self.now ≡ Some wanted.now) };

    /// The entry that is this handle.
    fn of_handle(handle: Handle) -> Self
        ensures { result ≡ made handle };

    /// The entry that is the idle readable end of the stream or the future of this type and number. It fails for want of memory, or
    /// where no more owners of a type can be counted.
    fn of_end(wanted: &Self::EndType, number: u32) -> Result<Self, AllocError>
        ensures { IfOk result (λ e. e ≡ made_end wanted.now number) };

    ghost made_is_seen: { (x : Handle) → view (made x) ≡ seen.Handle x };

    ghost made_end_is_seen: { (t : Self.EndType) (n : ℕ) → view (made_end t n) ≡ seen.ReadableEnd (idle_end n) };

    ghost made_end_has_type: { (t : Self.EndType) (n : ℕ) → end_type (made_end t n) ≡ Some t };
}
