//! Entries of the table of an instance.

ghost use Rattle.std.specs.Prelude.{◌≡◌, ◌↔◌, IsTrue, Some};
ghost use Rattle.instances.specs.Entries.{seen_end, readable_type, same_side, is_of_type, with_idle};

use res_handles::{Entry, EntryView, Handle, ReadableEnd};
use std::alloc::AllocError;
use stream_ends::Side;

/// An end of a stream or a future.
#[derive(Clone, Copy)]
pub struct EndEntry {
    /// Which end it is.
    pub side: Side,
    /// The number of the type of the stream or the future, in a table in which no type stands twice. The type tells whether the end
    /// belongs to a stream or to a future.
    pub end_type: usize,
    /// The number of the stream among streams, or of the future among futures, counted from 1.
    pub number: u32,
    /// Of a readable end whether no read of it is open and it isn't done.
    pub is_idle: bool,
}

/// What stands in the table of an instance.
#[derive(Clone, Copy)]
pub enum WorldEntry {
    /// A handle.
    Handle(Handle),
    /// The subtask that the task of this number is.
    Subtask(u32),
    /// The waitable set of this number.
    Set(u64),
    /// An end of a stream or a future.
    End(EndEntry),
}

impl Entry for WorldEntry {
    ghost use Rattle.std.specs.Prelude.{refl};
    ghost use Rattle.instances.specs.Entries.{seen_as, end_type_of, of_handle, of_end};

    type EndType = usize;

    ghost view = { seen_as };

    ghost end_type = { end_type_of };

    ghost made = { of_handle };

    ghost made_end = { of_end };

    fn view(&self) -> EntryView {
        match self {
            WorldEntry::Handle(handle) => EntryView::Handle(*handle),
            WorldEntry::Subtask(_) => EntryView::Other,
            WorldEntry::Set(_) => EntryView::Other,
            WorldEntry::End(end) => end.seen(),
        }
    }

    fn is_of(&self, wanted: &usize) -> bool {
        match self {
            WorldEntry::Handle(_) => false,
            WorldEntry::Subtask(_) => false,
            WorldEntry::Set(_) => false,
            WorldEntry::End(end) => end.is_readable_of(*wanted),
        }
    }

    fn of_handle(handle: Handle) -> WorldEntry {
        WorldEntry::Handle(handle)
    }

    fn of_end(wanted: &usize, number: u32) -> Result<WorldEntry, AllocError> {
        Ok(WorldEntry::End(EndEntry {
            side: Side::Reader,
            end_type: *wanted,
            number,
            is_idle: true,
        }))
    }

    ghost made_is_seen = { λ x. refl };

    ghost made_end_is_seen = { λ t n. refl };

    ghost made_end_has_type = { λ t n. refl };
}

impl EndEntry {
    /// What it is for those who lift ends.
    fn seen(&self) -> EntryView
        ensures { result ≡ seen_end self.now }
    {
        match self.side {
            Side::Reader => EntryView::ReadableEnd(ReadableEnd {
                number: self.number,
                is_idle: self.is_idle,
            }),
            Side::Writer => EntryView::Other,
        }
    }

    /// Whether it is the readable end of the type of this number.
    #[tactic(auto, using(crate::proofs::Types::readable_told))]
    fn is_readable_of(&self, wanted: usize) -> bool
        ensures { IsTrue result ↔ (readable_type self.now.side self.now ≡ Some wanted) }
    {
        self.is_at(Side::Reader) && self.is_of_type(wanted)
    }

    /// Whether it is the end of this side.
    pub fn is_at(&self, side: Side) -> bool
        ensures { result ≡ same_side self.now.side side }
    {
        match (self.side, side) {
            (Side::Reader, Side::Reader) => true,
            (Side::Reader, Side::Writer) => false,
            (Side::Writer, Side::Reader) => false,
            (Side::Writer, Side::Writer) => true,
        }
    }

    /// Whether it is an end of the type of this number.
    pub fn is_of_type(&self, wanted: usize) -> bool
        ensures { result ≡ is_of_type wanted self.now }
    {
        self.end_type == wanted
    }

    /// The same end, where this says whether it is idle.
    pub fn with_idle(self, is_idle: bool) -> EndEntry
        ensures { result ≡ with_idle is_idle self }
    {
        EndEntry { is_idle, ..self }
    }
}
