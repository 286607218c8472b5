//! One end of a stream.

ghost use Rattle.std.specs.Prelude.{◌≡◌, ◌^◌, ◌<◌, ◌≤◌};
ghost use Rattle.stream_ends.specs.Ends.{no_end, standing_of, is_idle, is_copying, is_pending, copied_of, told, told_payload, grown, leaves, hears_of_drop, room_of};

use crate::open_copy::{CopyEvent, CopyResult, OpenCopy, payload};

/// One end of a stream.
#[derive(Clone, Copy)]
pub struct End {
    /// Whether it is dropped.
    pub dropped: bool,
    /// Whether it is over: neither read nor written any more. An end of a stream is, once it was told that the other end
    /// is dropped, and an end of a future also once it was told that its copy is completed.
    pub done: bool,
    /// The copy under way, if there is one.
    pub copy: Option<OpenCopy>,
}

impl End {
    /// A new end, at which nothing is under way.
    pub fn new() -> End
        ensures { result ≡ no_end }
    {
        End {
            dropped: false,
            done: false,
            copy: None,
        }
    }

    /// The copy that the other end can meet, if there is one.
    pub fn standing(&self) -> Option<OpenCopy>
        ensures { result ≡ standing_of self.now.copy }
    {
        match self.copy {
            Some(copy) => { if copy.standing { Some(copy) } else { None } }
            None => None,
        }
    }

    /// Whether a copy may begin.
    pub fn is_idle(&self) -> bool
        ensures { result ≡ is_idle self.now }
    {
        !self.dropped && !self.done && self.copy.is_none()
    }

    /// Whether a copy is under way.
    pub fn is_copying(&self) -> bool
        ensures { result ≡ is_copying self.now }
    {
        self.copy.is_some()
    }

    /// Whether a result waits to be told.
    pub fn is_pending(&self) -> bool
        ensures { result ≡ is_pending self.now }
    {
        match &self.copy {
            Some(copy) => copy.event.is_some(),
            None => false,
        }
    }

    /// Ends the copy under way and answers its payload. With none under way it answers 0.
    pub(crate) fn tell(&mut self) -> u32
        requires { copied_of self.old.copy < 2 ^ 28 }
        ensures payload { result ≡ told_payload self.old.copy }
        ensures end { self.new ≡ told self.old }
    {
        match self.copy {
            Some(copy) => {
                let ended = copy.result();
                self.copy = None;
                if ended == CopyResult::Dropped {
                    self.done = true;
                }
                payload(ended, copy.copied)
            }
            None => 0,
        }
    }

    /// Counts elements that were copied into or out of the standing offer.
    pub(crate) fn grow(&mut self, count: u32)
        requires { count ≤ room_of (standing_of self.old.copy) }
        ensures { self.new ≡ grown count self.old }
    {
        if let Some(copy) = self.standing() {
            self.copy = Some(OpenCopy {
                copied: copy.copied + count,
                event: Some(CopyEvent::Completed),
                ..copy
            });
        }
    }

    /// Completes the standing offer, which then stands no more.
    pub(crate) fn leave(&mut self)
        ensures { self.new ≡ leaves self.old }
    {
        if let Some(copy) = self.standing() {
            self.copy = Some(OpenCopy {
                event: Some(CopyEvent::Completed),
                standing: false,
                ..copy
            });
        }
    }

    /// Lets the standing offer be told that the other end is dropped. It stands until it is told.
    pub fn hear_of_drop(&mut self)
        ensures { self.new ≡ hears_of_drop self.old }
    {
        if let Some(copy) = self.standing() {
            self.copy = Some(OpenCopy {
                event: Some(CopyEvent::Dropped),
                ..copy
            });
        }
    }
}
