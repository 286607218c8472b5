//! What differs at an end of a future from a stream's.

ghost use Rattle.std.specs.Prelude.{◌≡◌};
ghost use Rattle.stream_ends.specs.Ends.{code_of};
ghost use Rattle.future_ends.specs.Meeting.{told, told_payload, taken};

use stream_ends::{CopyEvent, CopyResult, End, OpenCopy};

/// The payload of a copy that ended so (CanonicalABI.md, `canon future.{read,write}`): its result alone, 0 for completed, 1
/// for dropped and 2 for cancelled.
pub fn payload(ended: CopyResult) -> u32
    ensures { result ≡ code_of ended }
{
    match ended {
        CopyResult::Completed => 0,
        CopyResult::Dropped => 1,
        CopyResult::Cancelled => 2,
    }
}

/// Ends the copy under way and answers its payload. With none under way it answers 0.
pub fn tell(end: &mut End) -> u32
    ensures payload { result ≡ told_payload end.old.copy }
    ensures end { end.new ≡ told end.old }
{
    match end.copy {
        Some(copy) => {
            end.copy = None;
            if copy.event.is_some() {
                end.done = true;
            }
            payload(copy.result())
        }
        None => 0,
    }
}

/// Completes the standing offer with its value.
pub fn take(end: &mut End)
    ensures { end.new ≡ taken end.old }
{
    if let Some(copy) = end.standing() {
        end.copy = Some(OpenCopy {
            copied: 1,
            event: Some(CopyEvent::Completed),
            standing: false,
            ..copy
        });
    }
}
