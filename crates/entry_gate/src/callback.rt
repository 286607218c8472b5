//! What a callback answers.

ghost use Rattle.std.specs.Prelude.{◌≡◌};
ghost use Rattle.entry_gate.specs.Callbacks.{callback_of};

use thiserror::Error;

/// What a task with a callback does next.
#[derive(Clone, Copy)]
pub enum Next {
    /// It ends.
    Exit,
    /// It lets others go first.
    Yield,
    /// It waits for an event of the set at this index of its instance's table.
    Wait(u32),
    /// It asks for an event of the set at this index of its instance's table, where there is one.
    Poll(u32),
}

/// The word of a callback has a code above 3.
#[derive(Clone, Copy, Debug, Error)]
#[error("the code of a callback's word is above 3")]
pub struct BadCode;

/// Reads the word that a callback or its function answers (Component Model, CanonicalABI.md, `canon lift`): a code in its
/// low four bits, 0 to exit, 1 to yield, 2 to wait and 3 to poll, and the index of a set in the others, which counts for 2
/// and 3 alone. Another code is `BadCode`.
pub fn read_callback(word: u32) -> Result<Next, BadCode>
    ensures exact { result ≡ callback_of word }
{
    let set = word / 16;
    match word % 16 {
        0 => Ok(Next::Exit),
        1 => Ok(Next::Yield),
        2 => Ok(Next::Wait(set)),
        3 => Ok(Next::Poll(set)),
        _ => Err(BadCode),
    }
}
