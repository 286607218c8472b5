//! What happens to a task.

ghost use Rattle.std.specs.Prelude.{◌≡◌};
ghost use Rattle.tasks.specs.Tasks.{is_entry, is_sync, is_cancellable};

use entry_gate::Kind;
use thiserror::Error;

/// Where a task waits.
#[derive(Clone, Copy, Debug, PartialEq)]
pub enum BlockedAt {
    /// It waits to enter its instance.
    Entry,
    /// It waits in its loop, after its core function or its callback returned this word.
    Loop(u32),
    /// In `yield`.
    Yield,
    /// In `waitable-set.wait`, at the set of this index.
    Set(u32),
    /// In a synchronous call of this task.
    Call(u32),
    /// In a synchronous read or write at the end of this index.
    Copy(u32),
    /// In a synchronous `subtask.cancel` of the subtask of this index.
    Cancel(u32),
}

/// What happens to a task.
#[derive(Clone, Copy, PartialEq)]
pub enum TaskEvent {
    /// A new task, or one that waits to enter, enters its instance.
    Enter,
    /// It blocks there. The flag is that of the built-in: whether a cancellation may end the wait.
    Block(BlockedAt, bool),
    /// A task that is blocked, and not at its entry, goes on.
    Go,
    /// `task.return` is called: a task that is lifted without `async` may not.
    AskReturn,
    /// Its result is returned.
    Return,
    /// `task.cancel` is called.
    Cancel,
    /// A borrow handle is made for it.
    Borrow,
    /// A borrow handle that was made for it is dropped.
    Unborrow,
    /// It is told that its cancellation is asked.
    ToldCancel,
    /// It exits.
    Exit,
}

/// Why something may not happen to a task.
#[derive(Clone, Copy, Debug, Error)]
pub enum TaskTrap {
    /// The task is lifted without `async`.
    #[error("the task is lifted without `async`")]
    SyncTask,
    /// It was not told that its cancellation is asked.
    #[error("the task was not told that its cancellation is asked")]
    NotAsked,
    /// It is resolved already.
    #[error("the task is resolved already")]
    Resolved,
    /// A borrow handle that was made for it is live.
    #[error("a borrow handle that was made for the task is live")]
    BorrowLives,
}

/// What comes of a request to cancel a task.
#[derive(Clone, Copy)]
pub enum Asked {
    /// It waited to enter, and is removed.
    Removed,
    /// It waits where a cancellation ends the wait: it goes on at once, and is told.
    ResumeNow,
    /// It is told when it next asks for events, if it does.
    Pending,
}

impl BlockedAt {
    /// Whether it is the entry.
    pub(crate) fn is_entry(self) -> bool
        ensures { result ≡ is_entry self }
    {
        match self {
            BlockedAt::Entry => true,
            BlockedAt::Loop(_) => false,
            BlockedAt::Yield => false,
            BlockedAt::Set(_) => false,
            BlockedAt::Call(_) => false,
            BlockedAt::Copy(_) => false,
            BlockedAt::Cancel(_) => false,
        }
    }

    /// Whether a cancellation ends this wait of a task of this kind (Concurrency.md, "Cancellation"): in its loop where `entry_free`,
    /// that is where no task holds exclusive entry to its instance, and in a wait or `yield` with the built-in's flag where the task
    /// isn't lifted without `async`.
    pub fn is_cancellable(self, entry_free: bool, kind: Kind, flag: bool) -> bool
        ensures { result ≡ is_cancellable entry_free kind self flag }
    {
        match self {
            BlockedAt::Entry => false,
            BlockedAt::Loop(_) => entry_free,
            BlockedAt::Yield => flag && !is_sync(kind),
            BlockedAt::Set(_) => flag && !is_sync(kind),
            BlockedAt::Call(_) => false,
            BlockedAt::Copy(_) => false,
            BlockedAt::Cancel(_) => false,
        }
    }
}

/// Whether a core function is lifted without `async`.
pub(crate) fn is_sync(kind: Kind) -> bool
    ensures { result ≡ is_sync kind }
{
    match kind {
        Kind::Sync => true,
        Kind::Callback => false,
        Kind::Stackful => false,
    }
}
