//! How far a task is.

ghost use Rattle.std.specs.Prelude.{◌≡◌};
ghost use Rattle.tasks.specs.Tasks.{is_nobody, is_new, is_acting, waits_to_enter, waits_inside, open_state, is_asked, is_told, is_unasked};

use crate::event::BlockedAt;
use crate::subtask_state::SubtaskState;

/// Who called a task.
#[derive(Clone, Copy, Debug)]
pub enum Caller {
    /// Nobody: the task is that of instantiation.
    Nobody,
    /// The host, by its call of this number.
    Host(u32),
    /// The task of this number.
    Guest(u32),
}

/// Where a task is.
#[derive(Clone, Copy, Debug)]
pub enum Phase {
    /// It neither entered its instance nor waits to.
    New,
    /// It runs, or it called a task that runs.
    Acting,
    /// It is blocked there, and whether the built-in in which it is lets a cancellation end the wait.
    Blocked(BlockedAt, bool),
    /// It is over.
    Exited,
}

/// How a task is resolved.
#[derive(Clone, Copy, Debug)]
pub enum Resolution {
    /// Its result is returned.
    Returned,
    /// It is cancelled.
    Cancelled,
}

/// How far a cancellation of a task is.
#[derive(Clone, Copy, Debug)]
pub enum Cancellation {
    /// None is asked.
    NotAsked,
    /// It is asked.
    Asked,
    /// The task was told.
    Delivered,
}

impl Caller { /// Whether nobody called it.
    pub(crate) fn is_nobody(self) -> bool
        ensures { result ≡ is_nobody self }
    {
        match self {
            Caller::Nobody => true,
            Caller::Host(_) => false,
            Caller::Guest(_) => false,
        }
    }
}

impl Phase {
    /// Whether the task is new.
    pub(crate) fn is_new(self) -> bool
        ensures { result ≡ is_new self }
    {
        match self {
            Phase::New => true,
            Phase::Acting => false,
            Phase::Blocked(_, _) => false,
            Phase::Exited => false,
        }
    }

    /// Whether it acts.
    pub(crate) fn is_acting(self) -> bool
        ensures { result ≡ is_acting self }
    {
        match self {
            Phase::New => false,
            Phase::Acting => true,
            Phase::Blocked(_, _) => false,
            Phase::Exited => false,
        }
    }

    /// Whether it waits to enter.
    pub(crate) fn waits_to_enter(self) -> bool
        ensures { result ≡ waits_to_enter self }
    {
        match self {
            Phase::New => false,
            Phase::Acting => false,
            Phase::Blocked(why, _) => why.is_entry(),
            Phase::Exited => false,
        }
    }

    /// Whether it is blocked and has entered.
    pub(crate) fn waits_inside(self) -> bool
        ensures { result ≡ waits_inside self }
    {
        match self {
            Phase::New => false,
            Phase::Acting => false,
            Phase::Blocked(why, _) => !why.is_entry(),
            Phase::Exited => false,
        }
    }

    /// The state of its subtask, where it is unresolved.
    pub(crate) fn open_state(self) -> SubtaskState
        ensures { result ≡ open_state self }
    {
        match self {
            Phase::New => SubtaskState::Starting,
            Phase::Acting => SubtaskState::Started,
            Phase::Blocked(why, _) => {
                if why.is_entry() {
                    SubtaskState::Starting
                } else {
                    SubtaskState::Started
                }
            },
            Phase::Exited => SubtaskState::Started,
        }
    }
}

impl Cancellation {
    /// Whether none is asked.
    pub(crate) fn is_unasked(self) -> bool
        ensures { result ≡ is_unasked self }
    {
        match self {
            Cancellation::NotAsked => true,
            Cancellation::Asked => false,
            Cancellation::Delivered => false,
        }
    }

    /// Whether it is asked and not told.
    pub(crate) fn is_asked(self) -> bool
        ensures { result ≡ is_asked self }
    {
        match self {
            Cancellation::NotAsked => false,
            Cancellation::Asked => true,
            Cancellation::Delivered => false,
        }
    }

    /// Whether the task was told.
    pub(crate) fn is_told(self) -> bool
        ensures { result ≡ is_told self }
    {
        match self {
            Cancellation::NotAsked => false,
            Cancellation::Asked => false,
            Cancellation::Delivered => true,
        }
    }
}
