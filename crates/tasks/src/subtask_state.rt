//! How far a subtask is.

ghost use Rattle.std.specs.Prelude.{◌≡◌};
ghost use Rattle.tasks.specs.Subtasks.{code_of, is_over, follows, follows_starting, follows_started};

/// How far a subtask is (CanonicalABI.md, "Subtask State").
#[derive(Clone, Copy, Debug)]
pub enum SubtaskState {
    /// The callee waits to enter.
    Starting,
    /// It has entered.
    Started,
    /// It returned its result.
    Returned,
    /// It was cancelled before it entered.
    CancelledBeforeStarted,
    /// It was cancelled before it returned.
    CancelledBeforeReturned,
}

impl SubtaskState {
    /// The number by which the state is told, 0 to 4.
    pub fn code(self) -> u32
        ensures { result ≡ code_of self }
    {
        match self {
            SubtaskState::Starting => 0,
            SubtaskState::Started => 1,
            SubtaskState::Returned => 2,
            SubtaskState::CancelledBeforeStarted => 3,
            SubtaskState::CancelledBeforeReturned => 4,
        }
    }

    /// Whether the callee is resolved.
    pub fn is_over(self) -> bool
        ensures { result ≡ is_over self }
    {
        match self {
            SubtaskState::Starting => false,
            SubtaskState::Started => false,
            SubtaskState::Returned => true,
            SubtaskState::CancelledBeforeStarted => true,
            SubtaskState::CancelledBeforeReturned => true,
        }
    }

    /// Whether the other state may come right after this one: started or cancelled before that after starting, and
    /// returned or cancelled before that after started.
    pub fn is_followed_by(self, later: SubtaskState) -> bool
        ensures { result ≡ follows self later }
    {
        match self {
            SubtaskState::Starting => later.follows_starting(),
            SubtaskState::Started => later.follows_started(),
            SubtaskState::Returned => false,
            SubtaskState::CancelledBeforeStarted => false,
            SubtaskState::CancelledBeforeReturned => false,
        }
    }

    /// Whether it comes right after starting.
    fn follows_starting(self) -> bool
        ensures { result ≡ follows_starting self }
    {
        match self {
            SubtaskState::Starting => false,
            SubtaskState::Started => true,
            SubtaskState::Returned => false,
            SubtaskState::CancelledBeforeStarted => true,
            SubtaskState::CancelledBeforeReturned => false,
        }
    }

    /// Whether it comes right after started.
    fn follows_started(self) -> bool
        ensures { result ≡ follows_started self }
    {
        match self {
            SubtaskState::Starting => false,
            SubtaskState::Started => false,
            SubtaskState::Returned => true,
            SubtaskState::CancelledBeforeStarted => false,
            SubtaskState::CancelledBeforeReturned => true,
        }
    }
}
