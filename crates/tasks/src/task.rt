//! A task.

ghost use Rattle.std.specs.Prelude.{◌≡◌, IsTrue};
ghost use Rattle.tasks.specs.Tasks.{new_task, may_happen, fault, answer, after, advanced, cancel_case, blocked_case, cancelled, may_cancel, state_of, asking_fault, resolving_fault, cancel_fault};
ghost use Rattle.tasks.specs.History.{History, history_of, happened, asked_for, StandsFor};

use crate::event::{Asked, BlockedAt, TaskEvent, TaskTrap, is_sync};
use crate::phase::{Caller, Cancellation, Phase, Resolution};
use crate::subtask_state::SubtaskState;
use entry_gate::Kind;
use std::marker::Model;

/// A task. No call takes memory.
#[derive(Drop)]
pub struct Task {
    kind: Kind,
    caller: Caller,
    phase: Phase,
    resolution: Option<Resolution>,
    cancellation: Cancellation,
    /// How many live borrow handles were made for it.
    borrows: u64,
}

impl Model for Task {
    ghost use Rattle.tasks.specs.Views.{TaskView};

    ghost Value = { TaskView };

    ghost view = { λ t. record { kind = t.kind; caller = t.caller; phase = t.phase; resolution = t.resolution; cancellation = t.cancellation; borrows = t.borrows } };
}

impl Task {
    /// A new task.
    pub fn new(kind: Kind, caller: Caller) -> Task
        ensures exact { result ≡ new_task kind caller }
        ensures stands { StandsFor (history_of kind caller) result }
    {
        Task {
            kind,
            caller,
            phase: Phase::New,
            resolution: None,
            cancellation: Cancellation::NotAsked,
            borrows: 0,
        }
    }

    /// Lets something happen to the task, or says why it may not. Of several reasons it is the first in the order of
    /// `SyncTask`, `NotAsked`, `Resolved` and `BorrowLives`, and the task is as it was.
    ///
    /// `AskReturn` can be refused as `SyncTask`, `Return` as `Resolved` or `BorrowLives`, and `Cancel` by each of the
    /// four. `may_happen` tells whether the caller may ask for the event at all.
    #[tactic(auto, using(crate::proofs::Standing::advanced_stands))]
    pub fn advance(&mut self, event: TaskEvent) -> Result<(), TaskTrap>
        requires { IsTrue (may_happen event self.old) }
        ensures answer { result ≡ answer (fault event self.old) }
        ensures exact { self.new ≡ advanced event self.old }
        ensures stands { (h : History) → StandsFor h self.old → StandsFor (happened (fault event self.old) event h) self.new }
    {
        if let Some(trap) = self.fault(event) {
            return Err(trap);
        }
        self.happen(event);
        Ok(())
    }

    /// Whether the caller may ask for this event now. A task enters once, blocks only while it acts or at its entry, and
    /// goes on only where it is blocked elsewhere. It returns, cancels itself and exits while it acts. Borrow handles are
    /// made before it is resolved. It is told of a cancellation that is asked, once. Only a task that nobody called exits
    /// unresolved.
    pub fn may_happen(&self, event: TaskEvent) -> bool
        ensures exact { result ≡ may_happen event self.now }
    {
        match event {
            TaskEvent::Enter => self.phase.is_new() || self.phase.waits_to_enter(),
            TaskEvent::Block(why, _) => {
                if why.is_entry() {
                    self.phase.is_new()
                } else {
                    self.phase.is_acting()
                }
            }
            TaskEvent::Go => self.phase.waits_inside(),
            TaskEvent::AskReturn => self.phase.is_acting(),
            TaskEvent::Return => self.phase.is_acting(),
            TaskEvent::Cancel => self.phase.is_acting(),
            TaskEvent::Borrow => {
                self.phase.is_acting() && (self.resolution.is_none() && self.borrows < u64::MAX)
            }
            TaskEvent::Unborrow => 0 < self.borrows,
            TaskEvent::ToldCancel => self.cancellation.is_asked(),
            TaskEvent::Exit => {
                self.phase.is_acting() && (self.resolution.is_some() || self.caller.is_nobody())
            }
        }
    }

    /// Asks that the task be cancelled, which is unresolved and of which that wasn't asked before. `entry_free` says
    /// whether no task holds exclusive entry to its instance.
    ///
    /// A task that waits to enter is removed: it is cancelled and over. One in a cancellable wait is to go on at once, and
    /// any other is told later. A wait is cancellable in the task's loop where `entry_free`, and in a wait or `yield` with
    /// that flag where the task isn't lifted without `async`.
    #[tactic(auto, using(crate::proofs::Standing::cancelled_stands))]
    pub fn request_cancel(&mut self, entry_free: bool) -> Asked
        requires { IsTrue (may_cancel self.old) }
        ensures answer { result ≡ cancel_case entry_free self.old }
        ensures exact { self.new ≡ cancelled (cancel_case entry_free self.old) self.old }
        ensures stands { (h : History) → StandsFor h self.old → StandsFor (asked_for (cancel_case entry_free self.old) h) self.new }
    {
        let case = self.cancel_case(entry_free);
        self.ask(case);
        case
    }

    /// Whether a cancellation may be asked for: the task is unresolved, and none was asked before.
    pub fn may_cancel(&self) -> bool
        ensures exact { result ≡ may_cancel self.now }
    {
        self.resolution.is_none() && self.cancellation.is_unasked()
    }

    /// How its core function is lifted.
    pub fn kind(&self) -> Kind
        ensures exact { result ≡ self.now.kind }
    {
        self.kind
    }

    /// Who called it.
    pub fn caller(&self) -> Caller
        ensures exact { result ≡ self.now.caller }
    {
        self.caller
    }

    /// Where it is.
    pub fn phase(&self) -> Phase
        ensures exact { result ≡ self.now.phase }
    {
        self.phase
    }

    /// How it is resolved, if it is.
    pub fn resolution(&self) -> Option<Resolution>
        ensures exact { result ≡ self.now.resolution }
    {
        self.resolution
    }

    /// How far a cancellation is.
    pub fn cancellation(&self) -> Cancellation
        ensures exact { result ≡ self.now.cancellation }
    {
        self.cancellation
    }

    /// How many live borrow handles were made for it.
    pub fn borrows(&self) -> u64
        ensures exact { result ≡ self.now.borrows }
    {
        self.borrows
    }

    /// The state of the subtask that it is for its caller.
    pub fn state(&self) -> SubtaskState
        ensures exact { result ≡ state_of self.now }
    {
        match self.resolution {
            Some(Resolution::Returned) => SubtaskState::Returned,
            Some(Resolution::Cancelled) => {
                if self.cancellation.is_told() {
                    SubtaskState::CancelledBeforeReturned
                } else {
                    SubtaskState::CancelledBeforeStarted
                }
            }
            None => self.phase.open_state(),
        }
    }

    /// Why an event is refused: the first failed test.
    fn fault(&self, event: TaskEvent) -> Option<TaskTrap>
        ensures { result ≡ fault event self.now }
    {
        match event {
            TaskEvent::AskReturn => self.asking_fault(),
            TaskEvent::Return => self.resolving_fault(),
            TaskEvent::Cancel => self.cancel_fault(),
            _ => None,
        }
    }

    /// Why `task.return` can't be called.
    fn asking_fault(&self) -> Option<TaskTrap>
        ensures { result ≡ asking_fault self.now }
    {
        if is_sync(self.kind) {
            Some(TaskTrap::SyncTask)
        } else {
            None
        }
    }

    /// Why `task.cancel` can't be called.
    fn cancel_fault(&self) -> Option<TaskTrap>
        ensures { result ≡ cancel_fault self.now }
    {
        if is_sync(self.kind) {
            return Some(TaskTrap::SyncTask);
        }
        if self.cancellation.is_told() {
            self.resolving_fault()
        } else {
            Some(TaskTrap::NotAsked)
        }
    }

    /// Why the task can't be resolved.
    fn resolving_fault(&self) -> Option<TaskTrap>
        ensures { result ≡ resolving_fault self.now }
    {
        if self.resolution.is_some() {
            return Some(TaskTrap::Resolved);
        }
        if 0 < self.borrows {
            return Some(TaskTrap::BorrowLives);
        }
        None
    }

    /// Lets an event happen.
    fn happen(&mut self, event: TaskEvent)
        requires { IsTrue (may_happen event self.old) }
        ensures { self.new ≡ after event self.old }
    {
        match event {
            TaskEvent::Enter => self.phase = Phase::Acting,
            TaskEvent::Block(why, flag) => self.phase = Phase::Blocked(why, flag),
            TaskEvent::Go => self.phase = Phase::Acting,
            TaskEvent::AskReturn => {}
            TaskEvent::Return => self.resolution = Some(Resolution::Returned),
            TaskEvent::Cancel => self.resolution = Some(Resolution::Cancelled),
            TaskEvent::Borrow => self.borrows += 1,
            TaskEvent::Unborrow => self.borrows -= 1,
            TaskEvent::ToldCancel => self.cancellation = Cancellation::Delivered,
            TaskEvent::Exit => self.phase = Phase::Exited,
        }
    }

    /// Lets a cancellation be asked, of which this comes.
    fn ask(&mut self, case: Asked)
        ensures { self.new ≡ cancelled case self.old }
    {
        match case {
            Asked::Removed => {
                self.resolution = Some(Resolution::Cancelled);
                self.phase = Phase::Exited;
            }
            Asked::ResumeNow => self.cancellation = Cancellation::Asked,
            Asked::Pending => self.cancellation = Cancellation::Asked,
        }
    }

    /// What comes of a request to cancel the task.
    fn cancel_case(&self, entry_free: bool) -> Asked
        ensures { result ≡ cancel_case entry_free self.now }
    {
        match self.phase {
            Phase::New => Asked::Pending,
            Phase::Acting => Asked::Pending,
            Phase::Blocked(why, flag) => blocked_case(entry_free, self.kind, why, flag),
            Phase::Exited => Asked::Pending,
        }
    }
}

/// What comes of a request to cancel a task that is blocked there.
fn blocked_case(entry_free: bool, kind: Kind, why: BlockedAt, flag: bool) -> Asked
    ensures { result ≡ blocked_case entry_free kind why flag }
{
    if why.is_entry() {
        return Asked::Removed;
    }
    if why.is_cancellable(entry_free, kind, flag) {
        Asked::ResumeNow
    } else {
        Asked::Pending
    }
}
