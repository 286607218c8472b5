//! Runs of core code, instantiation, lowerings, copies, tasks that enter, and results.

ghost use Rattle.run_laws.specs.Completed.{CopyIsCompleted};
ghost use Rattle.run_laws.specs.Copied.{ElementsGoOver};
ghost use Rattle.run_laws.specs.Elements.{ElementsLead};
ghost use Rattle.run_laws.specs.Entered.{TaskEnters};
ghost use Rattle.run_laws.specs.Instantiation.{InstantiationAgrees};
ghost use Rattle.run_laws.specs.Lowered.{LowersAtLeads};
ghost use Rattle.run_laws.specs.Results.{TaskEndsWithResult, TaskReturnsResult};
ghost use Rattle.run_laws.specs.Runs.{RunStepsAgree};
ghost use Rattle.run_laws.specs.Transfers.{CopiesTransfer};

/// Where the acting task's stack is to run, and a rule applies, a step of the kept machine does what the machine does by its turns: up to a call, to
/// the end of the stack, to a trap, or to the end of the run where fuel is wanting. It asks that the acting task is the one that control tells (`IsOrdered`).
pub fn run_steps_agree()
    ensures { RunStepsAgree }
{}

/// What a lowering comes to over what is kept, where a rule applies, the machine comes to from where it follows the same plan: what follows the core
/// values, where what is kept stands for the world from which that goes on, the same trap, or the end of the run where fuel is wanting.
pub fn lowerings_stand()
    ensures { LowersAtLeads }
{}

/// Where task 0 instantiates, and a rule applies, a step of the kept machine does what the machine does by a turn: a component instance begins, a core
/// instance is made, a segment that does not fit is a trap, and behind the last action no task runs.
pub fn instantiation_agrees()
    ensures { InstantiationAgrees }
{}

/// The elements of a copy that are lowered over what is kept lead where the machine goes along its plan, where their place is aligned and all of them
/// are inside the memory.
pub fn elements_stand()
    ensures { ElementsLead }
{}

/// Once the elements of a copy stand at the reader, what is kept does what the machine does, where a rule applies: the copy is counted and has its line,
/// the offer that was met is told of it, and the call that met it is answered.
pub fn copies_are_completed()
    ensures { CopyIsCompleted }
{}

/// What elements come to that go over, where a rule applies, the machine comes to behind the turn in which they are lifted: the call that met the offer
/// is completed, or there is the same trap, or the run ends where fuel is wanting. It asks that what goes over stands for what the machine found, that
/// the place at the reader was tested, and that the program is of the graph.
pub fn elements_go_over()
    ensures { ElementsGoOver }
{}

/// What a copy comes to that a read or a write begins, where a rule applies, the machine comes to from where it has found that elements go over: the
/// same end and the same offer are found, the same elements go over, and the call is completed.
pub fn copies_transfer()
    ensures { CopiesTransfer }
{}

/// What a task comes to that enters, where a rule applies and it runs a lifted function, the machine comes to: its arguments are lifted from its caller
/// and lowered into its own instance, and its core function is to start with the same words, or there is the same trap, or fuel is wanting.
pub fn tasks_enter()
    ensures { TaskEnters }
{}

/// What `task.return` comes to, behind the test that the task may return, and what the end of a core function comes to that is lifted without `async`,
/// where a rule applies, the machine comes to: the result is lifted, the task has returned, its result is lowered into the caller, and the task goes on,
/// or its post-return runs and it is to exit; or there is the same trap, or fuel is wanting.
pub fn results_pass()
    ensures returned { TaskReturnsResult }
    ensures ended { TaskEndsWithResult }
{}
