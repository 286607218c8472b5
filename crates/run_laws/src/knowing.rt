//! What is asked of a move, from that a run reaches the world.

ghost use Rattle.run_laws.specs.SuppliedEarly.{EarlyCallsAreInside};
ghost use Rattle.run_laws.specs.SuppliedMemories.{RunnableGraphsNameFirst};
ghost use Rattle.run_laws.specs.SuppliedWorlds.{WorldsAreSupplied};

/// In each world that a run reaches, of a graph whose definitions are apart and a script that passes no end, a subtask that stands in a table was called from that component instance and
/// runs in another one; a task that cancels cancels another one, which was called from its own component instance; a copy that is to be told is waited for directly exactly where its call
/// waits; and an end stands once, and was not dropped.
pub fn worlds_are_supplied()
    ensures { WorldsAreSupplied }
{}

/// Where definitions of a graph are apart and its plan begins the component instance of each core instance before it makes that one, the component instance is there of a canonical function that is called while not
/// all is instantiated.
pub fn early_calls_are_inside()
    ensures { EarlyCallsAreInside }
{}

/// Options of a graph that can run name the first memory of a module: this is valid, so it has one at most, and what options name is there.
pub fn runnable_graphs_name_first()
    ensures { RunnableGraphsNameFirst }
{}
