//! What the laws of asynchronous calls ask of a graph holds of every linked one.

ghost use Rattle.async_graph_laws.specs.Laws.{LinkedDefinitionsAreApart, LinkedGraphsAreTyped, ReadGraphsAreTyped, LinkedGraphsAreUsed, LinkedGraphsTellEnds, LinkedGraphsPassNoBorrow, CallsAreForGraphs, ReadScriptsAreForGraphs};
ghost use Rattle.async_graph_laws.specs.Plans.{LinkedInstancesBegin, LinkedMakesFollow};
ghost use Rattle.async_graph_laws.specs.ReadFits.{ReadRunsFit};
ghost use Rattle.async_graph_laws.specs.ReadRuns.{ReadRunsAreRunnable, ReadRunsHaveOneNext, NoReadRunIsStuck, ReadRunsAreOne};
ghost use Rattle.async_graph_laws.specs.ReadWorlds.{ReadWorldsAreKnown};

use graph_laws::laws::{
    read_data_are_bytes, read_modules_are_typed, read_scripts_pass_in_range,
    read_types_are_labelled,
};
use link_spec::laws::graphs_are_sound;
use reach_laws::{
    calls_are_known, copies_are_known, ends_are_known, exactly_one_next, one_run_comes,
    read_scripts_pass_no_handles, scripts_pass_typed,
};
use script_reader::scripts_call_exports;

/// In a linked graph what a core instance imports, the core function of a lift, a destructor, and what the options of canonical definitions give,
/// callbacks too, were made by their own component instance; and the plan makes each core instance, in order. So a task runs code of the
/// component instance of its function alone.
pub fn linked_definitions_are_apart()
    ensures { LinkedDefinitionsAreApart }
{}

/// A linked graph has what the laws of typed stacks ask of one, if the modules of its component are typed and in range, and so it has if this is
/// read: what each core instance imports is there and fits, and the plan makes each, in order. What lifts and lowers use is there in every linked
/// graph, with the types that they ask for, and so are destructors.
pub fn linked_graphs_are_typed()
    ensures typed { LinkedGraphsAreTyped }
    ensures read { ReadGraphsAreTyped }
    ensures used { LinkedGraphsAreUsed }
{
    graphs_are_sound();
    read_modules_are_typed();
}

/// A script that cancels calls before alone, and whose items call exports of a graph that has what its lifts use, with values of their parameters' types, is for
/// that graph; and so is one that is read for the exports of a linked graph, which cancels such calls alone. So what its items name is there in every world.
pub fn scripts_are_for_graphs()
    ensures calls { CallsAreForGraphs }
    ensures read { ReadScriptsAreForGraphs }
{
    graphs_are_sound();
    scripts_call_exports();
}

/// The types of streams and futures that a linked graph tells are such, none of them stands twice, and the type of each built-in of ends is
/// among them: so each such built-in has one number among them.
pub fn linked_graphs_tell_ends()
    ensures { LinkedGraphsTellEnds }
{}

/// No borrowed handle is in what an export or a function that is lowered gives, in what `task.return` returns, or in what passes in the
/// streams and the futures of a linked graph: a handle is borrowed for a call alone. So loans that a call holds are given back.
pub fn linked_graphs_pass_no_borrow()
    ensures { LinkedGraphsPassNoBorrow }
{
    graphs_are_sound();
}

/// The plan of a linked graph begins the component instances that its functions and canonical functions name, and that of each core instance before it makes
/// this one.
pub fn linked_plans_begin()
    ensures begins { LinkedInstancesBegin }
    ensures follow { LinkedMakesFollow }
{}

/// The graph to which a component file is read and linked, and a script that is read for what it exports, are what the laws of reached worlds ask
/// for: so each of these laws holds of every file and every text that is read so.
pub fn read_runs_are_runnable()
    ensures { ReadRunsAreRunnable }
{
    linked_definitions_are_apart();
    linked_graphs_are_typed();
    graphs_are_sound();
    read_data_are_bytes();
    scripts_are_for_graphs();
    read_types_are_labelled();
    read_scripts_pass_in_range();
    scripts_pass_typed();
}

/// They also are what laws of runs of the code ask of a graph and a script: besides, the plan of the graph begins the instances that are named, each before
/// its core instances are made, its results and elements hold no borrow, and the script passes no end of a stream or a future.
pub fn read_runs_fit()
    ensures { ReadRunsFit }
{
    read_runs_are_runnable();
    linked_plans_begin();
    linked_graphs_pass_no_borrow();
    read_scripts_pass_no_handles();
}

/// Of each component file that is read and linked, and each script that is read for it: in each world that the machine reaches a step or the end of
/// the run comes next, and one alone. So no world is stuck, and there is exactly one run, with its lines, its last world and its end.
pub fn read_runs_have_one_next()
    ensures one { ReadRunsHaveOneNext }
    ensures goes_on { NoReadRunIsStuck }
    ensures run { ReadRunsAreOne }
{
    read_runs_are_runnable();
    exactly_one_next();
    one_run_comes();
}

/// Of each component file that is read and linked, and each script that is read for it: in each world that the machine reaches a subtask was called from the
/// instance in whose table it stands and runs in another one, an end stands once and was not dropped, and the task of a copy whose call waits waits for it.
pub fn read_worlds_are_known()
    ensures { ReadWorldsAreKnown }
{
    linked_definitions_are_apart();
    read_scripts_pass_no_handles();
    calls_are_known();
    ends_are_known();
    copies_are_known();
}
