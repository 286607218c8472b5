//! What holds of the definitions alone.

ghost use Rattle.wcm.specs.Laws.{CausesHaveAnswers, OneAnswer, OnePipe, RefusedFilesTellAll, SomeAnswer, StatusesHaveCauses, TracesAreFronts};

use abi_machine::one_run;
use async_graph_laws::laws::read_runs_have_one_next;
use comp_reader::one_reading;
use link_spec::laws::graphs_are_computed;
use one_run_laws::runs_are_one;

/// Where the files that words ask for are told, there is one answer at the most, but for the text for the error output where the words are
/// no command, and of dumps for want of fuel for each program; and there is one, where the files are of bytes and there is no
/// such dump.
pub fn one_answer()
    ensures one { OneAnswer }
    ensures some { SomeAnswer }
{
    one_run();
    runs_are_one();
    one_reading();
    graphs_are_computed();
    read_runs_have_one_next();
}

/// Where the files that words ask for are told, the trace of a run is a front of what each answer has for the output.
pub fn traces_are_fronts()
    ensures { TracesAreFronts }
{
    one_run();
}

/// A pipe has one answer at the most.
pub fn one_pipe()
    ensures { OnePipe }
{
    one_run();
}

/// The status of an answer has its cause, and each cause has an answer with its status, where what runs leave is told of their last
/// worlds. A component file that is told and refused, or
/// whose component is not linked, leaves nothing to be told.
pub fn statuses_have_causes()
    ensures causes { StatusesHaveCauses }
    ensures answers { CausesHaveAnswers }
    ensures told { RefusedFilesTellAll }
{}
