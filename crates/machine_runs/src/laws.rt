//! Runs go on.

ghost use Rattle.value_parts.specs.Fit.{PassesStayFit};
ghost use Rattle.machine_runs.specs.Worlds.{first_point, StepsOn};
ghost use Rattle.machine_runs.specs.Fit.{ModulesFit};

use programs::Program;
use value_parts::PassesValues;

/// What a step asks for holds in each world to which fewer than 2^35 steps lead, where the modules of a graph are valid, and values are passed
/// by what leaves stacks typed and lends handles no more often than it counts what it lifts. That a rule applies there is not said.
pub fn runs_step_on<V: PassesValues>(program: &Program<'_, '_>)
    requires valid { ModulesFit program.now.graph.now }
    requires fit { PassesStayFit V.may_pass program.now }
    ensures { StepsOn V.may_pass program.now (first_point program.now.graph.now program.now.script.now) }
{}
