//! What passing values leaves as it was.

ghost use Rattle.value_parts.specs.Fit.{PassesStayFit};
ghost use Rattle.value_moves.specs.Passing.{Passes};

use programs::Program;

/// Passing values lets the store grow only as code that runs lets it grow, so that each stack stays typed, and lends a handle no more often than it
/// counts what it lifts.
pub fn passes_stay_fit(program: &Program<'_, '_>)
    ensures { PassesStayFit Passes program.now }
{}
