//! What a call of the program answers, by what its words ask for.

ghost use Rattle.std.specs.Prelude.{◌≡◌, ℕ, List, Some, IfOk};
ghost use Rattle.command_words.specs.Words.{asked, Pipe};
ghost use Rattle.wcm.specs.Coming.{Comes};
ghost use Rattle.wcm.specs.Status.{IsAnswered};
ghost use Rattle.wcm.specs.Stops.{StopsFor, WritesFor};

use crate::answer::{Answer, Stop, answer_of};
use crate::piped::pipe_answer;
use ca_io::{Files, Sink};
use command_words::Request;
use std::alloc::Global;

/// The answer to what words ask for: of a command over the files that it names, whose trace goes out as its run goes; or of a pipe, which
/// reads no files, and of which nothing goes out before there is an answer.
#[tactic(auto, using(crate::proofs::Coming::sent_none, crate::proofs::Coming::comes_whole))]
pub fn answer_to<F: Files, K: Sink>(
    alloc: Global,
    request: Request,
    files: &mut F,
    out: &mut K,
) -> Result<Answer, Stop>
    ensures comes { Comes (F.held files.old) (Some (asked request.entry)) (K.taken out.old) (K.taken out.new) result }
    ensures status { IfOk result (λ a. IsAnswered a.status) }
    ensures same { (other : List ℕ) → F.held files.new other ≡ F.held files.old other }
    ensures pipe { (seed count : ℕ) → asked request.entry ≡ Pipe seed count → files.new ≡ files.old }
    ensures cause { StopsFor (F.faults files.old) (F.faults files.new) result }
    ensures writes { WritesFor (K.faults out.old) (K.faults out.new) result }
{
    match request {
        Request::OfFile(command) => answer_of(alloc, command, files, out),
        Request::Pipe { seed, count } => Ok(pipe_answer(alloc, seed, count)?),
    }
}
