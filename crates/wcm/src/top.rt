//! The top call.

ghost use Rattle.std.specs.Prelude.{false, Some, ◌≡◌, ◌≢◌, ◌<◌, ◌⊎◌, ◌∷◌, ◌++◌, ℕ, List, [], None, OnOk, OnErr, map, string_bytes, codes};
ghost use Rattle.ca_io.specs.Causes.{Rose};
ghost use Rattle.ca_io.specs.Bytes.{grown, TookFront};
ghost use Rattle.wcm.specs.declared.answer.Answer.{Answer};
ghost use Rattle.wcm.specs.Coming.{WentOut};
ghost use Rattle.wcm.specs.Piped.{Answered, IsAskedFor, IsAskedTold};
ghost use Rattle.wcm.specs.Status.{IsFinal};
ghost use Rattle.command_words.specs.Words.{Request, Pipe, is_taken, plain_request, request_of};
ghost use Rattle.wcm.specs.Traced.{WroteTrace};
ghost use Rattle.wcm.specs.Written.{WroteAll, WroteFront, WroteFrontOrLine};

use crate::answer::{Answer, Stop};
use crate::asked::answer_to;
use crate::status::Status;
use abi_machine::one_run;
use ca_io::{Failed, Files, Sink, write_all};
use command_words::request_of;
use faults::MemoryOr;
use std::alloc::Global;

/// The line for a file that was not read.
const READ_FAULT: &[u8] = b"read fault\n";

/// The line for want of memory.
const WANT_OF_MEMORY: &[u8] = b"want of memory\n";

/// Writes an answer: its text for the output, and then its text for the error output.
#[tactic(auto, using(crate::proofs::Taken::took_all))]
fn write_answer<K: Sink>(answer: &Answer, out: &mut K, err: &mut K) -> Result<(), Failed>
    ensures ok { OnOk result (WroteAll answer.now (K.taken out.old) (K.taken out.new) (K.taken err.old) (K.taken err.new)) }
    ensures failed { OnErr result (WroteFront answer.now (K.taken out.old) (K.taken out.new) (K.taken err.old) (K.taken err.new)) }
    ensures same_out { OnOk result (K.faults out.new ≡ K.faults out.old) }
    ensures same_err { OnOk result (K.faults err.new ≡ K.faults err.old) }
    ensures cause { OnErr result (Rose (K.faults out.old) (K.faults out.new) ⊎ Rose (K.faults err.old) (K.faults err.new)) }
{
    write_all(out, answer.out.as_slice())?;
    write_all(err, answer.err.as_slice())?;
    Ok(())
}

/// Runs the command that the words say, over the files, the output and the error output that are handed in, and
/// answers how it ends. `words[0]` is the program's name. `check`, `show` and `run` read and link the component file FILE. Then
/// `check FILE` tells that it is linked, `show FILE` what can be called of it, and `run FILE SCRIPT` reads the script file,
/// makes the core instances and then the script's calls, and writes the trace to the output as the run goes; with `--dump` what
/// the run leaves stands behind it. `pipe SEED N` makes a component in which N numbers go through a stream, runs it, and tells in
/// four lines what went through. For words that are none of these a text for the user goes to the error output.
///
/// What it answers is a row of `Answers`, by the command that the words lead to and what the files may hold: what is told of them, or
/// anything. They are told where the component file is, and, where `run` finds that one linked, the script file too. For a pipe it is
/// a row of `PipeAnswers`, by both numbers alone.
#[tactic(auto, using(crate::proofs::Taken::grown_nil, crate::proofs::Taken::took, command_words::proofs::Plain::plain_is))]
pub fn run_words<F: Files, K: Sink>(
    alloc: Global,
    words: &[String],
    files: &mut F,
    out: &mut K,
    err: &mut K,
) -> Status
    // While no source or sink fails and memory lasts, what is written are the texts of an answer, and nothing else.
    ensures headline { (Rose (F.faults files.old) (F.faults files.new) → ⊥)
        → (Rose (K.faults out.old) (K.faults out.new) → ⊥)
        → (Rose (K.faults err.old) (K.faults err.new) → ⊥)
        → result ≢ Status.Memory
        → (a : Answer) × Answered (F.held files.old) (request_of (map string_bytes words.now)) a × (result ≡ a.status)
        × WroteAll a (K.taken out.old) (K.taken out.new) (K.taken err.old) (K.taken err.new) }

    // The same where no fault and no want of memory ended the call. Where the files are told, each status comes exactly where it has a
    // cause in what they hold.
    ensures written { IsFinal result
        → (a : Answer) × Answered (F.held files.old) (request_of (map string_bytes words.now)) a × (result ≡ a.status)
        × WroteAll a (K.taken out.old) (K.taken out.new) (K.taken err.old) (K.taken err.new) }
    ensures status { IsFinal result → IsAskedFor (F.held files.old) (request_of (map string_bytes words.now)) result }

    // Usage only where clap's command does not take the words; wherever it does not, unless a write fault or want of memory
    // took its place. The files and the output are left alone then. Plain words lead to what they ask for.
    ensures usage { result ≡ Status.Usage → is_taken (map string_bytes words.now) ≡ false }
    ensures usage_is_told { is_taken (map string_bytes words.now) ≡ false
        → (result ≡ Status.Usage) ⊎ (result ≡ Status.WriteFault) ⊎ (result ≡ Status.Memory) }
    ensures usage_is_silent { is_taken (map string_bytes words.now) ≡ false → (files.new ≡ files.old) × (out.new ≡ out.old) }
    ensures plain { (request : Request) → plain_request (map string_bytes words.now) ≡ Some request
        → (request_of (map string_bytes words.now) ≡ Some request) × (result ≢ Status.Usage) }

    // A read fault, only where the count of the files' faults rose; wherever it grew, unless a write fault or want of
    // memory took its place. The output took nothing, and the error output the line.
    ensures read_fault { result ≡ Status.ReadFault → Rose (F.faults files.old) (F.faults files.new) }
    ensures read_fault_is_told { F.faults files.old < F.faults files.new
        → (result ≡ Status.ReadFault) ⊎ (result ≡ Status.WriteFault) ⊎ (result ≡ Status.Memory) }
    ensures read_fault_line { result ≡ Status.ReadFault → (K.taken out.new ≡ K.taken out.old)
        × (K.taken err.new ≡ grown (K.taken err.old) (codes "read fault" ++ 10 ∷ [])) }

    // A write fault, only where the count of a sink's faults rose; wherever it grew, unless want of memory took its
    // place. Each output took a front of an answer's text. Or it was a write of a run's trace, what the run leaves is asked for, and the
    // machine's run ends for want of fuel, so that of what it leaves no text is known: the output took a front of that run's
    // trace, and the error output nothing. Or a file was not read and the count of the files' faults rose, the output took nothing, and
    // the error output a front of the line.
    ensures write_fault { result ≡ Status.WriteFault
        → Rose (K.faults out.old) (K.faults out.new) ⊎ Rose (K.faults err.old) (K.faults err.new) }
    ensures write_fault_is_told { (K.faults out.old < K.faults out.new) ⊎ (K.faults err.old < K.faults err.new)
        → (result ≡ Status.WriteFault) ⊎ (result ≡ Status.Memory) }
    ensures write_fault_front { result ≡ Status.WriteFault
        → (((a : Answer) × Answered (F.held files.old) (request_of (map string_bytes words.now)) a
        × WroteFront a (K.taken out.old) (K.taken out.new) (K.taken err.old) (K.taken err.new))
        ⊎ WroteTrace (F.held files.old) (request_of (map string_bytes words.now)) (K.taken out.old) (K.taken out.new) (K.taken err.old) (K.taken err.new))
        ⊎ (Rose (F.faults files.old) (F.faults files.new)
        × (K.taken out.new ≡ K.taken out.old)
        × TookFront (K.taken err.old) (K.taken err.new) (codes "read fault" ++ 10 ∷ [])) }

    // After want of memory the output took nothing, or a front of the trace of the machine's run. So where the files are told it took a front of
    // what the answer has for it, and the error output a front of what the answer has for it or of the line, which is whole where the error
    // output did not fail.
    ensures memory_trace { result ≡ Status.Memory → (K.taken out.new ≡ K.taken out.old)
        ⊎ WentOut (F.held files.old) (request_of (map string_bytes words.now)) (K.taken out.old) (K.taken out.new) }
    ensures memory { IsAskedTold (F.held files.old) (request_of (map string_bytes words.now))
        → (a : Answer) → Answered (F.held files.old) (request_of (map string_bytes words.now)) a → result ≡ Status.Memory
        → WroteFrontOrLine a (codes "want of memory" ++ 10 ∷ []) (K.taken out.old) (K.taken out.new) (K.taken err.old) (K.taken err.new) }
    ensures memory_line { result ≡ Status.Memory → (Rose (K.faults err.old) (K.faults err.new) → ⊥)
        → K.taken err.new ≡ grown (K.taken err.old) (codes "want of memory" ++ 10 ∷ []) }

    // What the files hold stays, and a pipe leaves them alone.
    ensures held { (name : List ℕ) → F.held files.new name ≡ F.held files.old name }
    ensures pipe_reads_nothing { (seed count : ℕ) → request_of (map string_bytes words.now) ≡ Some (Pipe seed count) → files.new ≡ files.old }
{
    one_run();
    match request_of(alloc, words) {
        Ok(request) => match answer_to(alloc, request, files, out) {
            Ok(answer) => match write_answer(&answer, out, err) {
                Ok(()) => answer.status,
                Err(Failed) => Status::WriteFault,
            },
            Err(Stop::Fault) => match write_all(err, READ_FAULT) {
                Ok(()) => Status::ReadFault,
                Err(Failed) => Status::WriteFault,
            },
            Err(Stop::Write) => Status::WriteFault,
            Err(Stop::Memory) => {
                let _ = write_all(err, WANT_OF_MEMORY);
                Status::Memory
            }
        },
        Err(MemoryOr::Fault(text)) => match write_all(err, text.as_slice()) {
            Ok(()) => Status::Usage,
            Err(Failed) => Status::WriteFault,
        },
        Err(MemoryOr::Memory) => {
            let _ = write_all(err, WANT_OF_MEMORY);
            Status::Memory
        }
    }
}
