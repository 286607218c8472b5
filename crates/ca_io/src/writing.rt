//! Writing a whole part to a sink.

ghost use Rattle.std.specs.Prelude.{◌≡◌, length, OnOk, OnErr, Ok};
ghost use Rattle.ca_io.specs.Causes.{HasCause};
ghost use Rattle.ca_io.specs.Bytes.{grown, TookFront};

use crate::failed::Failed;
use crate::sink::Sink;

/// Writes a whole part to a sink, in as many writes as it takes. An empty part makes no write.
///
/// `Failed` comes where a write fails: the sink has then taken some front of the part, and nothing after it.
#[tactic(auto, using(crate::proofs::Pieces::grown_more))]
pub fn write_all<K: Sink>(sink: &mut K, part: &[u8]) -> Result<(), Failed>
    ensures ok { OnOk result (K.taken sink.new ≡ grown (K.taken sink.old) part.now) }
    ensures failed { OnErr result (TookFront (K.taken sink.old) (K.taken sink.new) part.now) }
    ensures empty { length part.now ≡ 0 → sink.new ≡ sink.old }
    ensures cause { HasCause (K.faults sink.old) (K.faults sink.new) result }
{
    let mut done = 0;
    while done < part.len() {
        done += sink.write(&part[done..])?;
    }
    Ok(())
}
