//! The end of what is read.

ghost use Rattle.std.specs.Prelude.{◌≡◌, OnErr};
ghost use Rattle.ca_base.specs.Grammar.{Reads};
ghost use Rattle.ca_base.specs.Items.{at_end};

use crate::reason::Reason;
use crate::refusal::Refusal;
use crate::window::Window;

impl<'a, W: Reason> Window<'a, W> {
    /// Reads that no byte is left. A byte that is left is refused. A refused call leaves the window as it was.
    #[tactic(auto, unfolding(crate::specs::Items::at_end))]
    pub fn at_end(&mut self) -> Result<(), Refusal<W>>
        ensures reads { Reads (λ _. tt) (at_end W.reasons) self.old self.new result }
        ensures err { OnErr result (self.new ≡ self.old) }
    {
        if self.is_empty() {
            return Ok(());
        }
        let mut ahead = self.ahead();
        let place = ahead.at();
        let byte = ahead.byte()?;
        Err(Refusal {
            place,
            why: W::unsupported(byte),
        })
    }
}
