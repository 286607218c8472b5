//! Readers of the items that both formats have.

ghost use Rattle.std.specs.Prelude.{◌≡◌, OnErr};
ghost use Rattle.ca_base.specs.Grammar.{Reads};
ghost use Rattle.ca_base.specs.Items.{fixed, marker, name, custom, OpensSized};

use crate::reason::{NumberReason, Reason};
use crate::refusal::Refusal;
use crate::window::Window;

impl<'a, W: Copy> Window<'a, W> {
    /// Reads these bytes. The first other byte is refused for the given reason. A refused call leaves the window as it
    /// was.
    #[tactic(auto, unfolding(crate::specs::Items::fixed))]
    pub fn fixed(&mut self, bytes: &[u8], why: W) -> Result<(), Refusal<W>>
        ensures reads { Reads (λ _. tt) (fixed why bytes.now) self.old self.new result }
        ensures err { OnErr result (self.new ≡ self.old) }
    {
        let mut ahead = self.ahead();
        for byte in bytes {
            let wanted = *byte;
            let place = ahead.at();
            let found = ahead.byte()?;
            if found != wanted {
                return Err(Refusal { place, why });
            }
        }
        *self = ahead;
        Ok(())
    }
}

impl<'a, W: NumberReason> Window<'a, W> {
    /// Reads a name (Core 2.0, section 5.2.4): a length in bytes, and so many bytes of UTF-8. Where they are not UTF-8,
    /// the first byte behind their longest front that is gets refused, for the reason of names. A length is refused as
    /// `u32` refuses it, and one that passes the window's end at that end. A refused call leaves the window as it was.
    pub fn name(&mut self) -> Result<&'a str, Refusal<W>>
        ensures reads { Reads (λ text. text.now) (name W.numbers) self.old self.new result }
        ensures err { OnErr result (self.new ≡ self.old) }
    {
        let mut ahead = self.ahead();
        let text = ahead.text()?;
        *self = ahead;
        Ok(text)
    }

    /// Reads a name.
    #[tactic(auto, using(crate::proofs::Utf8::is_whole, crate::proofs::Utf8::is_cut, std::proofs::lemmas::Str::utf8_valid_len_le), unfolding(crate::specs::Items::name))]
    fn text(&mut self) -> Result<&'a str, Refusal<W>>
        ensures { Reads (λ text. text.now) (name W.numbers) self.old self.new result }
    {
        let count = self.u32()?;
        let place = self.at();
        let bytes = self.take(count as usize)?;
        match simdutf8::compat::from_utf8(bytes) {
            Ok(text) => Ok(text),
            Err(error) => Err(Refusal {
                place: place + error.valid_up_to(),
                why: W::utf8(),
            }),
        }
    }

    /// Reads a name and any bytes, as far as the window goes: what a custom section holds (Core 2.0, section 5.5.3).
    /// It is refused where `name` is. A refused call leaves the window as it was.
    #[tactic(auto, unfolding(crate::specs::Items::custom))]
    pub fn custom(&mut self) -> Result<(), Refusal<W>>
        ensures reads { Reads (λ _. tt) (custom W.numbers) self.old self.new result }
        ensures err { OnErr result (self.new ≡ self.old) }
    {
        let mut ahead = self.ahead();
        ahead.name()?;
        let count = ahead.left();
        ahead.take(count)?;
        *self = ahead;
        Ok(())
    }
}

impl<'a, W: Reason> Window<'a, W> {
    /// Reads this byte. Another one is refused. A refused call leaves the window as it was.
    #[tactic(auto, unfolding(crate::specs::Items::marker))]
    pub fn marker(&mut self, byte: u8) -> Result<u8, Refusal<W>>
        ensures reads { Reads (λ b. b) (marker W.reasons byte) self.old self.new result }
        ensures err { OnErr result (self.new ≡ self.old) }
    {
        let mut ahead = self.ahead();
        let place = ahead.at();
        let found = ahead.byte()?;
        if found == byte {
            *self = ahead;
            Ok(found)
        } else {
            Err(Refusal {
                place,
                why: W::unsupported(found),
            })
        }
    }

    /// Reads a size in bytes, and opens so many bytes as a window of their own, which the caller has to fill: what
    /// passes the end of those is refused for the reason of a section's size. A size is refused as `u32` refuses it, and
    /// one that passes the end of this window at that end. A refused call leaves the window as it was.
    pub fn open(&mut self) -> Result<Window<'a, W>, Refusal<W>>
        ensures opens { OpensSized W.numbers W.reasons self.old self.new result }
        ensures err { OnErr result (self.new ≡ self.old) }
    {
        let mut ahead = self.ahead();
        let inner = ahead.part()?;
        *self = ahead;
        Ok(inner)
    }

    /// Opens what a size tells the length of.
    #[tactic(auto, using(crate::proofs::Sizes::opened))]
    fn part(&mut self) -> Result<Window<'a, W>, Refusal<W>>
        ensures { OpensSized W.numbers W.reasons self.old self.new result }
    {
        let size = self.u32()?;
        self.sized(size as usize, W::section_size())
    }
}
