//! Readers of numbers (Core 2.0, section 5.2.2).

ghost use Rattle.std.specs.Prelude.{◌≡◌, ◌<◌, ◌≤◌, ◌^◌, pos, neg_ℤ, ◌≤ℤ◌, ◌<ℤ◌, OnErr, IfOk};
ghost use Rattle.ca_base.specs.Grammar.{Reads};
ghost use Rattle.ca_base.specs.Items.{u32, s32, s33, s64, unsigned, signed};
ghost use Rattle.ca_base.specs.Numbers.{reach};

use crate::reason::NumberReason;
use crate::refusal::Refusal;
use crate::window::Window;

impl<'a, W: NumberReason> Window<'a, W> {
    /// Reads an unsigned 32-bit number (Core 2.0, section 5.2.2), of one to five bytes. The fifth byte is refused, for
    /// the reason of numbers, where it goes on or sets bits above the 32nd. Bytes that end within the number are
    /// refused at the window's end. A refused call leaves the window as it was.
    pub fn u32(&mut self) -> Result<u32, Refusal<W>>
        ensures reads { Reads (λ n. n) (u32 W.numbers) self.old self.new result }
        ensures err { OnErr result (self.new ≡ self.old) }
    {
        let mut ahead = self.ahead();
        let number = ahead.unsigned(4, 16)?;
        *self = ahead;
        Ok(number as u32)
    }

    /// Reads an unsigned number: at most so many bytes, and then a last one below `top`.
    #[tactic(auto, using(crate::proofs::Leb::reach_none, crate::proofs::Leb::reach_more, crate::proofs::Leb::reach_byte, crate::proofs::Leb::unsigned_last, crate::proofs::Leb::unsigned_past, crate::proofs::Leb::unsigned_left, crate::proofs::Leb::unsigned_ends))]
    fn unsigned(&mut self, more: u8, top: u8) -> Result<u64, Refusal<W>>
        requires top { 1 ≤ top }
        requires fits { reach more top ≤ 2 ^ 64 }
        ensures reads { Reads (λ n. n) (unsigned W.numbers more top) self.old self.new result }
        ensures bound { IfOk result (λ n. n < reach more top) }
    {
        let place = self.at();
        let byte = self.byte()?;
        if more == 0 {
            if byte < top {
                return Ok(u64::from(byte));
            }
            return Err(Refusal {
                place,
                why: W::leb(),
            });
        }
        if byte < 128 {
            return Ok(u64::from(byte));
        }
        let high = self.unsigned(more - 1, top)?;
        Ok(128 * high + u64::from(byte - 128))
    }

    /// Reads a signed 32-bit number (Core 2.0, section 5.2.2), of one to five bytes. The fifth byte is refused, for
    /// the reason of numbers, where it goes on or has bits above the 32nd that do not repeat the sign. Bytes that end
    /// within the number are refused at the window's end. A refused call leaves the window as it was.
    pub fn s32(&mut self) -> Result<i32, Refusal<W>>
        ensures reads { Reads (λ n. n) (s32 W.numbers) self.old self.new result }
        ensures err { OnErr result (self.new ≡ self.old) }
    {
        let mut ahead = self.ahead();
        let number = ahead.signed(4, 8)?;
        *self = ahead;
        Ok(number as i32)
    }

    /// Reads a signed 33-bit number (Core 2.0, section 5.2.2), of one to five bytes. The fifth byte is refused, for
    /// the reason of numbers, where it goes on or has bits above the 33rd that do not repeat the sign. Bytes that end
    /// within the number are refused at the window's end. A refused call leaves the window as it was.
    pub fn s33(&mut self) -> Result<i64, Refusal<W>>
        ensures reads { Reads (λ n. n) (s33 W.numbers) self.old self.new result }
        ensures err { OnErr result (self.new ≡ self.old) }
    {
        let mut ahead = self.ahead();
        let number = ahead.signed(4, 16)?;
        *self = ahead;
        Ok(number)
    }

    /// Reads a signed 64-bit number (Core 2.0, section 5.2.2), of one to ten bytes. The tenth byte is refused, for
    /// the reason of numbers, where it goes on or has bits above the 64th that do not repeat the sign. Bytes that end
    /// within the number are refused at the window's end. A refused call leaves the window as it was.
    pub fn s64(&mut self) -> Result<i64, Refusal<W>>
        ensures reads { Reads (λ n. n) (s64 W.numbers) self.old self.new result }
        ensures err { OnErr result (self.new ≡ self.old) }
    {
        let mut ahead = self.ahead();
        let number = ahead.signed(9, 1)?;
        *self = ahead;
        Ok(number)
    }

    /// Reads a signed number: at most so many bytes, and then a last one whose bits above its sign repeat it. Such a byte
    /// is below `top`, or is one of the `top` bytes below 128.
    #[tactic(auto, using(crate::proofs::Leb::reach_none, crate::proofs::Leb::reach_more, crate::proofs::Leb::reach_byte, crate::proofs::Leb::signed_low, crate::proofs::Leb::signed_high, crate::proofs::Leb::signed_between, crate::proofs::Leb::signed_past, crate::proofs::Leb::signed_left, crate::proofs::Leb::signed_ends_low, crate::proofs::Leb::signed_ends_high))]
    fn signed(&mut self, more: u8, top: u8) -> Result<i64, Refusal<W>>
        requires top { (1 ≤ top) × (top ≤ 64) }
        requires fits { reach more top ≤ 2 ^ 63 }
        ensures reads { Reads (λ n. n) (signed W.numbers more top) self.old self.new result }
        ensures bound { IfOk result (λ n. (neg_ℤ (pos (reach more top)) ≤ℤ n) × (n <ℤ pos (reach more top))) }
    {
        let place = self.at();
        let byte = self.byte()?;
        if more == 0 {
            if byte < top {
                return Ok(i64::from(byte));
            }
            if 128 - top <= byte && byte < 128 {
                return Ok(i64::from(byte) - 128);
            }
            return Err(Refusal {
                place,
                why: W::leb(),
            });
        }
        if byte < 64 {
            return Ok(i64::from(byte));
        }
        if byte < 128 {
            return Ok(i64::from(byte) - 128);
        }
        let high = self.signed(more - 1, top)?;
        Ok(128 * high + i64::from(byte - 128))
    }
}
