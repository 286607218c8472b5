//! Numbers.

ghost use Rattle.std.specs.Prelude.{◌≡◌, IsTrue};
ghost use Rattle.std.specs.List.{list_all};
ghost use Rattle.script_reader.specs.Script as scripts;

/// Whether a byte is a decimal digit.
fn is_digit(byte: u8) -> bool
    ensures { result ≡ scripts.is_digit byte }
{
    byte.is_ascii_digit()
}

/// Whether all bytes of a text are digits.
fn are_digits(text: &[u8]) -> bool
    ensures { result ≡ list_all scripts.is_digit text.now }
{
    text.iter().all(|byte| is_digit(*byte))
}

/// Whether a text is a number and nothing else.
pub fn is_number(text: &[u8]) -> bool
    ensures { result ≡ scripts.is_number text.now }
{
    !text.is_empty() && are_digits(text)
}

/// The number of these digits, where it is not above this one.
#[tactic(auto, using(crate::proofs::Digits::grows, crate::proofs::Digits::step, crate::proofs::Digits::passes))]
pub fn number_up_to(most: u32, digits: &[u8]) -> Option<u32>
    requires { IsTrue (list_all scripts.is_digit digits.now) }
    ensures { result ≡ scripts.number_up_to most digits.now }
{
    let mut number = 0;
    for digit in digits {
        let longer = 10 * u64::from(number) + u64::from(*digit - b'0');
        if longer > u64::from(most) {
            return None;
        }
        number = longer as u32;
    }
    Some(number)
}
