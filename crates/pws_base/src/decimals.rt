//! Numbers in decimal digits without leading zeros.

ghost use Rattle.std.specs.Prelude.{◌≡◌, ◌++◌, OnOk, OnErr, decimal, true};
ghost use Rattle.std.specs.List.{list_all};
ghost use Rattle.pws_base.specs.Decimals.{number_of, below, is_decimal, is_digit};

use crate::memory::Memory;
use crate::writers::Writer;
use itoa::Buffer;

fn has_digits_only(word: &[u8]) -> bool
    ensures { result ≡ list_all is_digit word.now }
{
    word.iter().all(|b| b'0' <= *b && *b <= b'9')
}

fn is_decimal(word: &[u8]) -> bool
    ensures { result ≡ is_decimal word.now }
{
    has_digits_only(word) && !word.is_empty() && (word.len() == 1 || word[0] != b'0')
}

/// The digits of a decimal.
#[tactic(auto, using(crate::proofs::DecimalLemmas::decimal_utf8))]
fn digits_of(word: &[u8]) -> &str
    requires { is_decimal word.now ≡ true }
    ensures { result.now ≡ word.now }
{
    match str::from_utf8(word) {
        Ok(digits) => digits,
        Err(_) => unreachable!(),
    }
}

/// The number of which the word is the decimal, or None exactly where the word is the decimal of no number below 2^64.
#[tactic(auto, unfolding(crate::specs::Decimals::number_of))]
pub fn read_number(word: &[u8]) -> Option<u64>
    ensures { result ≡ number_of word.now }
{
    if is_decimal(word) {
        digits_of(word).parse::<u64>().ok()
    } else {
        None
    }
}

/// The number below a limit of which the word is the decimal, or None exactly where the word is the decimal of no such
/// number.
pub fn read_below(word: &[u8], limit: u64) -> Option<u64>
    ensures { result ≡ below limit (number_of word.now) }
{
    let number = read_number(word)?;
    if number < limit { Some(number) } else { None }
}

impl Writer {
    /// Adds the decimal of a number.
    ///
    /// # Errors
    ///
    /// `Memory` only.
    pub fn put_decimal(&mut self, number: u64) -> Result<(), Memory>
        ensures ok { OnOk result (self.new ≡ self.old ++ decimal number) }
        ensures err { OnErr result (self.new ≡ self.old) }
    {
        let mut buffer = Buffer::new();
        self.put_bytes(buffer.format(number).as_bytes())
    }
}
