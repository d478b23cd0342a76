//! Decimal numbers and registers.

ghost use Rattle.std.specs.Prelude.{◌≡◌};
ghost use Rattle.std.specs.List.{list_all};
ghost use Rattle.pws_script.specs.Numbers.{number_of, below, register_of, is_decimal, is_digit};

use crate::operands::Register;

fn has_digits_only(word: &[u8]) -> bool
    ensures { result ≡ list_all is_digit word.now }
{
    word.iter().all(|b| b'0' <= *b && *b <= b'9')
}

fn is_decimal(word: &[u8]) -> bool
    ensures { result ≡ is_decimal word.now }
{
    has_digits_only(word) && !word.is_empty() && (word.len() == 1 || word[0] != b'0')
}

/// The number of which the word is the decimal, without leading zeros, below 2^64.
#[tactic(auto, unfolding(crate::specs::Numbers::number_of))]
pub(crate) fn read_number(word: &str) -> Option<u64>
    ensures { result ≡ number_of word.now }
{
    if is_decimal(word.as_bytes()) {
        word.parse::<u64>().ok()
    } else {
        None
    }
}

/// The number below a limit of which the word is the decimal.
pub(crate) fn read_below(word: &str, limit: u64) -> Option<u64>
    ensures { result ≡ below limit (number_of word.now) }
{
    let number = read_number(word)?;
    if number < limit { Some(number) } else { None }
}

/// The register of which the word is the text.
pub(crate) fn read_register(word: &str) -> Option<Register>
    ensures { result ≡ register_of word.now }
{
    let digits = word.strip_prefix('r')?;
    let index = read_below(digits, 32)?;
    Some(Register::new(index as u8))
}
