//! Bytes as lower-case hexadecimal.

ghost use Rattle.std.specs.Prelude.{◌≡◌};
ghost use Rattle.std.specs.List.{list_all};
ghost use Rattle.pws_sched.specs.Hexadecimal.{is_lower_digit, GivesBytes, lower_hex};

use hex::FromHexError;
use std::alloc::Global;
use thiserror::Error;

/// Why no bytes were read from a text.
#[derive(Clone, Copy, Debug, PartialEq, Eq, Error)]
pub enum HexError {
    /// Another character than a digit `0` to `9` or `a` to `f` stands in the text, or the count of digits is odd.
    #[error("not lower-case hexadecimal")]
    NotHexadecimal,
    /// There was no memory.
    #[error("out of memory")]
    Memory,
}

impl From<FromHexError> for HexError {
    ghost use Rattle.std.specs.Prelude.{◌≡◌};
    ghost use Rattle.pws_sched.specs.HexErrors.{hex_error_of};

    ghost from_gives = { λ h e. e ≡ hex_error_of h };

    fn from(error: FromHexError) -> HexError {
        match error {
            FromHexError::OutOfMemory => HexError::Memory,
            _ => HexError::NotHexadecimal,
        }
    }
}

fn is_lower_digit(c: u8) -> bool
    ensures { result ≡ is_lower_digit c }
{
    (b'0' <= c && c <= b'9') || (b'a' <= c && c <= b'f')
}

/// Whether a text has only the digits `0` to `9` and `a` to `f`.
pub fn is_lower_hex(text: &[u8]) -> bool
    ensures { result ≡ list_all is_lower_digit text.now }
{
    text.iter().all(|c| is_lower_digit(*c))
}

/// The bytes that a text spells in lower-case hexadecimal, two digits a byte, the high digit first.
///
/// # Errors
///
/// `NotHexadecimal` exactly where another character stands in it or the count of digits is odd, and else `Memory`
/// only.
pub fn decode_lower(alloc: Global, text: &[u8]) -> Result<Vec<u8>, HexError>
    ensures { GivesBytes (λ bytes. bytes.items) result (lower_hex text.now) }
{
    if !is_lower_hex(text) {
        return Err(HexError::NotHexadecimal);
    }
    Ok(hex::decode(alloc, text)?)
}
