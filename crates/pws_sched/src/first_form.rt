//! The first form of a schedule: the requests of one caller to one replica.

ghost use Rattle.std.specs.Prelude.{◌≡◌, ◌<◌, [], ◌∷◌, length, MatchOption, IfSome};
ghost use Rattle.std.specs.List.{position};
ghost use Rattle.pws_sched.specs.FirstForm.{Gives, after, after_seed, is_line_feed, lines_of, request_of, said_by, moves_of, first_form};

use crate::hexadecimal::{HexError, decode_lower, is_lower_hex};
use pws_base::bytes::Bytes;
use pws_base::cursors::{Cursor, Short};
use pws_base::lists::Sequence;
use pws_base::memory::Memory;
use pws_event::requests::Request;
use std::alloc::{AllocError, AllocFailed, Global};
use thiserror::Error;

/// Why no schedule was read.
#[derive(Clone, Copy, Debug, PartialEq, Eq, Error)]
pub enum FirstFormError {
    /// The text isn't a schedule of the first form.
    #[error("not a schedule of the first form")]
    NotFirstForm,
    /// There was no memory.
    #[error("out of memory")]
    Memory,
}

impl<T: Drop> From<AllocFailed<T>> for FirstFormError {
    ghost use Rattle.std.specs.Prelude.{◌≡◌};
    ghost use Rattle.pws_sched.specs.declared.first_form.FirstFormError.{FirstFormError};

    ghost from_gives = { λ _ e. e ≡ FirstFormError.Memory };

    fn from(_error: AllocFailed<T>) -> FirstFormError {
        FirstFormError::Memory
    }
}

impl From<AllocError> for FirstFormError {
    ghost use Rattle.std.specs.Prelude.{◌≡◌};
    ghost use Rattle.pws_sched.specs.declared.first_form.FirstFormError.{FirstFormError};

    ghost from_gives = { λ _ e. e ≡ FirstFormError.Memory };

    fn from(_error: AllocError) -> FirstFormError {
        FirstFormError::Memory
    }
}

impl From<Memory> for FirstFormError {
    ghost use Rattle.std.specs.Prelude.{◌≡◌};
    ghost use Rattle.pws_sched.specs.declared.first_form.FirstFormError.{FirstFormError};

    ghost from_gives = { λ _ e. e ≡ FirstFormError.Memory };

    fn from(_error: Memory) -> FirstFormError {
        FirstFormError::Memory
    }
}

impl From<Short> for FirstFormError {
    ghost use Rattle.std.specs.Prelude.{◌≡◌};
    ghost use Rattle.pws_sched.specs.declared.first_form.FirstFormError.{FirstFormError};

    ghost from_gives = { λ _ e. e ≡ FirstFormError.NotFirstForm };

    fn from(_error: Short) -> FirstFormError {
        FirstFormError::NotFirstForm
    }
}

impl From<HexError> for FirstFormError {
    ghost use Rattle.std.specs.Prelude.{◌≡◌};
    ghost use Rattle.pws_sched.specs.FirstFormErrors.{form_error_of};

    ghost from_gives = { λ h e. e ≡ form_error_of h };

    fn from(error: HexError) -> FirstFormError {
        match error {
            HexError::NotHexadecimal => FirstFormError::NotFirstForm,
            HexError::Memory => FirstFormError::Memory,
        }
    }
}

/// The request of caller 0 that the bytes of a content spell.
fn read_request(alloc: Global, bytes: &[u8]) -> Result<Request, FirstFormError>
    ensures { Gives (λ r. r) result (request_of bytes.now) }
{
    let mut cursor = Cursor::new(bytes);
    let kind = cursor.take_u8()?;
    let number = cursor.take_u32()?;
    let low = cursor.take_u32()?;
    let size = cursor.take_u32()?;
    let body = cursor.take_bytes(size as usize)?;
    let in_range = 1 <= number && number <= 1000000 && 1 <= low && low <= 1000000 && size <= 32768;
    if kind != 1 || !in_range || !cursor.is_empty() {
        return Err(FirstFormError::NotFirstForm);
    }
    Ok(Request::new(0, number, low, Bytes::from_slice(alloc, body)?))
}

/// The request that a line says.
fn read_say(alloc: Global, line: &[u8]) -> Result<Request, FirstFormError>
    ensures { Gives (λ r. r) result (said_by line.now) }
{
    match line.strip_prefix(b"say 0.0 1.0 ") {
        Some(digits) => read_request(alloc, &decode_lower(alloc, digits)?),
        None => Err(FirstFormError::NotFirstForm),
    }
}

/// The place of the first line feed.
fn find_line_feed(text: &[u8]) -> Option<usize>
    ensures { result ≡ position is_line_feed text.now }
{
    text.iter().position(|c| *c == b'\n')
}

/// The first line of a text and what follows its line feed.
fn split_line(text: &[u8]) -> Option<(&[u8], &[u8])>
    ensures lines { MatchOption result (lines_of text.now ≡ text.now ∷ []) (λ x. lines_of text.now ≡ x.0.now ∷ lines_of x.1.now) }
    ensures shorter { IfSome result (λ x. length x.1.now < length text.now) }
{
    let at = find_line_feed(text)?;
    Some((&text[..at], &text[at + 1..]))
}

/// The requests that the lines up to `end` say, one line at a time, and none past the first that isn't in the form.
fn read_moves(alloc: Global, text: &[u8]) -> Result<Sequence<Request>, FirstFormError>
    ensures { Gives (λ r. r) result (moves_of (lines_of text.now)) }
{
    let mut requests = Vec::new(alloc);
    let mut rest = text;
    while let Some((line, others)) = split_line(rest) {
        if line == b"end".as_slice() {
            if others.is_empty() {
                return Ok(Sequence::from_vec(requests));
            }
            return Err(FirstFormError::NotFirstForm);
        }
        requests.push(read_say(alloc, line)?)?;
        rest = others;
    }
    Err(FirstFormError::NotFirstForm)
}

/// What follows these bytes, where the text begins with them.
fn expect<'a>(text: &'a [u8], front: &[u8]) -> Result<&'a [u8], FirstFormError>
    ensures { Gives (λ r. r.now) result (after front.now text.now) }
{
    text.strip_prefix(front).ok_or(FirstFormError::NotFirstForm)
}

/// What follows a seed of 64 lower-case digits.
fn expect_seed(text: &[u8]) -> Result<&[u8], FirstFormError>
    ensures { Gives (λ r. r.now) result (after_seed text.now) }
{
    if text.len() < 64 {
        return Err(FirstFormError::NotFirstForm);
    }
    let (seed, rest) = text.split_at(64);
    if !is_lower_hex(seed) {
        return Err(FirstFormError::NotFirstForm);
    }
    Ok(rest)
}

/// The requests that a schedule of the first form says, in order; the form is in docs/FORMATS.md.
///
/// # Errors
///
/// `NotFirstForm` exactly where the text isn't in the first form, and else `Memory` only.
pub fn read_first_form(alloc: Global, text: &[u8]) -> Result<Sequence<Request>, FirstFormError>
    ensures { Gives (λ r. r) result (first_form text.now) }
{
    let text = expect(text, b"pws-schedule 1\nseed ")?;
    let text = expect_seed(text)?;
    let text = expect(text, b"\ngroup 0 0\ngroup 1 0\nbad 0.0\nbegin\n")?;
    read_moves(alloc, text)
}
