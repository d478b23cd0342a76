//! Reading numbers and bytes from the front of a slice, high byte first.

ghost use Rattle.std.specs.Prelude.{◌≡◌, ℕ, ◌↔◌, List, [], length, IsTrue};
ghost use Rattle.pws_base.specs.Cursors.{Reads, bytes_at, u8_at, u16_at, u32_at, u64_at};

use std::marker::Model;
use thiserror::Error;

/// Too few bytes remain.
#[derive(Clone, Copy, Debug, PartialEq, Eq, Error)]
#[error("too few bytes remain")]
pub struct Short;

/// A slice that is read from its front.
///
/// Contracts see it as the list of the bytes that remain. Each `take_` gives the next value and leaves the
/// bytes after it, or answers `Short` exactly where too few bytes remain, and then leaves the cursor as it was.
#[derive(Drop)]
pub struct Cursor<'a> {
    remaining: &'a [u8],
}

impl<'a> Model for Cursor<'a> {
    ghost Value = { List ℕ };

    ghost view = { λ c. c.remaining.now };
}

impl<'a> Cursor<'a> {
    /// A cursor at the first of these bytes.
    pub fn new(bytes: &'a [u8]) -> Cursor<'a>
        ensures { result ≡ bytes.now }
    {
        Cursor { remaining: bytes }
    }

    /// How many bytes remain.
    pub fn len(&self) -> usize
        ensures { result ≡ length self.now }
    {
        self.remaining.len()
    }

    /// Whether no byte remains.
    pub fn is_empty(&self) -> bool
        ensures { IsTrue result ↔ (self.now ≡ []) }
    {
        self.remaining.is_empty()
    }

    /// The next `n` bytes.
    ///
    /// # Errors
    ///
    /// `Short` exactly where fewer than `n` remain.
    pub fn take_bytes(&mut self, n: usize) -> Result<&'a [u8], Short>
        ensures { Reads (λ bytes. bytes.now) result self.old self.new (bytes_at n self.old) }
    {
        if self.remaining.len() < n {
            return Err(Short);
        }
        let (front, rest) = self.remaining.split_at(n);
        self.remaining = rest;
        Ok(front)
    }

    /// The next byte.
    ///
    /// # Errors
    ///
    /// `Short` exactly where none remains.
    pub fn take_u8(&mut self) -> Result<u8, Short>
        ensures { Reads (λ number. number) result self.old self.new (u8_at self.old) }
    {
        let bytes = self.take_bytes(1)?;
        Ok(bytes[0])
    }

    /// The number that the next two bytes spell.
    ///
    /// # Errors
    ///
    /// `Short` exactly where fewer than two remain.
    pub fn take_u16(&mut self) -> Result<u16, Short>
        ensures { Reads (λ number. number) result self.old self.new (u16_at self.old) }
    {
        let bytes = self.take_bytes(2)?;
        Ok(u16::from_be_bytes([bytes[0], bytes[1]]))
    }

    /// The number that the next four bytes spell.
    ///
    /// # Errors
    ///
    /// `Short` exactly where fewer than four remain.
    pub fn take_u32(&mut self) -> Result<u32, Short>
        ensures { Reads (λ number. number) result self.old self.new (u32_at self.old) }
    {
        let bytes = self.take_bytes(4)?;
        Ok(u32::from_be_bytes([bytes[0], bytes[1], bytes[2], bytes[3]]))
    }

    /// The number that the next eight bytes spell.
    ///
    /// # Errors
    ///
    /// `Short` exactly where fewer than eight remain.
    pub fn take_u64(&mut self) -> Result<u64, Short>
        ensures { Reads (λ number. number) result self.old self.new (u64_at self.old) }
    {
        let bytes = self.take_bytes(8)?;
        Ok(u64::from_be_bytes([
            bytes[0], bytes[1], bytes[2], bytes[3], bytes[4], bytes[5], bytes[6], bytes[7],
        ]))
    }
}
