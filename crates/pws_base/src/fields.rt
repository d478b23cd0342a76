//! Reading the fields of a text one after the other, with the kind and the place of each refusal.

ghost use Rattle.std.specs.Prelude.{◌≡◌, ◌+◌, ◌<◌, ◌≤◌, ◌^◌, length, OnErr, IfOk};
ghost use Rattle.pws_base.specs.Fields.{Unread, unread, Gives, Ends, bytes_field, u8_field, u32_field, u64_field, digest_field, u8_within, u32_within, group_field, index_field, number_field, view_field, sized_field, body_field};
ghost use Rattle.pws_base.specs.Limits.{max_number, max_body};

use crate::limits::{MAX_BODY, MAX_GROUPS, MAX_NUMBER, MAX_REPLICAS};
use crate::memory::Memory;
use crate::shapes::{Digest, GroupId, Number, View};
use std::alloc::{AllocError, AllocFailed};
use std::marker::Model;
use thiserror::Error;

/// What is wrong with a field.
#[derive(Clone, Copy, Debug, PartialEq, Eq, Error)]
pub enum FaultKind {
    /// No value has this kind.
    #[error("unknown kind")]
    Kind,
    /// The field isn't whole.
    #[error("not whole")]
    Short,
    /// The field is out of range.
    #[error("out of range")]
    Range,
    /// Bytes are left over.
    #[error("bytes are left over")]
    Rest,
}

/// Why a text is refused: what is wrong, and the place of the first byte of the field that is, or of the first byte
/// left over, counted from 0.
#[derive(Clone, Copy, Debug, PartialEq, Eq, Error)]
#[error("{kind} at {at}")]
pub struct FieldFault {
    pub kind: FaultKind,
    pub at: usize,
}

/// Why nothing was read.
#[derive(Clone, Copy, Debug, PartialEq, Eq, Error)]
pub enum FieldError {
    /// The text is refused.
    #[error("{0}")]
    Fault(FieldFault),
    /// There was no memory.
    #[error("out of memory")]
    Memory,
}

impl From<FieldFault> for FieldError {
    ghost use Rattle.std.specs.Prelude.{◌≡◌};
    ghost use Rattle.pws_base.specs.declared.fields.FieldError.{FieldError};

    ghost from_gives = { λ f e. e ≡ FieldError.Fault f };

    fn from(fault: FieldFault) -> FieldError {
        FieldError::Fault(fault)
    }
}

impl From<Memory> for FieldError {
    ghost use Rattle.std.specs.Prelude.{◌≡◌};
    ghost use Rattle.pws_base.specs.declared.fields.FieldError.{FieldError};

    ghost from_gives = { λ _ e. e ≡ FieldError.Memory };

    fn from(_error: Memory) -> FieldError {
        FieldError::Memory
    }
}

impl From<AllocError> for FieldError {
    ghost use Rattle.std.specs.Prelude.{◌≡◌};
    ghost use Rattle.pws_base.specs.declared.fields.FieldError.{FieldError};

    ghost from_gives = { λ _ e. e ≡ FieldError.Memory };

    fn from(_error: AllocError) -> FieldError {
        FieldError::Memory
    }
}

impl<T: Drop> From<AllocFailed<T>> for FieldError {
    ghost use Rattle.std.specs.Prelude.{◌≡◌};
    ghost use Rattle.pws_base.specs.declared.fields.FieldError.{FieldError};

    ghost from_gives = { λ _ e. e ≡ FieldError.Memory };

    fn from(_error: AllocFailed<T>) -> FieldError {
        FieldError::Memory
    }
}

/// A text that is read field by field.
///
/// Contracts see the bytes that aren't read yet and the place of the first of them. Each `take_` gives the next field
/// and goes on behind it, or tells what is wrong with the field and its first place, and then stays. None takes memory.
#[derive(Drop)]
pub struct FieldReader<'a> {
    left: &'a [u8],
    at: usize,
}

impl<'a> Model for FieldReader<'a> {
    ghost use Rattle.std.specs.Prelude.{◌+◌, ◌<◌, ◌^◌, length};
    ghost use Rattle.pws_base.specs.Fields.{Unread};

    ghost Value = { Unread };

    ghost view = { λ f. record { left = f.left.now; at = f.at } };

    ghost invariant = { λ f. f.at + length f.left.now < 2 ^ 64 };
}

impl<'a> FieldReader<'a> {
    /// A reader at the first byte of a text.
    pub fn new(text: &'a [u8]) -> FieldReader<'a>
        ensures { result ≡ unread text.now }
    {
        let _count = text.len(); // shows: the length is below 2^64
        FieldReader { left: text, at: 0 }
    }

    /// A reader of a part of a text, which begins at this place of the whole.
    pub fn within(part: &'a [u8], at: usize) -> FieldReader<'a>
        requires { at + length part.now < 2 ^ 64 }
        ensures { result ≡ record { left = part.now; at = at } }
    {
        FieldReader { left: part, at }
    }

    /// The place of the first byte that isn't read yet.
    pub fn at(&self) -> usize
        ensures value { result ≡ self.now.at }
        ensures small { self.now.at + length self.now.left < 2 ^ 64 }
    {
        self.at
    }

    /// The fault of this kind in the field that begins here.
    pub fn fault(&self, kind: FaultKind) -> FieldFault
        ensures { result ≡ record { kind = kind; at = self.now.at } }
    {
        FieldFault { kind, at: self.at }
    }

    /// The next `n` bytes.
    ///
    /// # Errors
    ///
    /// `Short` exactly where fewer than `n` are left.
    pub fn take_bytes(&mut self, n: usize) -> Result<&'a [u8], FieldFault>
        ensures read { Gives (λ s. s.now) result self.new (bytes_field n self.old) }
        ensures size { IfOk result (λ s. length s.now ≡ n) }
        ensures err { OnErr result (self.new ≡ self.old) }
    {
        if self.left.len() < n {
            return Err(FieldFault {
                kind: FaultKind::Short,
                at: self.at,
            });
        }
        let (front, rest) = self.left.split_at(n);
        self.left = rest;
        self.at += n;
        Ok(front)
    }

    /// The next byte.
    ///
    /// # Errors
    ///
    /// `Short` exactly where none is left.
    pub fn take_u8(&mut self) -> Result<u8, FieldFault>
        ensures read { Gives (λ n. n) result self.new (u8_field self.old) }
        ensures err { OnErr result (self.new ≡ self.old) }
    {
        let bytes = self.take_bytes(1)?;
        Ok(bytes[0])
    }

    /// The number that the next four bytes spell.
    ///
    /// # Errors
    ///
    /// `Short` exactly where fewer than four are left.
    pub fn take_u32(&mut self) -> Result<u32, FieldFault>
        ensures read { Gives (λ n. n) result self.new (u32_field self.old) }
        ensures err { OnErr result (self.new ≡ self.old) }
    {
        let bytes = self.take_bytes(4)?;
        Ok(u32::from_be_bytes([bytes[0], bytes[1], bytes[2], bytes[3]]))
    }

    /// The number that the next eight bytes spell.
    ///
    /// # Errors
    ///
    /// `Short` exactly where fewer than eight are left.
    pub fn take_u64(&mut self) -> Result<u64, FieldFault>
        ensures read { Gives (λ n. n) result self.new (u64_field self.old) }
        ensures err { OnErr result (self.new ≡ self.old) }
    {
        let bytes = self.take_bytes(8)?;
        Ok(u64::from_be_bytes([
            bytes[0], bytes[1], bytes[2], bytes[3], bytes[4], bytes[5], bytes[6], bytes[7],
        ]))
    }

    /// The next 32 bytes: a digest, or a tag.
    ///
    /// # Errors
    ///
    /// `Short` exactly where fewer than 32 are left.
    pub fn take_digest(&mut self) -> Result<Digest, FieldFault>
        ensures read { Gives (λ digest. digest) result self.new (digest_field self.old) }
        ensures err { OnErr result (self.new ≡ self.old) }
    {
        let bytes = self.take_bytes(32)?;
        let mut digest = [0; 32];
        digest.copy_from_slice(bytes);
        Ok(digest)
    }

    /// The next byte, a number from `low` to `high`.
    ///
    /// # Errors
    ///
    /// `Short` exactly where none is left, `Range` exactly where it is below `low` or above `high`.
    pub fn take_u8_within(&mut self, low: u8, high: u8) -> Result<u8, FieldFault>
        ensures read { Gives (λ n. n) result self.new (u8_within low high self.old) }
        ensures range { IfOk result (λ n. (low ≤ n) × (n ≤ high)) }
        ensures err { OnErr result (self.new ≡ self.old) }
    {
        let (left, at) = (self.left, self.at);
        let n = self.take_u8()?;
        if low <= n && n <= high {
            return Ok(n);
        }
        *self = FieldReader { left, at };
        Err(self.fault(FaultKind::Range))
    }

    /// The number from `low` to `high` that the next four bytes spell.
    ///
    /// # Errors
    ///
    /// `Short` exactly where fewer than four are left, `Range` exactly where it is below `low` or above `high`.
    pub fn take_u32_within(&mut self, low: u32, high: u32) -> Result<u32, FieldFault>
        ensures read { Gives (λ n. n) result self.new (u32_within low high self.old) }
        ensures range { IfOk result (λ n. (low ≤ n) × (n ≤ high)) }
        ensures err { OnErr result (self.new ≡ self.old) }
    {
        let (left, at) = (self.left, self.at);
        let n = self.take_u32()?;
        if low <= n && n <= high {
            return Ok(n);
        }
        *self = FieldReader { left, at };
        Err(self.fault(FaultKind::Range))
    }

    /// The next field, a group, 0 to 15.
    ///
    /// # Errors
    ///
    /// `Short` or `Range`, as of a byte within a range.
    pub fn take_group(&mut self) -> Result<GroupId, FieldFault>
        ensures read { Gives (λ n. n) result self.new (group_field self.old) }
        ensures range { IfOk result (λ n. n ≤ 15) }
        ensures err { OnErr result (self.new ≡ self.old) }
    {
        self.take_u8_within(0, MAX_GROUPS - 1)
    }

    /// The next field, the index of a replica, 0 to 9.
    ///
    /// # Errors
    ///
    /// `Short` or `Range`, as of a byte within a range.
    pub fn take_index(&mut self) -> Result<u8, FieldFault>
        ensures read { Gives (λ n. n) result self.new (index_field self.old) }
        ensures range { IfOk result (λ n. n ≤ 9) }
        ensures err { OnErr result (self.new ≡ self.old) }
    {
        self.take_u8_within(0, MAX_REPLICAS - 1)
    }

    /// The next field, a number, a place or an ask, 1 to 1,000,000.
    ///
    /// # Errors
    ///
    /// `Short` or `Range`, as of four bytes within a range.
    pub fn take_number(&mut self) -> Result<Number, FieldFault>
        ensures read { Gives (λ n. n) result self.new (number_field self.old) }
        ensures range { IfOk result (λ n. (1 ≤ n) × (n ≤ max_number)) }
        ensures err { OnErr result (self.new ≡ self.old) }
    {
        self.take_u32_within(1, MAX_NUMBER)
    }

    /// The next field, a view or a low mark, 0 to 1,000,000.
    ///
    /// # Errors
    ///
    /// `Short` or `Range`, as of four bytes within a range.
    pub fn take_view(&mut self) -> Result<View, FieldFault>
        ensures read { Gives (λ n. n) result self.new (view_field self.old) }
        ensures range { IfOk result (λ n. n ≤ 1000000) }
        ensures err { OnErr result (self.new ≡ self.old) }
    {
        self.take_u32_within(0, MAX_NUMBER)
    }

    /// The next field, bytes after their length in four bytes, at most `bound` of them.
    ///
    /// # Errors
    ///
    /// Each at the first byte of the length: `Range` exactly where the length is above `bound`, whether or not the bytes
    /// are whole, and `Short` exactly where the length or the bytes aren't whole.
    #[tactic(auto, unfolding(crate::specs::Fields::sized_field))]
    pub fn take_sized(&mut self, bound: u32) -> Result<&'a [u8], FieldFault>
        ensures read { Gives (λ s. s.now) result self.new (sized_field bound self.old) }
        ensures size { IfOk result (λ s. length s.now ≤ bound) }
        ensures err { OnErr result (self.new ≡ self.old) }
    {
        let (left, at) = (self.left, self.at);
        let size = self.take_u32_within(0, bound)?;
        if let Ok(bytes) = self.take_bytes(size as usize) {
            return Ok(bytes);
        }
        *self = FieldReader { left, at };
        Err(self.fault(FaultKind::Short))
    }

    /// The next field, a body, of at most 32,768 bytes.
    ///
    /// # Errors
    ///
    /// `Short` or `Range`, as of bytes after their length.
    pub fn take_body(&mut self) -> Result<&'a [u8], FieldFault>
        ensures read { Gives (λ s. s.now) result self.new (body_field self.old) }
        ensures size { IfOk result (λ s. length s.now ≤ max_body) }
        ensures err { OnErr result (self.new ≡ self.old) }
    {
        self.take_sized(MAX_BODY)
    }

    /// Answers whether the text ends here.
    ///
    /// # Errors
    ///
    /// `Rest` exactly where bytes are left over, at the first of them.
    pub fn end(&self) -> Result<(), FieldFault>
        ensures { Ends result self.now }
    {
        if self.left.is_empty() {
            Ok(())
        } else {
            Err(self.fault(FaultKind::Rest))
        }
    }
}
