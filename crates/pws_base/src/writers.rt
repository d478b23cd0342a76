//! Writing numbers and bytes one after the other, high byte first.

ghost use Rattle.std.specs.Prelude.{◌≡◌, ℕ, List, [], ◌∷◌, ◌++◌, OnOk, OnErr};
ghost use Rattle.pws_base.specs.Texts.{u16_text, u32_text, u64_text};

use crate::bytes::Bytes;
use crate::lists::ExactCopy;
use crate::memory::Memory;
use std::alloc::Global;
use std::marker::Model;

/// Bytes that are being written.
///
/// Contracts see it as the list of the bytes so far. Each `put_` adds its bytes at the end, or answers
/// `Memory`, and then adds nothing.
#[derive(Debug, Drop)]
pub struct Writer {
    bytes: Vec<u8>,
}

impl Model for Writer {
    ghost Value = { List ℕ };

    ghost view = { λ w. w.bytes.items };
}

impl Writer {
    /// A writer with no bytes.
    pub fn new(alloc: Global) -> Writer
        ensures { result ≡ [] }
    {
        Writer {
            bytes: Vec::new(alloc),
        }
    }

    /// The bytes so far.
    pub fn bytes(&self) -> &[u8]
        ensures { result.now ≡ self.now }
    {
        self.bytes.as_slice()
    }

    /// The bytes, which aren't copied.
    pub fn into_bytes(self) -> Bytes
        ensures { result ≡ self }
    {
        let Writer { bytes } = self;
        Bytes::from_vec(bytes)
    }

    /// Adds these bytes.
    ///
    /// # Errors
    ///
    /// `Memory` only.
    pub fn put_bytes(&mut self, value: &[u8]) -> Result<(), Memory>
        ensures ok { OnOk result (self.new ≡ self.old ++ value.now) }
        ensures err { OnErr result (self.new ≡ self.old) }
    {
        self.bytes.extend_from_slice(value)?;
        Ok(())
    }

    /// Adds one byte.
    ///
    /// # Errors
    ///
    /// `Memory` only.
    pub fn put_u8(&mut self, value: u8) -> Result<(), Memory>
        ensures ok { OnOk result (self.new ≡ self.old ++ value ∷ []) }
        ensures err { OnErr result (self.new ≡ self.old) }
    {
        self.bytes.push(value)?;
        Ok(())
    }

    /// Adds the two bytes of a number.
    ///
    /// # Errors
    ///
    /// `Memory` only.
    #[tactic(auto, unfolding(crate::specs::Texts::u16_text))]
    pub fn put_u16(&mut self, value: u16) -> Result<(), Memory>
        ensures ok { OnOk result (self.new ≡ self.old ++ u16_text value) }
        ensures err { OnErr result (self.new ≡ self.old) }
    {
        self.put_bytes(&value.to_be_bytes())
    }

    /// Adds the four bytes of a number.
    ///
    /// # Errors
    ///
    /// `Memory` only.
    #[tactic(auto, unfolding(crate::specs::Texts::u32_text))]
    pub fn put_u32(&mut self, value: u32) -> Result<(), Memory>
        ensures ok { OnOk result (self.new ≡ self.old ++ u32_text value) }
        ensures err { OnErr result (self.new ≡ self.old) }
    {
        self.put_bytes(&value.to_be_bytes())
    }

    /// Adds the eight bytes of a number.
    ///
    /// # Errors
    ///
    /// `Memory` only.
    #[tactic(auto, unfolding(crate::specs::Texts::u64_text))]
    pub fn put_u64(&mut self, value: u64) -> Result<(), Memory>
        ensures ok { OnOk result (self.new ≡ self.old ++ u64_text value) }
        ensures err { OnErr result (self.new ≡ self.old) }
    {
        self.put_bytes(&value.to_be_bytes())
    }
}

impl ExactCopy for Writer {
    fn copy(&self, alloc: Global) -> Result<Writer, Memory> {
        Ok(Writer {
            bytes: self.bytes.as_slice().to_vec(alloc)?,
        })
    }
}
