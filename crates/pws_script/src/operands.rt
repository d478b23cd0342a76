//! What the instructions of a script work on.

ghost use Rattle.std.specs.Prelude.{◌≡◌, ◌<◌, ◌≤◌, length, true};
ghost use Rattle.std.specs.String.{string_bytes};
ghost use Rattle.pws_script.specs.Texts.{is_text, is_name};

use pws_base::bytes::Bytes;
use pws_base::lists::ExactCopy;
use pws_base::memory::Memory;
use std::alloc::{AllocError, Global};
use std::marker::Model;

/// A register, r0 to r31.
#[derive(Clone, Copy, Debug, PartialEq, Eq)]
pub struct Register {
    index: u8,
}

impl Model for Register {
    ghost use Rattle.std.specs.Prelude.{ℕ, ◌<◌};

    ghost Value = { ℕ };

    ghost view = { λ r. r.index };

    ghost invariant = { λ r. r.index < 32 };

    ghost inverse = { λ n. record { index = n } };
}

impl Register {
    /// The register of this index, which is below 32.
    pub fn new(index: u8) -> Register
        requires { index < 32 }
        ensures { result ≡ index }
    {
        Register { index }
    }

    /// Its index, below 32.
    pub fn index(self) -> u8
        ensures value { result ≡ self }
        ensures range { result < 32 }
    {
        self.index
    }
}

/// A number of a group, 0 to 15, whether or not there is one of this number.
#[derive(Clone, Copy, Debug, PartialEq, Eq)]
pub struct Group {
    number: u8,
}

impl Model for Group {
    ghost use Rattle.std.specs.Prelude.{ℕ, ◌<◌};

    ghost Value = { ℕ };

    ghost view = { λ g. g.number };

    ghost invariant = { λ g. g.number < 16 };

    ghost inverse = { λ n. record { number = n } };
}

impl Group {
    /// The group of this number, which is below 16.
    pub fn new(number: u8) -> Group
        requires { number < 16 }
        ensures { result ≡ number }
    {
        Group { number }
    }

    /// Its number, below 16.
    pub fn number(self) -> u8
        ensures value { result ≡ self }
        ensures range { result < 16 }
    {
        self.number
    }
}

/// A text that a literal can have: of XML characters, at most 4,096 bytes in UTF-8.
#[derive(Debug, Drop)]
pub struct Text {
    inner: String,
}

impl Model for Text {
    ghost use Rattle.std.specs.Prelude.{◌≡◌, ℕ, List, true};
    ghost use Rattle.std.specs.String.{string_bytes};
    ghost use Rattle.pws_script.specs.Texts.{is_text};

    ghost Value = { List ℕ };

    ghost view = { λ t. string_bytes t.inner };

    ghost invariant = { λ t. is_text (string_bytes t.inner) ≡ true };
}

impl Text {
    /// The text of this string, which a literal can have.
    pub fn new(inner: String) -> Text
        requires { is_text (string_bytes inner) ≡ true }
        ensures { result ≡ string_bytes inner }
    {
        Text { inner }
    }

    /// The text.
    pub fn as_str(&self) -> &str
        ensures value { result.now ≡ self.now }
        ensures lawful { is_text self.now ≡ true }
    {
        self.inner.as_str()
    }
}

impl Clone for Text {
    ghost is_clone = { λ x y. y ≡ x };

    fn clone(&self) -> Result<Text, AllocError> {
        Ok(Text {
            inner: self.inner.clone()?,
        })
    }
}

impl PartialEq for Text {
    ghost use Rattle.std.specs.Prelude.{nat_eq};
    ghost use Rattle.std.proofs.Common.{rules};
    ghost use Rattle.std.specs.Cmp.Rules.{comparing};
    ghost use Rattle.std.specs.Cmp.Lexicographic.{pointwise};

    ghost eq = { pointwise nat_eq };

    ghost laws = { Prim.search (comparing, rules) };

    fn eq(&self, other: &Text) -> bool {
        self.inner.as_str() == other.inner.as_str()
    }
}

impl Eq for Text {
    ghost use Rattle.std.proofs.Common.{rules};
    ghost use Rattle.std.specs.Cmp.Rules.{comparing};

    ghost laws = { Prim.search (comparing, rules) };
}

impl ExactCopy for Text {
    fn copy(&self, alloc: Global) -> Result<Text, Memory> {
        Ok(Text {
            inner: String::from_str(alloc, self.inner.as_str())?,
        })
    }
}

/// A name of an element: a word that isn't empty, in UTF-8.
#[derive(Debug, Drop)]
pub struct Name {
    bytes: Bytes,
}

impl Model for Name {
    ghost use Rattle.std.specs.Prelude.{◌≡◌, ℕ, List, true};
    ghost use Rattle.pws_script.specs.Texts.{is_name};

    ghost Value = { List ℕ };

    ghost view = { λ n. n.bytes };

    ghost invariant = { λ n. is_name n.bytes ≡ true };
}

impl Name {
    /// The name of these bytes, which are a word that isn't empty.
    pub fn new(bytes: Bytes) -> Name
        requires { is_name bytes ≡ true }
        ensures { result ≡ bytes }
    {
        Name { bytes }
    }

    /// The bytes of the name.
    pub fn as_slice(&self) -> &[u8]
        ensures value { result.now ≡ self.now }
        ensures lawful { is_name self.now ≡ true }
    {
        self.bytes.as_slice()
    }
}

impl Clone for Name {
    ghost is_clone = { λ x y. y ≡ x };

    fn clone(&self) -> Result<Name, AllocError> {
        Ok(Name {
            bytes: self.bytes.clone()?,
        })
    }
}

impl PartialEq for Name {
    ghost use Rattle.std.specs.Prelude.{nat_eq};
    ghost use Rattle.std.proofs.Common.{rules};
    ghost use Rattle.std.specs.Cmp.Rules.{comparing};
    ghost use Rattle.std.specs.Cmp.Lexicographic.{pointwise};

    ghost eq = { pointwise nat_eq };

    ghost laws = { Prim.search (comparing, rules) };

    fn eq(&self, other: &Name) -> bool {
        self.bytes == other.bytes
    }
}

impl Eq for Name {
    ghost use Rattle.std.proofs.Common.{rules};
    ghost use Rattle.std.specs.Cmp.Rules.{comparing};

    ghost laws = { Prim.search (comparing, rules) };
}

impl ExactCopy for Name {
    fn copy(&self, alloc: Global) -> Result<Name, Memory> {
        Ok(Name {
            bytes: self.bytes.copy(alloc)?,
        })
    }
}

/// Registers in which calls are waited for, 1 to 8 of them.
#[derive(Debug, Drop)]
pub struct Calls {
    registers: Vec<Register>,
}

impl Model for Calls {
    ghost use Rattle.std.specs.Prelude.{ℕ, ◌≤◌, List, length};

    ghost Value = { List ℕ };

    ghost view = { λ c. c.registers.items };

    ghost invariant = { λ c. (1 ≤ length c.registers.items) × (length c.registers.items ≤ 8) };
}

impl Calls {
    /// These registers, 1 to 8 of them.
    pub fn new(registers: Vec<Register>) -> Calls
        requires some { 1 ≤ length registers.items }
        requires few { length registers.items ≤ 8 }
        ensures { result ≡ registers.items }
    {
        Calls { registers }
    }

    /// The registers, 1 to 8 of them.
    pub fn as_slice(&self) -> &[Register]
        ensures value { result.now ≡ self.now }
        ensures some { 1 ≤ length self.now }
        ensures few { length self.now ≤ 8 }
    {
        self.registers.as_slice()
    }
}

impl Clone for Calls {
    ghost is_clone = { λ x y. y ≡ x };

    fn clone(&self) -> Result<Calls, AllocError> {
        Ok(Calls {
            registers: self.registers.clone()?,
        })
    }
}

impl PartialEq for Calls {
    ghost use Rattle.std.specs.Prelude.{nat_eq};
    ghost use Rattle.std.proofs.Common.{rules};
    ghost use Rattle.std.specs.Cmp.Rules.{comparing};
    ghost use Rattle.std.specs.Cmp.Lexicographic.{pointwise};

    ghost eq = { pointwise nat_eq };

    ghost laws = { Prim.search (comparing, rules) };

    fn eq(&self, other: &Calls) -> bool {
        self.registers.as_slice() == other.registers.as_slice()
    }
}

impl Eq for Calls {
    ghost use Rattle.std.proofs.Common.{rules};
    ghost use Rattle.std.specs.Cmp.Rules.{comparing};

    ghost laws = { Prim.search (comparing, rules) };
}

impl ExactCopy for Calls {
    fn copy(&self, alloc: Global) -> Result<Calls, Memory> {
        Ok(Calls {
            registers: self.registers.as_slice().to_vec(alloc)?,
        })
    }
}
