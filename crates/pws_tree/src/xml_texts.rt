//! Texts of XML characters.

ghost use Rattle.std.specs.Prelude.{◌≡◌, ◌↔◌, ◌++◌, [], IfOk, OnOk, OnErr, IsTrue};
ghost use Rattle.std.specs.String.{string_bytes};
ghost use Rattle.pws_tree.specs.Characters.{is_xml_text};

use pws_base::lists::ExactCopy;
use pws_base::memory::Memory;
use std::alloc::{AllocError, Global};
use std::fmt;
use std::marker::Model;

/// A text on the heap that has only characters of XML 1.0, which contracts see as the list of its bytes.
#[derive(Drop)]
pub struct XmlText {
    inner: String,
}

impl Model for XmlText {
    ghost use Rattle.std.specs.Prelude.{ℕ, List, IsTrue};
    ghost use Rattle.std.specs.String.{string_bytes};
    ghost use Rattle.pws_tree.specs.Characters.{is_xml_text};

    ghost Value = { List ℕ };

    ghost view = { λ t. string_bytes t.inner };

    ghost invariant = { λ t. IsTrue (is_xml_text (string_bytes t.inner)) };
}

impl XmlText {
    /// The empty text.
    #[tactic(auto, using(crate::proofs::XmlTexts::nothing_xml))]
    pub fn new(alloc: Global) -> XmlText
        ensures { result ≡ [] }
    {
        XmlText {
            inner: String::new(alloc),
        }
    }

    /// The text of a string, which isn't copied and whose characters XML has; `characters::is_xml_text` is the test.
    pub fn from_string(inner: String) -> XmlText
        requires { IsTrue (is_xml_text (string_bytes inner)) }
        ensures { result ≡ string_bytes inner }
    {
        XmlText { inner }
    }

    /// A copy of this text, whose characters XML has; `characters::is_xml_text` is the test.
    ///
    /// # Errors
    ///
    /// `Memory` only.
    pub fn from_str(alloc: Global, text: &str) -> Result<XmlText, Memory>
        requires { IsTrue (is_xml_text text.now) }
        ensures { IfOk result (λ t. t ≡ text.now) }
    {
        Ok(XmlText {
            inner: String::from_str(alloc, text)?,
        })
    }

    /// Adds a text, whose characters XML has, behind this one.
    ///
    /// # Errors
    ///
    /// `Memory` only; nothing is added then.
    #[tactic(auto, using(crate::proofs::XmlTexts::appended_xml))]
    pub fn push_str(&mut self, text: &str) -> Result<(), Memory>
        requires { IsTrue (is_xml_text text.now) }
        ensures ok { OnOk result (self.new ≡ self.old ++ text.now) }
        ensures err { OnErr result (self.new ≡ self.old) }
    {
        self.inner.push_str(text)?;
        Ok(())
    }

    /// The text.
    pub fn as_str(&self) -> &str
        ensures value { result.now ≡ self.now }
        ensures lawful { IsTrue (is_xml_text self.now) }
    {
        self.inner.as_str()
    }

    /// Whether there is no character.
    pub fn is_empty(&self) -> bool
        ensures { IsTrue result ↔ (self.now ≡ []) }
    {
        self.inner.is_empty()
    }
}

impl ExactCopy for XmlText {
    fn copy(&self, alloc: Global) -> Result<XmlText, Memory> {
        Ok(XmlText {
            inner: String::from_str(alloc, self.inner.as_str())?,
        })
    }
}

impl PartialEq for XmlText {
    ghost use Rattle.std.specs.Prelude.{nat_eq};
    ghost use Rattle.std.proofs.Common.{rules};
    ghost use Rattle.std.specs.Cmp.Rules.{comparing};
    ghost use Rattle.std.specs.Cmp.Lexicographic.{pointwise};

    ghost eq = { pointwise nat_eq };

    ghost laws = { Prim.search (comparing, rules) };

    fn eq(&self, other: &XmlText) -> bool {
        self.as_str() == other.as_str()
    }
}

impl Eq for XmlText {
    ghost use Rattle.std.proofs.Common.{rules};
    ghost use Rattle.std.specs.Cmp.Rules.{comparing};

    ghost laws = { Prim.search (comparing, rules) };
}

impl Clone for XmlText {
    ghost is_clone = { λ x y. y ≡ x };

    fn clone(&self) -> Result<XmlText, AllocError> {
        Ok(XmlText {
            inner: self.inner.clone()?,
        })
    }
}

impl fmt::Debug for XmlText {
    fn fmt<W: fmt::Write>(&self, f: &mut fmt::Formatter<W>) -> fmt::Result {
        fmt::Debug::fmt(&self.inner, f)
    }
}
