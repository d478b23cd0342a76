//! Why a text isn't read.

use pws_base::memory::Memory;
use thiserror::Error;

/// What is refused in a text.
#[derive(Clone, Copy, Debug, PartialEq, Eq)]
pub enum MarkKind {
    /// More than 32,768 bytes.
    Size,
    /// Bytes that aren't UTF-8.
    Utf8,
    /// A document type.
    Doctype,
    /// A processing instruction.
    Instruction,
    /// A start tag of the 65th level.
    Depth,
    /// A prefix that isn't bound, or a declaration that binds what can't be.
    Prefix,
    /// Two attributes of one name, or two declarations of one prefix.
    Twice,
    /// A reference to another entity, or to a number that is no XML character.
    Entity,
    /// Anything else that isn't accepted.
    Syntax,
}

/// What is refused, and the place of its first byte.
#[derive(Clone, Copy, Debug, PartialEq, Eq, Error)]
#[error("the text of an element is refused at {at}")]
pub struct MarkError {
    pub kind: MarkKind,
    pub at: usize,
}

/// Why an element isn't read.
#[derive(Clone, Copy, Debug, PartialEq, Eq, Error)]
pub enum ReadError {
    #[error("{0}")]
    Mark(MarkError),
    #[error("out of memory")]
    Memory,
}

impl From<Memory> for ReadError {
    ghost use Rattle.std.specs.Prelude.{◌≡◌};
    ghost use Rattle.pws_mark.specs.declared.errors.ReadError.{ReadError};

    ghost from_gives = { λ _ e. e ≡ ReadError.Memory };

    fn from(_error: Memory) -> ReadError {
        ReadError::Memory
    }
}
