//! Why there is no envelope.

use pws_base::lists::ExactCopy;
use pws_base::memory::Memory;
use pws_mark::errors::MarkError;
use pws_tree::texts::Name;
use std::alloc::{AllocError, AllocFailed, Global};
use thiserror::Error;

/// Why a text or a tree is no envelope that this node takes.
#[derive(Debug, Drop, PartialEq, Error)]
pub enum SoapError {
    /// The text is no element.
    #[error("{0}")]
    Mark(MarkError),
    /// The root isn't named `Envelope`.
    #[error("the root is no envelope")]
    NotEnvelope,
    /// The root is an `Envelope` of another namespace, so of another version of SOAP.
    #[error("another version of SOAP")]
    Version,
    /// The root doesn't contain an optional Header and one Body, in this order; or a text other than white space stands
    /// beside them or among the header blocks; or the `mustUnderstand` of a header block is no truth value.
    #[error("the parts of the envelope are out of order")]
    Order,
    /// A header block of this name is for this node, must be understood, and isn't.
    #[error("a header block isn't understood")]
    MustUnderstand(Name),
    /// There was no memory.
    #[error("out of memory")]
    Memory,
}

impl ExactCopy for SoapError {
    fn copy(&self, alloc: Global) -> Result<SoapError, Memory> {
        match self {
            SoapError::Mark(error) => Ok(SoapError::Mark(*error)),
            SoapError::NotEnvelope => Ok(SoapError::NotEnvelope),
            SoapError::Version => Ok(SoapError::Version),
            SoapError::Order => Ok(SoapError::Order),
            SoapError::MustUnderstand(name) => Ok(SoapError::MustUnderstand(name.copy(alloc)?)),
            SoapError::Memory => Ok(SoapError::Memory),
        }
    }
}

impl From<Memory> for SoapError {
    ghost use Rattle.std.specs.Prelude.{◌≡◌};
    ghost use Rattle.pws_soap.specs.declared.errors.SoapError.{SoapError};

    ghost from_gives = { λ _ e. e ≡ SoapError.Memory };

    fn from(_error: Memory) -> SoapError {
        SoapError::Memory
    }
}

impl From<AllocError> for SoapError {
    ghost use Rattle.std.specs.Prelude.{◌≡◌};
    ghost use Rattle.pws_soap.specs.declared.errors.SoapError.{SoapError};

    ghost from_gives = { λ _ e. e ≡ SoapError.Memory };

    fn from(_error: AllocError) -> SoapError {
        SoapError::Memory
    }
}

impl<T: Drop> From<AllocFailed<T>> for SoapError {
    ghost use Rattle.std.specs.Prelude.{◌≡◌};
    ghost use Rattle.pws_soap.specs.declared.errors.SoapError.{SoapError};

    ghost from_gives = { λ _ e. e ≡ SoapError.Memory };

    fn from(_error: AllocFailed<T>) -> SoapError {
        SoapError::Memory
    }
}
