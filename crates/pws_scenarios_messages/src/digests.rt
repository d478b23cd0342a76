//! Digests by name.

use pws_base::shapes::Digest;
use pws_scenarios::layers::StepError;
use pws_scenarios::words::{array_of, spelled};
use std::alloc::Global;

/// A digest and its name.
#[derive(Drop)]
struct Name {
    word: String,
    digest: Digest,
}

/// The names that a case has given to digests.
#[derive(Drop)]
pub struct Digests {
    names: Vec<Name>,
}

impl Digests {
    /// No names.
    pub fn new(alloc: Global) -> Digests {
        Digests {
            names: Vec::new(alloc),
        }
    }

    /// Names a digest, which stands as 64 digits.
    pub fn add(&mut self, alloc: Global, word: &str, digits: &str) -> Result<(), StepError> {
        let (word, digest) = (String::from_str(alloc, word)?, array_of(digits)?);
        Ok(self.names.push(Name { word, digest })?)
    }

    /// The digest of a name.
    pub fn named(&self, word: &str) -> Result<Digest, StepError> {
        for name in &self.names {
            if name.word.as_str() == word {
                return Ok(name.digest);
            }
        }
        Err(StepError::Expected("the name of a digest"))
    }

    /// The name of a digest, or the digest where it has none.
    pub fn shown(&self, alloc: Global, digest: &Digest) -> Result<String, StepError> {
        for name in &self.names {
            if name.digest == *digest {
                return Ok(String::from_str(alloc, name.word.as_str())?);
            }
        }
        spelled(alloc, digest)
    }
}
