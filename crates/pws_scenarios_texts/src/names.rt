//! Prefixes that a case gives to namespaces, and names in words and answers.

use pws_base::memory::Memory;
use pws_tree::texts::{Name, Text};
use std::alloc::Global;

/// A prefix and its namespace.
#[derive(Drop)]
struct Space {
    prefix: String,
    uri: String,
}

/// The prefixes of a case.
#[derive(Drop)]
pub struct Spaces {
    spaces: Vec<Space>,
}

impl Spaces {
    /// No prefix.
    pub fn new(alloc: Global) -> Spaces {
        Spaces {
            spaces: Vec::new(alloc),
        }
    }

    /// Gives a prefix to a namespace.
    ///
    /// # Errors
    ///
    /// `Memory` only.
    pub fn add(&mut self, alloc: Global, prefix: &str, uri: &str) -> Result<(), Memory> {
        let prefix = String::from_str(alloc, prefix)?;
        let uri = String::from_str(alloc, uri)?;
        Ok(self.spaces.push(Space { prefix, uri })?)
    }

    /// The namespace of a prefix; the empty one has none.
    fn uri(&self, prefix: &str) -> Option<&str> {
        if prefix.is_empty() {
            return Some("");
        }
        for space in &self.spaces {
            if space.prefix.as_str() == prefix {
                return Some(space.uri.as_str());
            }
        }
        None
    }

    /// The name that a word stands for, `LOCAL` or `PREFIX:LOCAL`, if the prefix is given.
    ///
    /// # Errors
    ///
    /// `Memory` only.
    pub fn name(&self, alloc: Global, word: &str) -> Result<Option<Name>, Memory> {
        let (prefix, local) = word.split_once(':').unwrap_or(("", word));
        let Some(uri) = self.uri(prefix) else {
            return Ok(None);
        };
        Ok(Some(Name {
            space: Text::from_str(alloc, uri)?,
            local: Text::from_str(alloc, local)?,
        }))
    }
}

/// A word and a name, whose namespace stands in braces.
///
/// # Errors
///
/// `Memory` only.
pub fn name_told(alloc: Global, word: &str, name: &Name) -> Result<String, Memory> {
    let (space, local) = (name.space.as_str(), name.local.as_str());
    Ok(format!(in alloc; "{word} {{{space}}}{local}")?)
}
