//! What view changes and new views are made of, in words: parts by colons, lists by commas.

use crate::digests::Digests;
use pws_base::lists::Sequence;
use pws_base::shapes::Digest;
use pws_msg::changes::{Checkpoint, Named, PRow, QRow, Seen};
use pws_scenarios::layers::StepError;
use std::alloc::Global;

/// What stands in a list.
pub trait Row: Drop {
    /// The row that a word tells.
    fn read(alloc: Global, digests: &Digests, word: &str) -> Result<Self, StepError>;
}

/// The rows of a list, whose words are parted by `mark`; `-` has none.
pub fn rows_of<T: Row>(
    alloc: Global,
    digests: &Digests,
    word: &str,
    mark: char,
) -> Result<Sequence<T>, StepError> {
    let mut rows = Sequence::new(alloc);
    if word != "-" {
        for piece in word.split(mark) {
            rows.push(T::read(alloc, digests, piece)?)?;
        }
    }
    Ok(rows)
}

/// A number and what stands behind its colon.
fn numbered(word: &str) -> Result<(u32, &str), StepError> {
    let (number, rest) = word
        .split_once(':')
        .ok_or(StepError::Expected("a number and a colon"))?;
    Ok((number.parse::<u32>()?, rest))
}

impl Row for Digest {
    fn read(_alloc: Global, digests: &Digests, word: &str) -> Result<Digest, StepError> {
        digests.named(word)
    }
}

impl Row for Checkpoint {
    fn read(_alloc: Global, digests: &Digests, word: &str) -> Result<Checkpoint, StepError> {
        let (place, name) = numbered(word)?;
        let digest = digests.named(name)?;
        Ok(Checkpoint { place, digest })
    }
}

impl Row for Named {
    fn read(_alloc: Global, digests: &Digests, word: &str) -> Result<Named, StepError> {
        let (index, name) = numbered(word)?;
        let index = u8::try_from(index).map_err(|_| StepError::Expected("an index"))?;
        let digest = digests.named(name)?;
        Ok(Named { index, digest })
    }
}

impl Row for Seen {
    fn read(_alloc: Global, digests: &Digests, word: &str) -> Result<Seen, StepError> {
        let (name, view) = word
            .split_once(':')
            .ok_or(StepError::Expected("a digest, a colon and a view"))?;
        let digest = digests.named(name)?;
        let view = view.parse::<u32>()?;
        Ok(Seen { digest, view })
    }
}

impl Row for PRow {
    fn read(alloc: Global, digests: &Digests, word: &str) -> Result<PRow, StepError> {
        let (place, rest) = numbered(word)?;
        let Seen { digest, view } = Seen::read(alloc, digests, rest)?;
        Ok(PRow {
            place,
            digest,
            view,
        })
    }
}

impl Row for QRow {
    fn read(alloc: Global, digests: &Digests, word: &str) -> Result<QRow, StepError> {
        let (place, rest) = numbered(word)?;
        let digests = rows_of(alloc, digests, rest, '/')?;
        Ok(QRow { place, digests })
    }
}
