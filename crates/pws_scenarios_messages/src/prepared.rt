//! What is noted in prepared and pre-prepared sets.

use crate::digests::Digests;
use pws_base::lists::ExactCopy;
use pws_change::pre_prepared::{NoteError, QSet};
use pws_change::prepared::PSet;
use pws_msg::changes::{PRow, QRow};
use pws_scenarios::layers::StepError;
use std::alloc::Global;

/// The digests prepared at each place.
#[derive(Drop)]
pub struct Prepared {
    digests: Digests,
    set: PSet,
}

/// The digests pre-prepared at each place.
#[derive(Drop)]
pub struct PrePrepared {
    digests: Digests,
    set: QSet,
}

fn p_row(alloc: Global, digests: &Digests, row: &PRow) -> Result<String, StepError> {
    let digest = digests.shown(alloc, &row.digest)?;
    Ok(format!(in alloc; "{}:{digest}:{}", row.place, row.view)?)
}

fn q_row(alloc: Global, digests: &Digests, row: &QRow) -> Result<String, StepError> {
    let mut text = format!(in alloc; "{}", row.place)?;
    let mut mark = ":";
    for seen in row.digests.as_slice() {
        let digest = digests.shown(alloc, &seen.digest)?;
        let piece = format!(in alloc; "{mark}{digest}:{}", seen.view)?;
        text.push_str(piece.as_str())?;
        mark = "/";
    }
    Ok(text)
}

impl Prepared {
    /// An empty set.
    pub fn new(alloc: Global) -> Prepared {
        Prepared {
            digests: Digests::new(alloc),
            set: PSet::new(alloc),
        }
    }

    /// Takes a step.
    pub fn step(
        &mut self,
        alloc: Global,
        words: &[&str],
        answers: &mut Vec<String>,
    ) -> Result<(), StepError> {
        match words {
            ["digest", name, digits] => self.digests.add(alloc, name, digits)?,
            ["note", place, digest, view] => {
                let digest = self.digests.named(digest)?;
                self.set
                    .note(place.parse::<u32>()?, &digest, view.parse::<u32>()?)?;
            }
            ["trim", low] => self.set.trim(low.parse::<u32>()?),
            ["rows"] => {
                let set = self.set.copy(alloc)?;
                for row in set.rows() {
                    answers.push(p_row(alloc, &self.digests, row)?)?;
                }
            }
            _ => return Err(StepError::NoSuchStep),
        }
        Ok(())
    }
}

impl PrePrepared {
    /// An empty set.
    pub fn new(alloc: Global) -> PrePrepared {
        PrePrepared {
            digests: Digests::new(alloc),
            set: QSet::new(alloc),
        }
    }

    /// Notes a digest at a place, and answers whether its row had room. That is also told before.
    fn note(
        &mut self,
        alloc: Global,
        place: u32,
        digest: &str,
        view: u32,
    ) -> Result<&'static str, StepError> {
        let digest = self.digests.named(digest)?;
        let full = self.set.is_full(place, &digest);
        match self.set.note(alloc, place, &digest, view) {
            Ok(()) if !full => Ok("ok"),
            Ok(()) => Ok("ok, though told to be full"),
            Err(NoteError::RowFull) if full => Ok("full"),
            Err(NoteError::RowFull) => Ok("full, though told to have room"),
            Err(NoteError::Memory) => Err(StepError::Memory),
        }
    }

    /// Takes a step.
    pub fn step(
        &mut self,
        alloc: Global,
        words: &[&str],
        answers: &mut Vec<String>,
    ) -> Result<(), StepError> {
        match words {
            ["digest", name, digits] => self.digests.add(alloc, name, digits)?,
            ["note", place, digest, view] => {
                let answer = self.note(alloc, place.parse::<u32>()?, digest, view.parse::<u32>()?)?;
                answers.push(format!(in alloc; "{answer}")?)?;
            }
            ["trim", low] => self.set.trim(low.parse::<u32>()?),
            ["rows"] => {
                let set = self.set.copy(alloc)?;
                for row in set.rows() {
                    answers.push(q_row(alloc, &self.digests, row)?)?;
                }
            }
            _ => return Err(StepError::NoSuchStep),
        }
        Ok(())
    }
}
