//! Lists of events, with their digests and chain.

use crate::events::{event_of, kind_of};
use pws_base::lists::ExactCopy;
use pws_base::shapes::Digest;
use pws_event::lists::{EventList, PushError, Pushed};
use pws_scenarios::layers::StepError;
use pws_scenarios::words::spelled;
use std::alloc::Global;

/// A list of events.
#[derive(Drop)]
pub struct Lists {
    list: EventList,
}

/// A digest as an answer has it, `-` where there is none.
fn digest_or_none(alloc: Global, digest: Option<Digest>) -> Result<String, StepError> {
    match digest {
        Some(digest) => spelled(alloc, &digest),
        None => Ok(format!(in alloc; "-")?),
    }
}

impl Lists {
    /// An empty list.
    pub fn new(alloc: Global) -> Lists {
        Lists {
            list: EventList::new(alloc),
        }
    }

    fn push(&mut self, alloc: Global, text: &str) -> Result<&'static str, StepError> {
        match self.list.push(alloc, event_of(alloc, text)?) {
            Ok(Pushed::Whole) => Ok("whole"),
            Ok(Pushed::Bare) => Ok("bare"),
            Err(PushError::ListFull) => Ok("full"),
            Err(PushError::Memory) => Err(StepError::Memory),
        }
    }

    /// The kind, the digest and the chain at a place.
    fn at(&self, alloc: Global, place: u32) -> Result<String, StepError> {
        let kind = match self.list.get(place) {
            Some(event) => kind_of(event),
            None => "-",
        };
        let digest = digest_or_none(alloc, self.list.digest(place))?;
        let chain = digest_or_none(alloc, self.list.chain(place))?;
        Ok(format!(in alloc; "{kind} {digest} {chain}")?)
    }

    /// Takes a step, on a copy of the list.
    pub fn step(
        &mut self,
        alloc: Global,
        words: &[&str],
        answers: &mut Vec<String>,
    ) -> Result<(), StepError> {
        self.list = self.list.copy(alloc)?;
        match words {
            ["push", text] => {
                let pushed = self.push(alloc, text)?;
                answers.push(format!(in alloc; "{pushed}")?)?;
            }
            ["at", place] => answers.push(self.at(alloc, place.parse::<u32>()?)?)?,
            ["size"] => {
                let size = format!(in alloc; "{} {}", self.list.len(), self.list.bytes())?;
                answers.push(size)?;
            }
            _ => return Err(StepError::NoSuchStep),
        }
        Ok(())
    }
}
