//! View changes: which are valid, what a list of them decides, and which new views agree with it.

use crate::digests::Digests;
use crate::rows::rows_of;
use pws_base::lists::ExactCopy;
use pws_base::shapes::GroupShape;
use pws_change::agreements::agrees;
use pws_change::choices::choose;
use pws_change::decisions::Decision;
use pws_change::heard::{Heard, lend_all};
use pws_change::valid::valid;
use pws_msg::changes::{Choice, NewView, ViewChange};
use pws_scenarios::layers::StepError;
use pws_scenarios::words::shape_of;
use std::alloc::Global;

/// The view changes that a group's replica has heard.
#[derive(Drop)]
pub struct Choices {
    digests: Digests,
    shape: Option<GroupShape>,
    changes: Vec<Heard>,
}

impl Choices {
    /// No group, no change and no name yet.
    pub fn new(alloc: Global) -> Choices {
        Choices {
            digests: Digests::new(alloc),
            shape: None,
            changes: Vec::new(alloc),
        }
    }

    /// Hears a view change: its sender's index, its digest, and its view, low mark, checkpoints, prepared and pre-prepared
    /// rows. Answers whether it is valid.
    fn hear(&mut self, alloc: Global, words: [&str; 7]) -> Result<&'static str, StepError> {
        let [
            index,
            digest,
            view,
            low,
            checkpoints,
            prepared,
            pre_prepared,
        ] = words;
        let change = ViewChange {
            view: view.parse::<u32>()?,
            low: low.parse::<u32>()?,
            checkpoints: rows_of(alloc, &self.digests, checkpoints, ',')?,
            prepared: rows_of(alloc, &self.digests, prepared, ',')?,
            pre_prepared: rows_of(alloc, &self.digests, pre_prepared, ',')?,
        };
        let answer = if valid(&change) { "valid" } else { "invalid" };
        let heard = Heard {
            index: index.parse::<u8>()?,
            digest: self.digests.named(digest)?,
            change,
        };
        self.changes.push(heard.copy(alloc)?)?;
        Ok(answer)
    }

    fn choice(&self, alloc: Global, words: [&str; 3]) -> Result<Choice, StepError> {
        let [place, digest, chosen] = words;
        Ok(Choice {
            place: place.parse::<u32>()?,
            digest: self.digests.named(digest)?,
            chosen: rows_of(alloc, &self.digests, chosen, ',')?,
        })
    }

    /// Whether a new view agrees: its view, the changes that it names, and the place, the digest and the events chosen.
    fn agrees(&self, alloc: Global, words: [&str; 5]) -> Result<&'static str, StepError> {
        let [view, named, place, digest, chosen] = words;
        let new = NewView {
            view: view.parse::<u32>()?,
            named: rows_of(alloc, &self.digests, named, ',')?,
            choice: self.choice(alloc, [place, digest, chosen])?,
        };
        let Some(shape) = self.shape else {
            return Err(StepError::Expected("`group` before it"));
        };
        let lent = lend_all(alloc, &self.changes)?;
        Ok(if agrees(&new.copy(alloc)?, &lent, shape) {
            "agrees"
        } else {
            "differs"
        })
    }

    /// A choice in words.
    fn shown(&self, alloc: Global, choice: &Choice) -> Result<String, StepError> {
        let digest = self.digests.shown(alloc, &choice.digest)?;
        let mut text = format!(in alloc; "choice {} {digest} ", choice.place)?;
        let mut comma = "";
        for chosen in choice.chosen.as_slice() {
            text.push_str(comma)?;
            text.push_str(self.digests.shown(alloc, chosen)?.as_str())?;
            comma = ",";
        }
        if choice.chosen.is_empty() {
            text.push_str("-")?;
        }
        Ok(text)
    }

    /// What the changes decide.
    fn decide(&self, alloc: Global) -> Result<String, StepError> {
        let Some(shape) = self.shape else {
            return Err(StepError::Expected("`group` before it"));
        };
        let lent = lend_all(alloc, &self.changes)?;
        match choose(alloc, &lent, shape)?.copy(alloc)? {
            Decision::Chosen(choice) => self.shown(alloc, &choice),
            Decision::Undecided { place } => Ok(format!(in alloc; "undecided {place}")?),
        }
    }

    /// Adds what the changes decide, and what they decide in the reverse order where that is something else.
    fn answer(&mut self, alloc: Global, answers: &mut Vec<String>) -> Result<(), StepError> {
        let decided = self.decide(alloc)?;
        self.changes.reverse();
        let reversed = self.decide(alloc)?;
        self.changes.reverse();
        if reversed.as_str() != decided.as_str() {
            answers.push(format!(in alloc; "reversed: {reversed}")?)?;
        }
        Ok(answers.push(decided)?)
    }

    /// Takes a step.
    pub fn step(
        &mut self,
        alloc: Global,
        words: &[&str],
        answers: &mut Vec<String>,
    ) -> Result<(), StepError> {
        match words {
            ["digest", name, digits] => self.digests.add(alloc, name, digits),
            ["group", f] => match shape_of(f) {
                Ok(shape) => {
                    self.shape = Some(shape);
                    Ok(())
                }
                Err(error) => Err(error),
            },
            [
                "change",
                index,
                digest,
                view,
                low,
                checkpoints,
                prepared,
                pre_prepared,
            ] => {
                let words = [
                    *index,
                    *digest,
                    *view,
                    *low,
                    *checkpoints,
                    *prepared,
                    *pre_prepared,
                ];
                let answer = self.hear(alloc, words)?;
                Ok(answers.push(format!(in alloc; "{answer}")?)?)
            }
            ["decide"] => self.answer(alloc, answers),
            ["new", view, named, place, digest, chosen] => {
                let answer = self.agrees(alloc, [view, named, place, digest, chosen])?;
                Ok(answers.push(format!(in alloc; "{answer}")?)?)
            }
            _ => Err(StepError::NoSuchStep),
        }
    }
}
