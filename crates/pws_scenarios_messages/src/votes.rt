//! The votes of a group's replicas.

use crate::digests::Digests;
use pws_base::lists::ExactCopy;
use pws_scenarios::layers::StepError;
use pws_scenarios::words::shape_of;
use pws_votes::books::VoteBook;
use pws_votes::kinds::{Vote, VoteKind};
use pws_votes::list_book::ListBook;
use std::alloc::Global;

/// A book of votes, once the case has named its group.
#[derive(Drop)]
pub struct Votes {
    digests: Digests,
    book: Option<ListBook>,
}

fn kind_of(word: &str) -> Result<VoteKind, StepError> {
    match word {
        "prepare" => Ok(VoteKind::Prepare),
        "commit" => Ok(VoteKind::Commit),
        "checkpoint" => Ok(VoteKind::Checkpoint),
        _ => Err(StepError::Expected("`prepare`, `commit` or `checkpoint`")),
    }
}

fn answer_of(vote: Vote) -> &'static str {
    match vote {
        Vote::Kept => "kept",
        Vote::Outside => "outside",
        Vote::Already => "already",
    }
}

/// Takes a vote: its kind, place, voter and digest. Answers it, whether the voter then has a vote there, and how many
/// votes the book has.
fn vote<B: VoteBook>(
    alloc: Global,
    book: &mut B,
    digests: &Digests,
    words: [&str; 4],
) -> Result<String, StepError> {
    let [kind, place, voter, digest] = words;
    let kind = kind_of(kind)?;
    let (place, voter) = (place.parse::<u32>()?, voter.parse::<u8>()?);
    let answer = answer_of(book.vote(kind, place, voter, &digests.named(digest)?)?);
    let has = if book.has(kind, place, voter) {
        "has"
    } else {
        "lacks"
    };
    Ok(format!(in alloc; "{answer} {has} {}", book.count())?)
}

/// How many voters have a vote of this kind at this place for this digest.
fn matching<B: VoteBook>(book: &B, digests: &Digests, words: [&str; 3]) -> Result<u8, StepError> {
    let [kind, place, digest] = words;
    Ok(book.matching(
        kind_of(kind)?,
        place.parse::<u32>()?,
        &digests.named(digest)?,
    ))
}

fn raise<B: VoteBook>(book: &mut B, low: u32) -> Result<(), StepError> {
    if low < book.low() || low > 1_000_000 {
        return Err(StepError::Expected("a low mark that doesn't fall"));
    }
    book.raise_low(low);
    Ok(())
}

impl Votes {
    /// No book and no name yet.
    pub fn new(alloc: Global) -> Votes {
        Votes {
            digests: Digests::new(alloc),
            book: None,
        }
    }

    /// Begins an empty book.
    fn begin(&mut self, alloc: Global, f: &str) -> Result<(), StepError> {
        match shape_of(f) {
            Ok(shape) => {
                self.book = Some(ListBook::new(alloc, shape)?);
                Ok(())
            }
            Err(error) => Err(error),
        }
    }

    /// Takes a step, on a copy of the book.
    pub fn step(
        &mut self,
        alloc: Global,
        words: &[&str],
        answers: &mut Vec<String>,
    ) -> Result<(), StepError> {
        match words {
            ["digest", name, digits] => return self.digests.add(alloc, name, digits),
            ["group", f] => return self.begin(alloc, f),
            _ => {}
        }
        let Some(book) = self.book.as_mut() else {
            return Err(StepError::Expected("`group` before it"));
        };
        *book = book.copy(alloc)?;
        match words {
            ["vote", kind, place, voter, digest] => {
                let words = [*kind, *place, *voter, *digest];
                answers.push(vote(alloc, book, &self.digests, words)?)?;
            }
            ["matching", kind, place, digest] => {
                let count = matching(book, &self.digests, [*kind, *place, *digest])?;
                answers.push(format!(in alloc; "{count}")?)?;
            }
            ["clear"] => book.clear_view(),
            ["raise", low] => raise(book, low.parse::<u32>()?)?,
            _ => return Err(StepError::NoSuchStep),
        }
        Ok(())
    }
}
