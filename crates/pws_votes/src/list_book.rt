//! A book of votes that is a plain list.

ghost use Rattle.std.specs.Prelude.{◌≡◌, ℕ, find, filter, nat_lt, is_some, IsTrue};
ghost use Rattle.std.specs.Option.{option_copied, option_map};
ghost use Rattle.std.specs.FinMap.{get};
ghost use Rattle.pws_votes.specs.Votes.{key, can_vote, is_checkpoint, is_vote_for};
ghost use Rattle.pws_votes.specs.ListBooks.{key_of, is_same_kind, is_same_key};

use crate::books::{VoteBook, can_vote};
use crate::kinds::{Vote, VoteKind};
use pws_base::lists::ExactCopy;
use pws_base::memory::Memory;
use pws_base::shapes::{Digest, GroupShape, Place};
use std::alloc::Global;
use std::marker::Model;

/// One vote.
#[derive(Clone, Copy)]
struct Entry {
    /// What it says of the digest.
    kind: VoteKind,
    /// The place that it is about.
    place: Place,
    /// The index of the replica whose vote it is.
    voter: u8,
    /// The digest that it is for.
    digest: Digest,
}

/// A book that searches the list of its votes.
///
/// Contracts see it as a `Book`.
#[derive(Drop)]
pub struct ListBook {
    /// The shape of the group.
    shape: GroupShape,
    /// The low mark.
    low: Place,
    /// The votes, no two of one kind, place and voter, each of a replica of the group and in the window.
    entries: Vec<Entry>,
}

impl Model for ListBook {
    ghost use Rattle.pws_votes.specs.Votes.{Book, book_code};
    ghost use Rattle.pws_votes.specs.ListBooks.{votes_in, IsKept};

    ghost Value = { Book };

    ghost coded = { book_code };

    ghost view = { λ b. record { f = b.shape; low = b.low; votes = votes_in b.entries.items } };

    ghost invariant = { λ b. IsKept b.shape b.low b.entries.items };
}

/// Whether two kinds are one.
fn is_same_kind(a: VoteKind, b: VoteKind) -> bool
    ensures { result ≡ is_same_kind a b }
{
    match (a, b) {
        (VoteKind::Prepare, VoteKind::Prepare) => true,
        (VoteKind::Commit, VoteKind::Commit) => true,
        (VoteKind::Checkpoint, VoteKind::Checkpoint) => true,
        _ => false,
    }
}

/// Whether a kind outlives its view.
fn is_checkpoint(kind: VoteKind) -> bool
    ensures { result ≡ is_checkpoint kind }
{
    match kind {
        VoteKind::Checkpoint => true,
        _ => false,
    }
}

/// Whether an entry is this voter's vote of this kind at this place.
fn is_at(entry: &Entry, kind: VoteKind, place: Place, voter: u8) -> bool
    ensures { result ≡ is_same_key (key kind place voter) (key_of entry.now) }
{
    is_same_kind(kind, entry.kind) && place == entry.place && voter == entry.voter
}

/// The entry of a voter's vote of this kind at this place.
fn entry_at(entries: &[Entry], kind: VoteKind, place: Place, voter: u8) -> Option<&Entry>
    ensures { option_copied result ≡ find (λ e. is_same_key (key kind place voter) (key_of e)) entries.now }
{
    entries.iter().find(|e| is_at(e, kind, place, voter))
}

/// Drops what doesn't outlive the view.
fn keep_checkpoints(entries: &mut Vec<Entry>)
    ensures { entries.new.items ≡ filter (λ e. is_checkpoint e.kind) entries.old.items }
{
    entries.retain(|e| is_checkpoint(e.kind));
}

/// Drops the places up to a low mark.
fn keep_above(entries: &mut Vec<Entry>, low: Place)
    ensures { entries.new.items ≡ filter (λ e. nat_lt low e.place) entries.old.items }
{
    entries.retain(|e| low < e.place);
}

/// The digest that a voter voted for.
fn digest_at(entries: &[Entry], kind: VoteKind, place: Place, voter: u8) -> Option<Digest>
    ensures { result ≡ option_map (λ e. e.digest) (find (λ e. is_same_key (key kind place voter) (key_of e)) entries.now) }
{
    match entry_at(entries, kind, place, voter) {
        Some(entry) => Some(entry.digest),
        None => None,
    }
}

impl ListBook {
    /// The digest that a voter voted for.
    fn said(&self, kind: VoteKind, place: Place, voter: u8) -> Option<Digest>
        ensures value { result ≡ get self.now.votes (key kind place voter) }
        ensures inside { IsTrue (is_some result) → IsTrue (can_vote self.now (key kind place voter)) }
    {
        digest_at(&self.entries, kind, place, voter)
    }

    /// Whether a voter voted for this digest.
    fn is_vote_for(&self, kind: VoteKind, place: Place, digest: &Digest, voter: u8) -> bool
        ensures { result ≡ is_vote_for self.now kind place digest.now voter }
    {
        match self.said(kind, place, voter) {
            Some(said) => said.as_slice() == digest.as_slice(),
            None => false,
        }
    }
}

impl ExactCopy for ListBook {
    fn copy(&self, alloc: Global) -> Result<ListBook, Memory> {
        Ok(ListBook {
            shape: self.shape,
            low: self.low,
            entries: self.entries.to_vec(alloc)?,
        })
    }
}

impl VoteBook for ListBook {
    ghost use Rattle.pws_votes.specs.Votes.{Book};

    ghost book = { λ b. b };

    #[tactic(auto, unfolding(crate::specs::ListBooks::votes_in))]
    fn new(alloc: Global, shape: GroupShape) -> Result<ListBook, Memory> {
        Ok(ListBook {
            shape,
            low: 0,
            entries: Vec::new(alloc),
        })
    }

    fn low(&self) -> Place {
        self.low
    }

    #[tactic(auto, using(crate::proofs::Found::pushed))]
    fn vote(
        &mut self,
        kind: VoteKind,
        place: Place,
        voter: u8,
        digest: &Digest,
    ) -> Result<Vote, Memory> {
        if !can_vote(self.shape, self.low, place, voter) {
            return Ok(Vote::Outside);
        }
        if self.has(kind, place, voter) {
            return Ok(Vote::Already);
        }
        self.entries.push(Entry {
            kind,
            place,
            voter,
            digest: *digest,
        })?;
        Ok(Vote::Kept)
    }

    fn has(&self, kind: VoteKind, place: Place, voter: u8) -> bool {
        self.said(kind, place, voter).is_some()
    }

    #[tactic(auto, unfolding(crate::specs::Votes::matching_of))]
    fn matching(&self, kind: VoteKind, place: Place, digest: &Digest) -> u8 {
        let mut count = 0;
        for voter in 0..self.shape.n() {
            if self.is_vote_for(kind, place, digest, voter) {
                count += 1;
            }
        }
        count
    }

    fn count(&self) -> usize {
        self.entries.len()
    }

    #[tactic(auto, using(crate::proofs::Found::filtered_kind))]
    fn clear_view(&mut self) {
        keep_checkpoints(&mut self.entries);
    }

    fn raise_low(&mut self, low: Place) {
        keep_above(&mut self.entries, low);
        self.low = low;
    }
}
