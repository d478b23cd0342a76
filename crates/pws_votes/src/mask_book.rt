//! A book of votes that takes its memory when it is made.

ghost use Rattle.std.specs.Prelude.{◌≡◌, ◌<◌, ◌≤◌, ◌+◌, ◌/◌, ◌%◌, ◌*◌, ◌&&◌, ℕ, None, true, is_some, IsTrue, IfOk, IsOk, OnOk, OnErr};
ghost use Rattle.std.specs.FinMap.{get, len};
ghost use Rattle.pws_base.specs.Limits.{max_number};
ghost use Rattle.pws_base.specs.Places.{is_in_window};
ghost use Rattle.pws_votes.specs.Votes.{key, answer_to, after_vote};
ghost use Rattle.pws_votes.specs.MaskBooks.{map_of, vote_at, vote_in, kind_at, is_inside, with_vote_at, with_vote, left_view, raised, AreWithin, votes_of};

use crate::books::{VoteBook, can_vote};
use crate::kinds::{Vote, VoteKind};
use crate::tallies::Tally;
use pws_base::lists::ExactCopy;
use pws_base::memory::Memory;
use pws_base::shapes::{Digest, GroupShape, Place};
use pws_places::places::Places;
use std::alloc::Global;
use std::marker::Model;

/// The votes by kind, and then by place.
#[derive(Drop)]
struct Tallies {
    prepares: Places<Tally>,
    commits: Places<Tally>,
    checkpoints: Places<Tally>,
}

/// A book that has a place in memory for every vote that there may be.
///
/// Contracts see it as a `Book`.
#[derive(Drop)]
pub struct MaskBook {
    /// The shape of the group.
    shape: GroupShape,
    /// The votes; all three maps have the low mark of the book.
    tallies: Tallies,
    /// How many votes there are.
    count: usize,
}

impl Model for MaskBook {
    ghost use Rattle.pws_votes.specs.Votes.{Book, book_code};
    ghost use Rattle.pws_votes.specs.MaskBooks.{votes_of, IsBook};

    ghost Value = { Book };

    ghost coded = { book_code };

    ghost view = { λ b. record { f = b.shape; low = b.tallies.prepares.low; votes = votes_of b.shape b.tallies } };

    ghost invariant = { λ b. IsBook b.shape b.tallies b.count };
}

/// The tallies of a kind.
fn map_of(tallies: &Tallies, kind: VoteKind) -> &Places<Tally>
    ensures { result.now ≡ map_of kind tallies.now }
{
    match kind {
        VoteKind::Prepare => &tallies.prepares,
        VoteKind::Commit => &tallies.commits,
        VoteKind::Checkpoint => &tallies.checkpoints,
    }
}

/// A voter's vote in the tallies of its kind.
fn vote_at(places: &Places<Tally>, place: Place, voter: u8) -> Option<Digest>
    requires { voter < 10 }
    ensures { result ≡ vote_at places.now place voter }
{
    match places.get(place) {
        Some(tally) => tally.get(voter),
        None => None,
    }
}

/// A voter's vote of a kind at a place.
fn vote_in(
    shape: GroupShape,
    tallies: &Tallies,
    kind: VoteKind,
    place: Place,
    voter: u8,
) -> Option<Digest>
    ensures { result ≡ vote_in shape tallies.now (key kind place voter) }
{
    if !can_vote(shape, tallies.prepares.low(), place, voter) {
        return None;
    }
    vote_at(map_of(tallies, kind), place, voter)
}

/// The kind of a number.
fn kind_at(number: u32) -> VoteKind
    ensures { result ≡ kind_at number }
{
    if number == 0 {
        VoteKind::Prepare
    } else if number == 1 {
        VoteKind::Commit
    } else {
        VoteKind::Checkpoint
    }
}

/// How many votes there are. Every one that there may be is looked at: 960 in a group of ten.
fn count_votes(shape: GroupShape, tallies: &Tallies) -> usize
    ensures { result ≡ len (votes_of shape tallies.now) }
{
    let low = tallies.prepares.low();
    let mut count = 0;
    for i in 0..960u32 {
        let place = low + 1 + i % 320 / 10;
        let voter = (i % 10) as u8;
        if vote_in(shape, tallies, kind_at(i / 320), place, voter).is_some() {
            count += 1;
        }
    }
    count
}

/// Adds a vote to the tallies of its kind.
fn add_at(places: &mut Places<Tally>, place: Place, voter: u8, digest: &Digest)
    requires few { voter < 10 }
    requires inside { is_in_window places.old.low place ≡ true }
    requires none { vote_at places.old place voter ≡ None }
    ensures { places.new ≡ with_vote_at places.old place voter digest.now }
{
    let mut tally = match places.remove(place) {
        Some(tally) => tally,
        None => Tally::new(),
    };
    tally.add(voter, digest);
    let _answer = places.put(place, tally);
}

/// Adds a vote.
fn add_vote(tallies: &mut Tallies, kind: VoteKind, place: Place, voter: u8, digest: &Digest)
    requires few { voter < 10 }
    requires inside { is_in_window (map_of kind tallies.old).low place ≡ true }
    requires none { vote_at (map_of kind tallies.old) place voter ≡ None }
    ensures { tallies.new ≡ with_vote kind tallies.old place voter digest.now }
{
    match kind {
        VoteKind::Prepare => add_at(&mut tallies.prepares, place, voter, digest),
        VoteKind::Commit => add_at(&mut tallies.commits, place, voter, digest),
        VoteKind::Checkpoint => add_at(&mut tallies.checkpoints, place, voter, digest),
    }
}

/// Drops what doesn't outlive the view.
fn leave_view(tallies: &mut Tallies)
    ensures { tallies.new ≡ left_view tallies.old }
{
    tallies.prepares.clear();
    tallies.commits.clear();
}

/// Raises the low mark, and drops what is at or below it.
fn raise(tallies: &mut Tallies, low: Place)
    requires prepares { tallies.old.prepares.low ≤ low }
    requires commits { tallies.old.commits.low ≤ low }
    requires checkpoints { tallies.old.checkpoints.low ≤ low }
    requires small { low ≤ max_number }
    ensures { tallies.new ≡ raised low tallies.old }
{
    tallies.prepares.raise_to(low);
    tallies.commits.raise_to(low);
    tallies.checkpoints.raise_to(low);
}

/// That what has votes is in the window.
fn are_within(tallies: &Tallies)
    ensures { AreWithin tallies.now }
{
    let _prepares = tallies.prepares.low();
    let _commits = tallies.commits.low();
    let _checkpoints = tallies.checkpoints.low();
}

impl MaskBook {
    /// Keeps a vote, as `VoteBook::vote` does, and takes no memory.
    pub fn keep(&mut self, kind: VoteKind, place: Place, voter: u8, digest: &Digest) -> Vote
        ensures answer { result ≡ answer_to self.old (key kind place voter) }
        ensures book { self.new ≡ after_vote self.old (key kind place voter) digest.now }
    {
        let low = self.tallies.prepares.low();
        if !can_vote(self.shape, low, place, voter) {
            return Vote::Outside;
        }
        if vote_in(self.shape, &self.tallies, kind, place, voter).is_some() {
            return Vote::Already;
        }
        add_vote(&mut self.tallies, kind, place, voter, digest);
        self.count += 1;
        Vote::Kept
    }
}

impl ExactCopy for MaskBook {
    fn copy(&self, alloc: Global) -> Result<MaskBook, Memory> {
        Ok(MaskBook {
            shape: self.shape,
            tallies: Tallies {
                prepares: self.tallies.prepares.copy(alloc)?,
                commits: self.tallies.commits.copy(alloc)?,
                checkpoints: self.tallies.checkpoints.copy(alloc)?,
            },
            count: self.count,
        })
    }
}

impl VoteBook for MaskBook {
    ghost use Rattle.pws_votes.specs.Votes.{Book};

    ghost book = { λ b. b };

    fn new(alloc: Global, shape: GroupShape) -> Result<MaskBook, Memory> {
        Ok(MaskBook {
            shape,
            tallies: Tallies {
                prepares: Places::new(alloc)?,
                commits: Places::new(alloc)?,
                checkpoints: Places::new(alloc)?,
            },
            count: 0,
        })
    }

    fn low(&self) -> Place {
        self.tallies.prepares.low()
    }

    fn vote(
        &mut self,
        kind: VoteKind,
        place: Place,
        voter: u8,
        digest: &Digest,
    ) -> Result<Vote, Memory>
        ensures answer { IfOk result (λ v. v ≡ answer_to self.old (key kind place voter)) }
        ensures ok { OnOk result (self.new ≡ after_vote self.old (key kind place voter) digest.now) }
        ensures err { OnErr result (self.new ≡ self.old) }
        ensures no_memory { IsOk result }
    {
        Ok(self.keep(kind, place, voter, digest))
    }

    fn has(&self, kind: VoteKind, place: Place, voter: u8) -> bool {
        vote_in(self.shape, &self.tallies, kind, place, voter).is_some()
    }

    fn matching(&self, kind: VoteKind, place: Place, digest: &Digest) -> u8 {
        match map_of(&self.tallies, kind).get(place) {
            Some(tally) => tally.matching(self.shape.n(), digest),
            None => 0,
        }
    }

    fn count(&self) -> usize {
        self.count
    }

    fn clear_view(&mut self) {
        leave_view(&mut self.tallies);
        self.count = count_votes(self.shape, &self.tallies);
    }

    fn raise_low(&mut self, low: Place) {
        // shows: what has votes is in the window
        are_within(&self.tallies);
        raise(&mut self.tallies, low);
        self.count = count_votes(self.shape, &self.tallies);
    }
}
