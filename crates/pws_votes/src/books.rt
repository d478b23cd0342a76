//! Books of votes.

ghost use Rattle.std.specs.Prelude.{◌≡◌, ◌≤◌, ◌&&◌, nat_lt, IsTrue, IfOk, OnOk, OnErr};
ghost use Rattle.std.specs.FinMap.{len};
ghost use Rattle.pws_base.specs.Places.{is_in_window};
ghost use Rattle.pws_base.specs.Shapes.{size_of_group};
ghost use Rattle.pws_votes.specs.Votes.{Book, key, new_book, answer_to, after_vote, has_vote, can_vote, without_view, raised_to, matching_of};

use crate::kinds::{Vote, VoteKind};
use pws_base::lists::ExactCopy;
use pws_base::memory::Memory;
use pws_base::places::is_in_window;
use pws_base::shapes::{Digest, GroupShape, Place};
use std::alloc::Global;

/// The votes of a group's replicas: those of one view, and those for checkpoints, which outlive views.
///
/// Its meaning, `book`, is the group's shape, a low mark and a finite map from kind, place and voter to a digest. The
/// window is the 32 places above the low mark.
pub trait VoteBook: ExactCopy {
    ghost book: { Self → Book };

    /// A book of a group without votes, of low mark 0.
    ///
    /// # Errors
    ///
    /// `Memory` only.
    fn new(alloc: Global, shape: GroupShape) -> Result<Self, Memory>
        ensures { IfOk result (λ b. book b ≡ new_book shape) };

    /// The low mark.
    fn low(&self) -> Place
        ensures { result ≡ (book self.now).low };

    /// Keeps a vote, unless the voter is no replica or the place is out of the window (`Outside`), or the voter has a
    /// vote of this kind at this place (`Already`).
    ///
    /// # Errors
    ///
    /// `Memory` only; the book is unchanged then.
    fn vote(
        &mut self,
        kind: VoteKind,
        place: Place,
        voter: u8,
        digest: &Digest,
    ) -> Result<Vote, Memory>
        ensures answer { IfOk result (λ v. v ≡ answer_to (book self.old) (key kind place voter)) }
        ensures ok { OnOk result (book self.new ≡ after_vote (book self.old) (key kind place voter) digest.now) }
        ensures err { OnErr result (book self.new ≡ book self.old) };

    /// Whether a voter has a vote of this kind at this place; then it is a replica of the group, and the place is in the
    /// window.
    fn has(&self, kind: VoteKind, place: Place, voter: u8) -> bool
        ensures value { result ≡ has_vote (book self.now) (key kind place voter) }
        ensures inside { IsTrue result → IsTrue (can_vote (book self.now) (key kind place voter)) };

    /// How many voters have a vote of this kind at this place for this digest.
    fn matching(&self, kind: VoteKind, place: Place, digest: &Digest) -> u8
        ensures { result ≡ matching_of (book self.now) kind place digest.now };

    /// How many votes it has.
    fn count(&self) -> usize
        ensures value { result ≡ len (book self.now).votes }
        ensures few { result ≤ 960 };

    /// Leaves the view: drops `Prepare` and `Commit`.
    fn clear_view(&mut self)
        ensures { book self.new ≡ without_view (book self.old) };

    /// Raises the low mark, which doesn't fall, and drops the places up to it.
    fn raise_low(&mut self, low: Place)
        requires rises { (book self.old).low ≤ low }
        requires small { low ≤ 1000000 }
        ensures { book self.new ≡ raised_to low (book self.old) };
}

/// Whether a voter is a replica of the group, and a place in the window.
pub(crate) fn can_vote(shape: GroupShape, low: Place, place: Place, voter: u8) -> bool
    ensures { result ≡ (nat_lt voter (size_of_group shape) && is_in_window low place) }
{
    voter < shape.n() && is_in_window(low, place)
}
