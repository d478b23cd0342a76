//! Raising the low mark, below which all is dropped.

ghost use Rattle.std.specs.Prelude.{◌≡◌, ◌≤◌, []};
ghost use Rattle.pws_base.specs.Limits.{max_number};
ghost use Rattle.pws_protocol.specs.Actions.{can_stable, next_stable};
ghost use Rattle.pws_protocol.specs.Doing.{did_stable};

use crate::states::State;
use pws_base::limits::{CHECKPOINT_DISTANCE, PLACE_WINDOW};
use pws_base::shapes::Place;
use pws_votes::books::VoteBook;
use pws_votes::kinds::VoteKind;

impl<B: VoteBook> State<B> {
    /// Whether a place above the low mark, up to the last one executed, has a chain that 2f + 1 CHECKPOINTs match.
    #[tactic(auto, unfolding(pws_protocol::specs::Actions::can_stable))]
    fn can_stable(&self, place: Place) -> bool
        ensures { result ≡ can_stable self.now place }
    {
        if place <= self.low || self.done < place {
            return false;
        }
        match self.chains.get(place) {
            Some(digest) => {
                self.me.shape.quorum() <= self.book.matching(VoteKind::Checkpoint, place, digest)
            }
            None => false,
        }
    }

    /// The greatest such place: above the low mark at most two are multiples of 16.
    #[tactic(auto, unfolding(pws_protocol::specs::Actions::next_stable))]
    pub(crate) fn next_stable(&self) -> Option<Place>
        ensures { result ≡ next_stable self.now }
    {
        let (near, far) = (self.low + CHECKPOINT_DISTANCE, self.low + PLACE_WINDOW);
        if self.can_stable(far) {
            return Some(far);
        }
        if self.can_stable(near) {
            return Some(near);
        }
        None
    }

    /// Raises the low mark, and drops all below it and what stands at it, its chain aside.
    #[tactic(auto, unfolding(pws_protocol::specs::Doing::did_stable))]
    pub(crate) fn did_stable(&mut self, place: Place)
        requires above { self.old.low ≤ place }
        requires small { place ≤ max_number }
        requires book { self.old.book.low ≤ place }
        ensures state { self.new ≡ (did_stable self.old place).state }
        ensures outs { (did_stable self.old place).outs ≡ [] }
    {
        self.low = place;
        self.chains.keep_from(place);
        self.pending.raise_to(place);
        self.slots.raise_to(place);
        self.book.raise_low(place);
        self.prepared.trim(place);
        self.pre_prepared.trim(place);
    }
}
