//! Committing what is prepared.

ghost use Rattle.std.specs.List.{range_with_len};
ghost use Rattle.std.specs.Prelude.{◌≡◌, ◌-◌, find, []};
ghost use Rattle.pws_protocol.specs.Actions.{can_commit, next_commit};
ghost use Rattle.pws_protocol.specs.Doing.{did_commit};

use crate::states::State;
use pws_base::shapes::Place;
use pws_votes::books::VoteBook;
use pws_votes::kinds::VoteKind;

impl<B: VoteBook> State<B> {
    /// Whether the slot at a place can be committed: it is prepared, isn't committed, and 2f + 1 COMMITs match.
    #[tactic(auto, unfolding(pws_protocol::specs::Actions::can_commit))]
    fn can_commit(&self, place: Place) -> bool
        ensures { result ≡ can_commit self.now place }
    {
        match self.slots.get(place) {
            Some(slot) => {
                slot.is_prepared
                    && !slot.is_committed
                    && self.me.shape.quorum()
                        <= self.book.matching(VoteKind::Commit, place, &slot.digest)
            }
            None => false,
        }
    }

    /// The least place of such a slot, from one place to another.
    fn first_commit(&self, from: Place, to: Place) -> Option<Place>
        ensures { result ≡ find (λ p. can_commit self.now p) (range_with_len from (to - from)) }
    {
        (from..to).find(|place| self.can_commit(*place))
    }

    /// The least place of such a slot, while active.
    #[tactic(auto, using(crate::proofs::Places::window_is), unfolding(pws_protocol::specs::Actions::next_commit))]
    pub(crate) fn next_commit(&self) -> Option<Place>
        ensures { result ≡ next_commit self.now }
    {
        if !self.active {
            return None;
        }
        self.first_commit(self.low + 1, self.low + 33)
    }

    /// Commits the slot at a place, without a word to others.
    #[tactic(auto, unfolding(pws_protocol::specs::Doing::did_commit))]
    pub(crate) fn did_commit(&mut self, place: Place)
        ensures state { self.new ≡ (did_commit self.old place).state }
        ensures outs { (did_commit self.old place).outs ≡ [] }
    {
        let Some(before) = self.slot(place) else {
            return;
        };
        let mut slot = before;
        slot.is_committed = true;
        self.put_slot(place, slot);
    }
}
