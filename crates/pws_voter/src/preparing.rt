//! Preparing what is accepted.

ghost use Rattle.std.specs.List.{range_with_len};
ghost use Rattle.pws_base.specs.Limits.{max_number};
ghost use Rattle.std.specs.Prelude.{◌≡◌, ◌≤◌, ◌-◌, find, ◌++◌, OnOk};
ghost use Rattle.pws_protocol.specs.Actions.{can_prepare, next_prepare};
ghost use Rattle.pws_protocol.specs.Doing.{did_prepare};

use crate::outs::Outs;
use crate::states::State;
use pws_base::memory::Memory;
use pws_base::shapes::Place;
use pws_msg::contents::Content;
use pws_msg::places::PlaceVote;
use pws_votes::books::VoteBook;
use pws_votes::kinds::VoteKind;
use std::alloc::Global;

impl<B: VoteBook> State<B> {
    /// Whether the slot at a place can be prepared: it isn't, and 2f PREPAREs match.
    #[tactic(auto, unfolding(pws_protocol::specs::Actions::can_prepare))]
    fn can_prepare(&self, place: Place) -> bool
        ensures { result ≡ can_prepare self.now place }
    {
        match self.slots.get(place) {
            Some(slot) => {
                !slot.is_prepared
                    && 2 * self.me.shape.f()
                        <= self.book.matching(VoteKind::Prepare, place, &slot.digest)
            }
            None => false,
        }
    }

    /// The least place of such a slot, from one place to another.
    fn first_prepare(&self, from: Place, to: Place) -> Option<Place>
        ensures { result ≡ find (λ p. can_prepare self.now p) (range_with_len from (to - from)) }
    {
        (from..to).find(|place| self.can_prepare(*place))
    }

    /// The least place of such a slot, while active.
    #[tactic(auto, using(crate::proofs::Places::window_is), unfolding(pws_protocol::specs::Actions::next_prepare))]
    pub(crate) fn next_prepare(&self) -> Option<Place>
        ensures { result ≡ next_prepare self.now }
    {
        if !self.active {
            return None;
        }
        self.first_prepare(self.low + 1, self.low + 33)
    }

    /// Prepares the slot at a place, and votes for it.
    ///
    /// # Errors
    ///
    /// `Memory` only.
    #[tactic(auto, using(crate::proofs::Inside::window_first), unfolding(pws_protocol::specs::Doing::did_prepare, pws_protocol::specs::Doing::with_slot, pws_protocol::specs::Doing::voted))]
    pub(crate) fn did_prepare(
        &mut self,
        alloc: Global,
        place: Place,
        outs: &mut Outs,
    ) -> Result<(), Memory>
        requires small { place ≤ max_number }
        ensures state { OnOk result (self.new ≡ (did_prepare self.old place).state) }
        ensures outs { OnOk result (outs.new ≡ outs.old ++ (did_prepare self.old place).outs) }
    {
        let Some(before) = self.slot(place) else {
            return Ok(());
        };
        let mut slot = before;
        slot.is_prepared = true;
        self.put_slot(place, slot);
        self.vote(VoteKind::Commit, place, &slot.digest)?;
        let vote = PlaceVote::new(self.view, place, slot.digest);
        self.say(alloc, Content::Commit(vote), outs)
    }
}
