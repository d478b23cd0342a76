//! Voting for checkpoints.

ghost use Rattle.std.specs.Prelude.{◌≡◌, ◌++◌, ◌≤◌, OnOk};
ghost use Rattle.pws_protocol.specs.Actions.{can_checkpoint};
ghost use Rattle.pws_protocol.specs.Doing.{did_checkpoint};

use crate::outs::Outs;
use crate::states::State;
use pws_base::limits::CHECKPOINT_DISTANCE;
use pws_base::memory::Memory;
use pws_msg::contents::Content;
use pws_msg::places::PlaceDigest;
use pws_votes::books::VoteBook;
use pws_votes::kinds::VoteKind;
use std::alloc::Global;

impl<B: VoteBook> State<B> {
    /// Whether the last place executed is a multiple of 16 above the low mark, without the voter's vote.
    #[tactic(auto, unfolding(pws_protocol::specs::Actions::can_checkpoint))]
    pub(crate) fn can_checkpoint(&self) -> bool
        ensures { result ≡ can_checkpoint self.now }
    {
        self.done % CHECKPOINT_DISTANCE == 0
            && self.low < self.done
            && !self
                .book
                .has(VoteKind::Checkpoint, self.done, self.me.index)
    }

    /// Votes for the chain at the last place executed.
    ///
    /// # Errors
    ///
    /// `Memory` only.
    #[tactic(auto, unfolding(pws_protocol::specs::Doing::did_checkpoint))]
    pub(crate) fn did_checkpoint(&mut self, alloc: Global, outs: &mut Outs) -> Result<(), Memory>
        requires some { 1 ≤ self.old.done }
        ensures state { OnOk result (self.new ≡ (did_checkpoint self.old).state) }
        ensures outs { OnOk result (outs.new ≡ outs.old ++ (did_checkpoint self.old).outs) }
    {
        let (place, digest) = (self.done, self.chain);
        self.vote(VoteKind::Checkpoint, place, &digest)?;
        let checkpoint = PlaceDigest::new(place, digest);
        self.say(alloc, Content::Checkpoint(checkpoint), outs)
    }
}
