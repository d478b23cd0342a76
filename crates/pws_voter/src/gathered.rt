//! What a voter on the way into a view has gathered.

ghost use Rattle.std.specs.Prelude.{◌≡◌, ◌≤◌, ◌==◌, ◌&&◌, ◌||◌, not, false, None, is_some};
ghost use Rattle.std.specs.Option.{option_copied, option_map_or, option_and_then};
ghost use Rattle.std.specs.FinMap.{get};
ghost use Rattle.std.specs.Str.{bytes_eq};
ghost use Rattle.pws_protocol.specs.Gathered.{ack_at, acks_for, counted_at};

use crate::digests::is_same;
use crate::parts::HeldChange;
use crate::states::State;
use pws_base::shapes::Digest;
use pws_change::heard::HeardRef;
use pws_votes::books::VoteBook;

impl<B: VoteBook> State<B> {
    /// The digest that a replica acknowledged of another's change.
    #[tactic(auto, using(crate::proofs::Inside::no_acks), unfolding(pws_protocol::specs::Gathered::ack_at))]
    pub(crate) fn ack_at(&self, from: u8, about: u8) -> Option<&Digest>
        ensures { option_copied result ≡ ack_at self.now from about }
    {
        match self.acks.get(from) {
            Some(row) => row.get(about),
            None => None,
        }
    }

    /// Whether a replica other than two acknowledged this change of another.
    fn is_ack_for(&self, one: u8, other: u8, about: u8, digest: &Digest, from: u8) -> bool
        ensures { result ≡ ((not (from == one) && not (from == other)) && option_map_or (λ d. bytes_eq d digest.now) (ack_at self.now from about) false) }
    {
        if from == one || from == other {
            return false;
        }
        match self.ack_at(from, about) {
            Some(acked) => is_same(acked, digest),
            None => false,
        }
    }

    /// How many replicas other than these two acknowledged this change of a replica.
    #[tactic(auto, unfolding(pws_protocol::specs::Gathered::acks_for))]
    fn acks_for(&self, one: u8, other: u8, about: u8, digest: &Digest) -> u8
        ensures value { result ≡ acks_for self.now (λ i. not (i == one) && not (i == other)) about digest.now }
        ensures few { result ≤ 10 }
    {
        let mut count = 0;
        for from in 0..self.size() {
            if self.is_ack_for(one, other, about, digest, from) {
                count += 1;
            }
        }
        count
    }

    /// Whether a heard change counts: it is for the view, and the voter's own or acknowledged by 2f - 1 others.
    fn is_counted(&self, index: u8, change: &HeldChange) -> bool
        ensures { result ≡ is_some (counted_at self.now index change.now) }
    {
        if change.change.change().view != self.view {
            return false;
        }
        if index == self.me.index {
            return true;
        }
        let acks = self.acks_for(self.me.index, index, index, &change.digest);
        2 * self.me.shape.f() <= acks + 1
    }

    /// The change of a replica, where it counts.
    fn counted_at(&self, index: u8) -> Option<HeardRef<'_>>
        ensures { result ≡ option_and_then (counted_at self.now index) (get self.now.heard index) }
    {
        let Some(change) = self.heard.get(index) else {
            return None;
        };
        if self.is_counted(index, change) {
            let lent = change.change.change();
            Some(HeardRef::new(index, change.digest, lent))
        } else {
            None
        }
    }
}
