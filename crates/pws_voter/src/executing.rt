//! Executing the event of the next place.

ghost use Rattle.std.specs.Prelude.{◌≡◌, ◌<◌, ◌++◌, OnOk};
ghost use Rattle.sha2.specs.Sha256.{sha256};
ghost use Rattle.pws_base.specs.Limits.{max_number};
ghost use Rattle.pws_event.specs.Events.{digest_of};
ghost use Rattle.pws_protocol.specs.Doing.{executed, did_execute};

use crate::outs::Outs;
use crate::states::State;
use pws_base::limits::CHECKPOINT_DISTANCE;
use pws_base::memory::Memory;
use pws_base::shapes::Digest;
use pws_event::events::{Event, event_digest};
use pws_votes::books::VoteBook;
use sha2::{Digest as _, Sha256};
use std::alloc::Global;

/// The digest of two digests, one after the other.
fn joined(first: &Digest, second: &Digest) -> Digest
    ensures { result ≡ sha256 (first.now ++ second.now) }
{
    let mut hasher = Sha256::new();
    hasher.update(first.as_slice());
    hasher.update(second.as_slice());
    hasher.finalize()
}

impl<B: VoteBook> State<B> {
    /// The place, the chain and the patience go on by an event of this digest.
    #[tactic(auto, unfolding(pws_protocol::specs::Doing::executed))]
    fn go_on(&mut self, event: &Event, digest: &Digest) -> Result<(), Memory>
        requires digest { digest.now ≡ digest_of event.now }
        requires room { self.old.done < max_number }
        ensures { OnOk result (self.new ≡ executed self.old event.now) }
    {
        let _event = event;
        self.done += 1;
        self.waited = 0;
        self.moves = 0;
        self.chain = joined(&self.chain, digest);
        if self.done % CHECKPOINT_DISTANCE == 0 {
            self.chains.put(self.done, &self.chain)?;
        }
        self.dones.clear();
        Ok(())
    }

    /// The event stands at the next place, and goes out to be executed.
    ///
    /// # Errors
    ///
    /// `Memory` only.
    #[tactic(auto, unfolding(pws_protocol::specs::Doing::did_execute, pws_protocol::specs::Doing::executed))]
    pub(crate) fn did_execute(
        &mut self,
        alloc: Global,
        event: Event,
        outs: &mut Outs,
    ) -> Result<(), Memory>
        requires room { self.old.done < max_number }
        ensures state { OnOk result (self.new ≡ (did_execute self.old event).state) }
        ensures outs { OnOk result (outs.new ≡ outs.old ++ (did_execute self.old event).outs) }
    {
        let digest = event_digest(alloc, &event)?;
        self.go_on(&event, &digest)?;
        outs.execute(self.done, event)
    }
}
