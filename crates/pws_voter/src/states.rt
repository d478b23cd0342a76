//! The state of a voter.

ghost use Rattle.std.specs.Prelude.{◌≡◌, ◌≤◌, ◌<◌, ◌+◌, ◌∷◌, [], ◌++◌, if◌then◌else◌, IfOk, OnOk, IsTrue, is_some, true, false, length, Some, None};
ghost use Rattle.std.specs.FinMap.{get, insert};
ghost use Rattle.pws_base.specs.Places.{is_in_window};
ghost use Rattle.pws_base.specs.Shapes.{size_of_group};
ghost use Rattle.pws_event.specs.Events.{digest_of};
ghost use Rattle.pws_msg.specs.declared.contents.Content.{Content};
ghost use Rattle.pws_protocol.specs.Gathered.{slots_name};
ghost use Rattle.pws_protocol.specs.States.{start, primary, is_primary, is_alone, text_of, is_held, is_wanted};
ghost use Rattle.pws_protocol.specs.Hearing as out;
ghost use Rattle.pws_protocol.specs.Doing.{voted, accepted, with_text, with_slot};

use crate::digests::is_null;
use crate::maps::{ByReplica, Chains, DigestSet};
use crate::outs::Outs;
use crate::parts::{HeldChange, Me, Pending, Relayed, Slot};
use crate::texts::{Texts, slots_have};
use pws_base::lists::{ExactCopy, Sequence};
use pws_base::memory::Memory;
use pws_base::places::is_in_window;
use pws_base::shapes::{Digest, Layout, Place, View};
use pws_change::pre_prepared::QSet;
use pws_change::prepared::PSet;
use pws_event::events::Event;
use pws_evidence::stores::Evidence;
use pws_msg::contents::Content;
use pws_msg::reported::LawfulNewView;
use pws_places::places::Places;
use pws_votes::books::VoteBook;
use pws_votes::kinds::VoteKind;
use std::alloc::Global;
use std::marker::Model;

/// The events of so many digests may be asked for between two ticks.
const MOST_NEEDED: usize = 1024;

/// What a voter holds.
///
/// Contracts see it as a `State` of the protocol's rules.
#[derive(Drop)]
pub struct State<B: VoteBook> {
    /// The voter's replica.
    pub(crate) me: Me,
    /// The view, 0 to 1,000,000.
    pub(crate) view: View,
    /// Whether it is in the view, or else on the way into it.
    pub(crate) active: bool,
    /// The low mark: the place of the last stable checkpoint, 0 to 1,000,000.
    pub(crate) low: Place,
    /// The last place that was executed, 0 to 1,000,000.
    pub(crate) done: Place,
    /// The last place that the view started with: up to there it proposes nothing new.
    pub(crate) floor: Place,
    /// The highest place accepted in this view, or 0.
    pub(crate) last: Place,
    /// Ticks since anything was executed, while something waits, up to 512.
    pub(crate) waited: u32,
    /// Moves to another view since anything was executed.
    pub(crate) moves: u32,
    /// The chain at the last place that was executed.
    pub(crate) chain: Digest,
    /// The chain at the low mark and at later multiples of 16 up to the last place that was executed.
    pub(crate) chains: Chains,
    /// By place: what the primary proposed, and isn't accepted yet.
    pub(crate) pending: Places<Pending>,
    /// By place: what is accepted in this view.
    pub(crate) slots: Places<Slot>,
    /// Votes of this view, and for checkpoints.
    pub(crate) book: B,
    /// What was prepared in earlier views.
    pub(crate) prepared: PSet,
    /// What was accepted in earlier views.
    pub(crate) pre_prepared: QSet,
    /// Events by digest; Null, which is always held, isn't here.
    pub(crate) texts: Texts,
    /// The digests whose events were asked for since the last tick.
    pub(crate) needed: DigestSet,
    /// What the replicas of all groups said that concerns the group.
    pub(crate) evidence: Evidence,
    /// The last view change of each replica.
    pub(crate) heard: ByReplica<HeldChange>,
    /// The digests of acknowledged changes for the view: by who acknowledges, and whose change it is.
    pub(crate) acks: ByReplica<ByReplica<Digest>>,
    /// What starts the view, as its primary said it; None where it wasn't heard, and in view 0.
    pub(crate) new_view: Option<LawfulNewView>,
    /// View changes that were passed on, by whose they are.
    pub(crate) relayed: ByReplica<Relayed>,
    /// By who says so: the event at the place after the last one executed.
    pub(crate) dones: ByReplica<Event>,
}

impl<B: VoteBook> Model for State<B> {
    ghost use Rattle.pws_protocol.specs.States.{State};
    ghost use Rattle.pws_voter.specs.Codes.{state_code};
    ghost use Rattle.pws_voter.specs.Ranges.{IsState};

    ghost Value = { State };

    ghost coded = { state_code };

    ghost view = { λ s. record { me = s.me; view = s.view; active = s.active; low = s.low; done = s.done; floor = s.floor; last = s.last; waited = s.waited; moves = s.moves; chain = s.chain; chains = s.chains; pending = s.pending.rows; slots = s.slots.rows; book = B.book s.book; prepared = s.prepared; pre_prepared = s.pre_prepared; texts = s.texts; needed = s.needed; evidence = s.evidence; heard = s.heard; acks = s.acks; new_view = s.new_view; relayed = s.relayed; dones = s.dones } };

    ghost invariant = { λ s. IsState s.view s.low s.done s.floor s.last s.waited s.moves s.pending.low s.slots.low };
}

/// Sets the row of a place of the window.
#[tactic(auto, using(crate::proofs::Rows::put_is, crate::proofs::Rows::other_is))]
fn set_row<T: Drop>(places: &mut Places<T>, place: Place, row: T)
    requires { IsTrue (is_in_window places.old.low place) }
    ensures { places.new ≡ record places.old { rows = insert places.old.rows place row } }
{
    if places.has(place) {
        let _before = places.replace(place, row);
    } else {
        let _answer = places.put(place, row);
    }
}

impl<B: VoteBook> State<B> {
    /// The state of a voter that has heard nothing; the layout has to have its group, of its shape.
    ///
    /// # Errors
    ///
    /// `Memory` only.
    pub fn new(alloc: Global, me: Me, layout: &Layout) -> Result<State<B>, Memory>
        requires { me.group < length layout.now }
        ensures { IfOk result (λ s. s ≡ start me layout.now) }
    {
        let mut chains = Chains::new(alloc);
        chains.put(0, &[0; 32])?;
        Ok(State {
            me,
            view: 0,
            active: true,
            low: 0,
            done: 0,
            floor: 0,
            last: 0,
            waited: 0,
            moves: 0,
            chain: [0; 32],
            chains,
            pending: Places::new(alloc)?,
            slots: Places::new(alloc)?,
            book: B::new(alloc, me.shape)?,
            prepared: PSet::new(alloc),
            pre_prepared: QSet::new(alloc),
            texts: Texts::new(alloc),
            needed: DigestSet::new(alloc),
            evidence: Evidence::new(alloc, me.group, layout),
            heard: ByReplica::new(alloc),
            acks: ByReplica::new(alloc),
            new_view: None,
            relayed: ByReplica::new(alloc),
            dones: ByReplica::new(alloc),
        })
    }

    /// The index of the primary of the view.
    pub(crate) fn primary(&self) -> u8
        ensures { result ≡ primary self.now }
    {
        self.me.shape.primary(self.view)
    }

    /// Whether the voter is the primary of its view.
    pub(crate) fn is_primary(&self) -> bool
        ensures { result ≡ is_primary self.now }
    {
        self.me.index == self.primary()
    }

    /// Whether the group has one replica alone.
    pub(crate) fn is_alone(&self) -> bool
        ensures { result ≡ is_alone self.now }
    {
        self.me.shape.f() == 0
    }

    /// How many replicas the group has.
    pub(crate) fn size(&self) -> u8
        ensures value { result ≡ size_of_group self.now.me.f }
        ensures few { result ≤ 10 }
    {
        self.me.shape.n()
    }

    /// Whether a place is in the window.
    pub(crate) fn is_inside(&self, place: Place) -> bool
        ensures { result ≡ is_in_window self.now.low place }
    {
        is_in_window(self.low, place)
    }

    /// The slot at a place.
    pub(crate) fn slot(&self, place: Place) -> Option<Slot>
        ensures value { result ≡ get self.now.slots place }
        ensures inside { IsTrue (is_some result) → IsTrue (is_in_window self.now.low place) }
    {
        // shows: the slots have the window of the low mark
        let _low = self.low;
        match self.slots.get(place) {
            Some(slot) => Some(*slot),
            None => None,
        }
    }

    /// Whether the event of a digest is held.
    #[tactic(auto, unfolding(pws_protocol::specs::States::text_of))]
    pub(crate) fn is_held(&self, digest: &Digest) -> bool
        ensures { result ≡ is_held self.now digest.now }
    {
        is_null(digest) || self.texts.get(digest).is_some()
    }

    /// Whether the event of a digest is neither held nor asked for since the last tick, while another may be asked for.
    #[tactic(auto, unfolding(pws_protocol::specs::States::text_of))]
    pub(crate) fn is_wanted(&self, digest: &Digest) -> bool
        ensures { result ≡ is_wanted self.now digest.now }
    {
        !self.is_held(digest) && (!self.needed.has(digest) && self.needed.count() < MOST_NEEDED)
    }

    /// The event of a digest, where it is held.
    ///
    /// # Errors
    ///
    /// `Memory` only.
    #[tactic(auto, unfolding(pws_protocol::specs::States::text_of))]
    pub(crate) fn text_of(&self, alloc: Global, digest: &Digest) -> Result<Option<Event>, Memory>
        ensures { IfOk result (λ event. event ≡ text_of self.now digest.now) }
    {
        if is_null(digest) {
            return Ok(Some(Event::Null));
        }
        match self.texts.get(digest) {
            Some(event) => Ok(Some(event.copy(alloc)?)),
            None => Ok(None),
        }
    }

    /// Says a content to the group, unless the voter is alone in it.
    ///
    /// # Errors
    ///
    /// `Memory` only.
    pub(crate) fn say(&self, alloc: Global, content: Content, outs: &mut Outs) -> Result<(), Memory>
        ensures { OnOk result (outs.new ≡ outs.old ++ (if is_alone self.now then [] else out.Send content [] ∷ [])) }
    {
        if self.is_alone() {
            return Ok(());
        }
        outs.send(content, Sequence::new(alloc))
    }

    /// Votes, as a replica of the group.
    ///
    /// # Errors
    ///
    /// `Memory` only.
    #[tactic(auto, unfolding(pws_protocol::specs::Doing::voted))]
    pub(crate) fn vote(
        &mut self,
        kind: VoteKind,
        place: Place,
        digest: &Digest,
    ) -> Result<(), Memory>
        ensures { OnOk result (self.new ≡ voted self.old kind place digest.now) }
    {
        self.book.vote(kind, place, self.me.index, digest)?;
        Ok(())
    }

    /// Whether some slot has a digest.
    #[tactic(auto, unfolding(pws_protocol::specs::Gathered::slots_name, crate::specs::Windows::slots_have))]
    pub(crate) fn slots_name(&self, digest: &Digest) -> bool
        ensures { result ≡ slots_name self.now digest.now }
    {
        // shows: the slots have the window of the low mark
        let _low = self.low;
        slots_have(&self.slots, digest)
    }

    /// Takes down what the primary proposed for a free place of the window.
    pub(crate) fn pend(&mut self, place: Place, pending: Pending)
        requires inside { IsTrue (is_in_window self.old.low place) }
        ensures { self.new ≡ record self.old { pending = insert self.old.pending place pending } }
    {
        set_row(&mut self.pending, place, pending);
    }

    /// Puts a slot at a place of the window.
    #[tactic(auto, unfolding(pws_protocol::specs::Doing::with_slot))]
    pub(crate) fn put_slot(&mut self, place: Place, slot: Slot)
        requires { IsTrue (is_in_window self.old.low place) }
        ensures { self.new ≡ with_slot self.old place slot }
    {
        set_row(&mut self.slots, place, slot);
    }

    /// Accepts a digest at a place of the window.
    #[tactic(auto, using(crate::proofs::Inside::window_small), unfolding(pws_protocol::specs::Doing::accepted))]
    pub(crate) fn accept(&mut self, place: Place, digest: &Digest)
        requires inside { IsTrue (is_in_window self.old.low place) }
        ensures { self.new ≡ accepted self.old place digest.now }
    {
        self.last = self.last.max(place);
        let _pending = self.pending.remove(place);
        let slot = Slot {
            digest: *digest,
            is_prepared: false,
            is_committed: false,
        };
        set_row(&mut self.slots, place, slot);
    }

    /// Holds an event under its digest; Null always is.
    ///
    /// # Errors
    ///
    /// `Memory` only.
    #[tactic(auto, unfolding(pws_protocol::specs::Doing::with_text))]
    pub(crate) fn hold(&mut self, digest: &Digest, event: Event) -> Result<(), Memory>
        requires { digest.now ≡ digest_of event }
        ensures { OnOk result (self.new ≡ with_text self.old event) }
    {
        if is_null(digest) {
            return Ok(());
        }
        self.texts.put(digest, event)
    }
}
