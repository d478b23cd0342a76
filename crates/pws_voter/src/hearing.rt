//! What is kept of a packet: a function for each row of the table.

ghost use Rattle.std.specs.Prelude.{◌≡◌, ◌==◌, ◌&&◌, ◌||◌, ◌++◌, [], false, true, nat_lt, slice_get, IfOk, OnOk};
ghost use Rattle.std.specs.List.{list_any};
ghost use Rattle.std.specs.Option.{option_map_or, unwrap_or};
ghost use Rattle.std.specs.FinMap.{get, insert};
ghost use Rattle.std.specs.Str.{bytes_eq};
ghost use Rattle.pws_msg.specs.declared.contents.Content.TheVariants as content;
ghost use Rattle.pws_msg.specs.Contents.{content_digest_of};
ghost use Rattle.pws_base.specs.Shapes.{size_of_group};
ghost use Rattle.pws_change.specs.Valid.{is_valid};
ghost use Rattle.pws_votes.specs.Votes.{key};
ghost use Rattle.pws_protocol.specs.States.{text_of};
ghost use Rattle.pws_protocol.specs.Gathered.{acks_of};
ghost use Rattle.pws_protocol.specs.Hearing.{fits_proposal, fits_change, fits_ack, fits_new_view, fits_relay, keep_proposal, keep_in_book, keep_prepare, keep_commit, keep_checkpoint, keep_change, keep_ack, keep_new_view, keep_relayed, keep_voucher, keep_relay, keep_done, give, heard};
ghost use Rattle.pws_voter.specs.Shown.{is_kept_by, outs_by, answered_as};

use crate::digests::is_same;
use crate::inputs::{Said, Vouched};
use crate::maps::ByReplica;
use crate::outs::Outs;
use crate::parts::{HeldChange, Pending, Relayed, change_digest};
use crate::states::State;
use pws_base::limits::CHECKPOINT_DISTANCE;
use pws_base::lists::{ExactCopy, Sequence, copy_all};
use pws_base::memory::Memory;
use pws_base::shapes::{Digest, Place, Tag};
use pws_change::valid::valid;
use pws_msg::changes::ViewChange;
use pws_msg::contents::Content;
use pws_msg::packets::Voucher;
use pws_msg::places::{ChangeName, DecidedEvent, PlaceDigest, PlaceVote, Proposal};
use pws_msg::reported::{LawfulNewView, LawfulViewChange};
use pws_votes::books::VoteBook;
use pws_votes::kinds::{Vote, VoteKind};
use std::alloc::Global;

/// The body of a packet, empty where it has none.
fn body_of(said: &Said) -> &[u8]
    ensures { result.now ≡ unwrap_or said.now.body [] }
{
    match &said.body {
        Some(body) => body.as_slice(),
        None => b"".as_slice(),
    }
}

/// Puts out that something isn't kept, where it isn't, and answers whether it is.
fn answer_with(answer: Vote, outs: &mut Outs) -> Result<bool, Memory>
    ensures kept { IfOk result (λ k. k ≡ is_kept_by answer) }
    ensures outs { OnOk result (outs.new ≡ outs.old ++ outs_by answer) }
{
    match answer {
        Vote::Kept => Ok(true),
        Vote::Outside => {
            outs.unkept(Vote::Outside)?;
            Ok(false)
        }
        Vote::Already => {
            outs.unkept(Vote::Already)?;
            Ok(false)
        }
    }
}

/// Whether a new view names a replica's change with this digest.
fn is_named(new_view: &LawfulNewView, name: &ChangeName) -> bool
    ensures { result ≡ list_any (λ n. n.index == name.now.index && bytes_eq n.digest name.now.digest) new_view.now.named }
{
    let digest = name.digest();
    let named = new_view.new_view().named.as_slice();
    named
        .iter()
        .any(|n| n.index == name.index() && is_same(&n.digest, &digest))
}

impl<B: VoteBook> State<B> {
    /// Whether a proposal is for the view, of its primary to an active backup, in the window and above the floor.
    fn fits_proposal(&self, index: u8, proposal: &Proposal) -> bool
        ensures { result ≡ fits_proposal self.now index proposal.now }
    {
        proposal.view() == self.view
            && (self.active
                && (!self.is_primary()
                    && (index == self.primary()
                        && (self.is_inside(proposal.place()) && self.floor < proposal.place()))))
    }

    /// PRE_PREPARE: it is pending, where nothing is pending or accepted at its place.
    #[tactic(auto, unfolding(pws_protocol::specs::Hearing::keep_proposal))]
    fn keep_proposal(
        &mut self,
        alloc: Global,
        index: u8,
        proposal: &Proposal,
    ) -> Result<Vote, Memory>
        ensures { IfOk result (λ v. keep_proposal self.old index proposal.now ≡ answered_as v self.new) }
    {
        if !self.fits_proposal(index, proposal) {
            return Ok(Vote::Outside);
        }
        let place = proposal.place();
        if self.pending.has(place) || self.slots.has(place) {
            return Ok(Vote::Already);
        }
        let event = proposal.event().copy(alloc)?;
        self.pend(place, Pending::new(alloc, event)?);
        Ok(Vote::Kept)
    }

    /// Votes of other replicas: as the book answers.
    #[tactic(auto, using(crate::proofs::Answered::voted_is))]
    fn keep_in_book(
        &mut self,
        kind: VoteKind,
        place: Place,
        index: u8,
        digest: &Digest,
    ) -> Result<Vote, Memory>
        ensures { IfOk result (λ v. keep_in_book self.old (key kind place index) digest.now ≡ answered_as v self.new) }
    {
        self.book.vote(kind, place, index, digest)
    }

    /// PREPARE: a vote for the view, not of its primary.
    #[tactic(auto, unfolding(pws_protocol::specs::Hearing::keep_prepare))]
    fn keep_prepare(&mut self, index: u8, vote: &PlaceVote) -> Result<Vote, Memory>
        ensures { IfOk result (λ v. keep_prepare self.old index vote.now ≡ answered_as v self.new) }
    {
        if vote.view() == self.view && index != self.primary() {
            self.keep_in_book(VoteKind::Prepare, vote.place(), index, &vote.digest())
        } else {
            Ok(Vote::Outside)
        }
    }

    /// COMMIT: a vote for the view.
    #[tactic(auto, unfolding(pws_protocol::specs::Hearing::keep_commit))]
    fn keep_commit(&mut self, index: u8, vote: &PlaceVote) -> Result<Vote, Memory>
        ensures { IfOk result (λ v. keep_commit self.old index vote.now ≡ answered_as v self.new) }
    {
        if vote.view() == self.view {
            self.keep_in_book(VoteKind::Commit, vote.place(), index, &vote.digest())
        } else {
            Ok(Vote::Outside)
        }
    }

    /// CHECKPOINT: a vote at a multiple of 16.
    #[tactic(auto, unfolding(pws_protocol::specs::Hearing::keep_checkpoint))]
    fn keep_checkpoint(&mut self, index: u8, checkpoint: &PlaceDigest) -> Result<Vote, Memory>
        ensures { IfOk result (λ v. keep_checkpoint self.old index checkpoint.now ≡ answered_as v self.new) }
    {
        let place = checkpoint.place();
        if place % CHECKPOINT_DISTANCE == 0 {
            self.keep_in_book(VoteKind::Checkpoint, place, index, &checkpoint.digest())
        } else {
            Ok(Vote::Outside)
        }
    }

    /// Whether a change is for a later view or for the one on the way, and valid; a group of one hears none.
    fn fits_change(&self, change: &ViewChange) -> bool
        ensures { result ≡ fits_change self.now change.now }
    {
        !self.is_alone()
            && ((self.view < change.view || (change.view == self.view && !self.active))
                && valid(change))
    }

    /// Whether no change of a replica for this view or a later one is heard.
    fn is_later(&self, index: u8, change: &ViewChange) -> bool
        ensures { result ≡ option_map_or (λ h. nat_lt h.change.view change.now.view) (get self.now.heard index) true }
    {
        match self.heard.get(index) {
            Some(before) => before.change.change().view < change.view,
            None => true,
        }
    }

    /// VIEW_CHANGE: the latest of its sender, with the tags of its packet.
    #[tactic(auto, unfolding(pws_protocol::specs::Hearing::keep_change))]
    fn keep_change(
        &mut self,
        alloc: Global,
        index: u8,
        change: &LawfulViewChange,
        tags: &Sequence<Tag>,
    ) -> Result<Vote, Memory>
        ensures { IfOk result (λ v. keep_change self.old index change.now tags.now ≡ answered_as v self.new) }
    {
        if !self.fits_change(change.change()) {
            return Ok(Vote::Outside);
        }
        if !self.is_later(index, change.change()) {
            return Ok(Vote::Already);
        }
        let held = HeldChange {
            digest: change_digest(alloc, change)?,
            change: change.copy(alloc)?,
            tags: tags.copy(alloc)?,
        };
        self.heard.put(index, held)?;
        Ok(Vote::Kept)
    }

    /// Whether an acknowledgment is for the view on the way, of another's change, and not of the primary.
    fn fits_ack(&self, index: u8, name: &ChangeName) -> bool
        ensures { result ≡ fits_ack self.now index name.now }
    {
        name.view() == self.view
            && (!self.active && (index != name.index() && index != self.primary()))
    }

    /// The digests that a replica acknowledged.
    fn acks_of(&self, alloc: Global, from: u8) -> Result<ByReplica<Digest>, Memory>
        ensures { IfOk result (λ row. row ≡ acks_of self.now from) }
    {
        match self.acks.get(from) {
            Some(row) => Ok(row.copy(alloc)?),
            None => Ok(ByReplica::new(alloc)),
        }
    }

    /// Holds an acknowledgment.
    pub(crate) fn put_ack(
        &mut self,
        alloc: Global,
        from: u8,
        about: u8,
        digest: &Digest,
    ) -> Result<(), Memory>
        ensures { OnOk result (self.new ≡ record self.old { acks = insert self.old.acks from (insert (acks_of self.old from) about digest.now) }) }
    {
        let mut row = self.acks_of(alloc, from)?;
        row.put(about, *digest)?;
        self.acks.put(from, row)?;
        Ok(())
    }

    /// ACK: the first of its sender about this replica.
    #[tactic(auto, unfolding(pws_protocol::specs::Hearing::keep_ack))]
    fn keep_ack(&mut self, alloc: Global, index: u8, name: &ChangeName) -> Result<Vote, Memory>
        ensures { IfOk result (λ v. keep_ack self.old index name.now ≡ answered_as v self.new) }
    {
        if !self.fits_ack(index, name) {
            return Ok(Vote::Outside);
        }
        if self.ack_at(index, name.index()).is_some() {
            return Ok(Vote::Already);
        }
        self.put_ack(alloc, index, name.index(), &name.digest())?;
        Ok(Vote::Kept)
    }

    /// Whether a new view is for the view on the way, of its primary to a backup.
    fn fits_new_view(&self, index: u8, new_view: &LawfulNewView) -> bool
        ensures { result ≡ fits_new_view self.now index new_view.now }
    {
        new_view.new_view().view == self.view
            && (!self.active && (!self.is_primary() && index == self.primary()))
    }

    /// NEW_VIEW: the first.
    #[tactic(auto, unfolding(pws_protocol::specs::Hearing::keep_new_view))]
    fn keep_new_view(
        &mut self,
        alloc: Global,
        index: u8,
        new_view: &LawfulNewView,
    ) -> Result<Vote, Memory>
        ensures { IfOk result (λ v. keep_new_view self.old index new_view.now ≡ answered_as v self.new) }
    {
        if !self.fits_new_view(index, new_view) {
            return Ok(Vote::Outside);
        }
        if self.new_view.is_some() {
            return Ok(Vote::Already);
        }
        self.new_view = Some(new_view.copy(alloc)?);
        Ok(Vote::Kept)
    }

    /// Whether the new view names a replica's change with this digest.
    fn is_named_change(&self, name: &ChangeName) -> bool
        ensures { result ≡ option_map_or (λ v. list_any (λ n. n.index == name.now.index && bytes_eq n.digest name.now.digest) v.named) self.now.new_view false }
    {
        match &self.new_view {
            Some(new_view) => is_named(new_view, name),
            None => false,
        }
    }

    /// Whether a replica's change, which has this digest, is valid and the one that is named.
    fn is_change_of(
        &self,
        name: &ChangeName,
        voucher: &Voucher,
        change: &LawfulViewChange,
        digest: &Digest,
    ) -> bool
        requires { digest.now ≡ content_digest_of (content.ViewChange change.now) }
        ensures { result ≡ (nat_lt name.now.index (size_of_group self.now.me.f) && (voucher.now.sender.group == self.now.me.group && (voucher.now.sender.index == name.now.index && (change.now.view == name.now.view && (bytes_eq (content_digest_of (content.ViewChange change.now)) name.now.digest && is_valid change.now))))) }
    {
        let sender = voucher.sender();
        name.index() < self.size()
            && (sender.group == self.me.group
                && (sender.index == name.index()
                    && (change.change().view == name.view()
                        && (is_same(digest, &name.digest()) && valid(change.change())))))
    }

    /// Whether a change that was passed on is for the view on the way, and such a one that the new view names.
    fn fits_relay(
        &self,
        alloc: Global,
        name: &ChangeName,
        voucher: &Voucher,
        change: &LawfulViewChange,
    ) -> Result<bool, Memory>
        ensures { IfOk result (λ b. b ≡ fits_relay self.now name.now voucher.now change.now) }
    {
        if !(name.view() == self.view && (!self.active && self.is_named_change(name))) {
            return Ok(false);
        }
        let digest = change_digest(alloc, change)?;
        Ok(self.is_change_of(name, voucher, change, &digest))
    }

    /// RELAY: the first of this replica, with its tags and whether its own tag verified.
    #[tactic(auto, unfolding(pws_protocol::specs::Hearing::keep_relayed))]
    fn keep_relayed(
        &mut self,
        alloc: Global,
        name: &ChangeName,
        vouched: &Vouched,
        change: &LawfulViewChange,
    ) -> Result<Vote, Memory>
        ensures { IfOk result (λ v. keep_relayed self.old name.now vouched.now change.now ≡ answered_as v self.new) }
    {
        if !self.fits_relay(alloc, name, &vouched.voucher, change)? {
            return Ok(Vote::Outside);
        }
        if self.relayed.has(name.index()) {
            return Ok(Vote::Already);
        }
        let relayed = Relayed {
            digest: name.digest(),
            change: change.copy(alloc)?,
            tags: copy_all(alloc, vouched.voucher.tags())?,
            is_verified: vouched.is_verified,
        };
        self.relayed.put(name.index(), relayed)?;
        Ok(Vote::Kept)
    }

    /// What is passed on has to be a view change.
    fn keep_voucher(
        &mut self,
        alloc: Global,
        name: &ChangeName,
        vouched: &Vouched,
    ) -> Result<Vote, Memory>
        ensures { IfOk result (λ v. keep_voucher self.old name.now vouched.now vouched.now.voucher.content ≡ answered_as v self.new) }
    {
        match vouched.voucher.content() {
            Content::ViewChange(change) => self.keep_relayed(alloc, name, vouched, change),
            _ => Ok(Vote::Outside),
        }
    }

    /// RELAY, with its first voucher.
    fn keep_relay(
        &mut self,
        alloc: Global,
        name: &ChangeName,
        vouchers: &[Vouched],
    ) -> Result<Vote, Memory>
        ensures { IfOk result (λ v. keep_relay self.old name.now (slice_get vouchers.now 0) ≡ answered_as v self.new) }
    {
        match vouchers.first() {
            Some(vouched) => self.keep_voucher(alloc, name, vouched),
            None => Ok(Vote::Outside),
        }
    }

    /// DONE: for the place after the last one executed, in the window; the first of its sender.
    #[tactic(auto, unfolding(pws_protocol::specs::Hearing::keep_done))]
    fn keep_done(
        &mut self,
        alloc: Global,
        index: u8,
        decided: &DecidedEvent,
    ) -> Result<Vote, Memory>
        ensures { IfOk result (λ v. keep_done self.old index decided.now ≡ answered_as v self.new) }
    {
        let place = decided.place();
        if !(place == self.done + 1 && self.is_inside(place)) {
            return Ok(Vote::Outside);
        }
        if self.dones.has(index) {
            return Ok(Vote::Already);
        }
        self.dones.put(index, decided.event().copy(alloc)?)?;
        Ok(Vote::Kept)
    }

    /// NEED: never kept; the event, if it is held, is given.
    fn give(&self, alloc: Global, digest: &Digest, outs: &mut Outs) -> Result<bool, Memory>
        ensures kept { IfOk result (λ k. k ≡ (give self.now (text_of self.now digest.now)).is_kept) }
        ensures outs { OnOk result (outs.new ≡ outs.old ++ (give self.now (text_of self.now digest.now)).outs) }
    {
        match self.text_of(alloc, digest)? {
            Some(event) => outs.send(Content::Give(event), Sequence::new(alloc))?,
            None => outs.unkept(Vote::Outside)?,
        }
        Ok(false)
    }
}
