//! Which events the kept statements support.

ghost use Rattle.std.specs.Prelude.{◌≡◌, ◌≤◌, ◌++◌, ◌∷◌, [], if◌then◌else◌, IfOk, OnOk, slice_index};
ghost use Rattle.std.specs.List.{list_all, list_any};
ghost use Rattle.sha2.specs.Sha256.{sha256};
ghost use Rattle.pws_base.specs.Counts.{count_below};
ghost use Rattle.pws_base.specs.Shapes.{size_of_group, quorum_of};
ghost use Rattle.pws_protocol.specs.Keys.{replica};
ghost use Rattle.pws_protocol.specs.Evidence.{is_kept};
ghost use Rattle.pws_protocol.specs.Support.{support_of, enough_say, are_read, is_read, reading_said, supports, vouchers};
ghost use Rattle.pws_evidence.specs.Counted.{IsBodyDigest, request_content, reply_content, expired_content, time_stated, share_stated, times_stated, shares_stated, names_kept, is_named, sayer_of, is_counted, counted_among};

use crate::stores::Evidence;
use pws_base::memory::Memory;
use pws_base::shapes::{Digest, GroupId, GroupShape, Number, ReplicaId};
use pws_event::events::Event;
use pws_event::readings::{Clock, Random, Reading, Share};
use pws_msg::readings::ReadingValue;
use pws_protocol::keys::Matter;
use sha2::{Digest as _, Sha256};
use std::alloc::Global;

/// The digest of the body of a request or a reply, and zeros for another event.
fn body_digest(event: &Event) -> Digest
    ensures { IsBodyDigest event.now result }
{
    match event {
        Event::Request(request) => Sha256::digest(request.body()),
        Event::Reply(reply) => Sha256::digest(reply.body()),
        _ => [0; 32],
    }
}

/// Adds a replica, where it is counted.
fn push_if(counted: &mut Vec<ReplicaId>, is_counted: bool, replica: ReplicaId) -> Result<(), Memory>
    ensures { OnOk result (counted.new.items ≡ (if is_counted then counted.old.items ++ replica ∷ [] else counted.old.items)) }
{
    if is_counted {
        counted.push(replica)?;
    }
    Ok(())
}

impl Evidence {
    /// How many replicas the group has, or 1 where the layout has no such group.
    pub(crate) fn size_of(&self, group: GroupId) -> u8
        ensures value { result ≡ size_of_group (slice_index self.now.layout group) }
        ensures few { result ≤ 10 }
    {
        match self.layout().shape(group) {
            Some(shape) => shape.n(),
            None => 1,
        }
    }

    /// How many replicas are a quorum of the own group.
    pub(crate) fn quorum(&self) -> u8
        ensures value { result ≡ quorum_of (slice_index self.now.layout self.now.group) }
        ensures few { result ≤ 7 }
    {
        match self.layout().shape(self.group()) {
            Some(shape) => shape.quorum(),
            None => 1,
        }
    }

    /// Whether a replica's kept statement is this request, whose body has this digest.
    #[tactic(auto, unfolding(pws_protocol::specs::Evidence::is_kept))]
    fn has_request(
        &self,
        sender: ReplicaId,
        number: Number,
        low: Number,
        body: &[u8],
        digest: &Digest,
    ) -> bool
        requires { digest.now ≡ sha256 body.now }
        ensures { result ≡ is_kept self.now sender (request_content number low body.now) }
    {
        let matter = Matter::Requested {
            caller: sender.group,
            number,
        };
        match self.first_of(sender, matter) {
            Some(first) => first.is_request(number, low, body, digest),
            None => false,
        }
    }

    /// Whether a replica's kept statement is this reply to the group.
    #[tactic(auto, unfolding(pws_protocol::specs::Evidence::is_kept))]
    fn has_reply(&self, sender: ReplicaId, number: Number, digest: &Digest) -> bool
        ensures { result ≡ is_kept self.now sender (reply_content self.now.group number digest.now) }
    {
        let matter = Matter::Replied {
            called: sender.group,
            number,
        };
        match self.first_of(sender, matter) {
            Some(first) => first.is_reply(self.group(), number, digest),
            None => false,
        }
    }

    /// Whether a replica's kept statement says that this call expired.
    #[tactic(auto, unfolding(pws_protocol::specs::Evidence::is_kept))]
    fn has_expired(&self, sender: ReplicaId, called: GroupId, number: Number) -> bool
        ensures { result ≡ is_kept self.now sender (expired_content called number) }
    {
        match self.first_of(sender, Matter::Expired { called, number }) {
            Some(first) => first.is_expired(called, number),
            None => false,
        }
    }

    /// Whether this reading of a replica of the group is kept.
    #[tactic(auto, unfolding(pws_protocol::specs::Evidence::is_kept))]
    fn has_reading(&self, ask: u32, index: u8, value: ReadingValue) -> bool
        ensures { result ≡ is_kept self.now (replica self.now.group index) (reading_said ask value) }
    {
        let sender = ReplicaId {
            group: self.group(),
            index,
        };
        match self.first_of(sender, Matter::Read { ask }) {
            Some(first) => first.is_reading(ask, value),
            None => false,
        }
    }

    /// How many of the first n replicas of a caller say this request.
    fn count_requests(
        &self,
        caller: GroupId,
        n: u8,
        number: Number,
        low: Number,
        body: &[u8],
        digest: &Digest,
    ) -> u8
        requires { digest.now ≡ sha256 body.now }
        ensures { result ≡ count_below n (λ i. is_kept self.now (replica caller i) (request_content number low body.now)) }
    {
        let mut count = 0;
        for index in 0..n {
            let sender = ReplicaId {
                group: caller,
                index,
            };
            if self.has_request(sender, number, low, body, digest) {
                count += 1;
            }
        }
        count
    }

    /// How many of the first n replicas of a called group say this reply to the group.
    fn count_replies(&self, called: GroupId, n: u8, number: Number, digest: &Digest) -> u8
        ensures { result ≡ count_below n (λ i. is_kept self.now (replica called i) (reply_content self.now.group number digest.now)) }
    {
        let mut count = 0;
        for index in 0..n {
            let sender = ReplicaId {
                group: called,
                index,
            };
            if self.has_reply(sender, number, digest) {
                count += 1;
            }
        }
        count
    }

    /// How many of the first n replicas of the group say that a call expired.
    fn count_expired(&self, n: u8, called: GroupId, number: Number) -> u8
        ensures { result ≡ count_below n (λ i. is_kept self.now (replica self.now.group i) (expired_content called number)) }
    {
        let mut count = 0;
        for index in 0..n {
            let sender = ReplicaId {
                group: self.group(),
                index,
            };
            if self.has_expired(sender, called, number) {
                count += 1;
            }
        }
        count
    }

    /// Whether f + 1 replicas of a caller say this request, whose body has this digest.
    pub(crate) fn is_request_said(
        &self,
        caller: GroupId,
        number: Number,
        low: Number,
        body: &[u8],
        digest: &Digest,
    ) -> bool
        requires { digest.now ≡ sha256 body.now }
        ensures { result ≡ enough_say (is_kept self.now) self.now.layout caller (request_content number low body.now) }
    {
        match self.layout().shape(caller) {
            Some(shape) => {
                shape.weak() <= self.count_requests(caller, shape.n(), number, low, body, digest)
            }
            None => false,
        }
    }

    /// Whether f + 1 replicas of a called group say this reply to the group.
    pub(crate) fn is_reply_said(&self, called: GroupId, number: Number, digest: &Digest) -> bool
        ensures { result ≡ enough_say (is_kept self.now) self.now.layout called (reply_content self.now.group number digest.now) }
    {
        match self.layout().shape(called) {
            Some(shape) => shape.weak() <= self.count_replies(called, shape.n(), number, digest),
            None => false,
        }
    }

    /// Whether f + 1 replicas of the group say that a call expired.
    pub(crate) fn is_expired_said(&self, called: GroupId, number: Number) -> bool
        ensures { result ≡ enough_say (is_kept self.now) self.now.layout self.now.group (expired_content called number) }
    {
        match self.layout().shape(self.group()) {
            Some(shape) => shape.weak() <= self.count_expired(shape.n(), called, number),
            None => false,
        }
    }

    /// Whether a replica of the group gave this reading for an ask.
    fn is_time_read(&self, ask: u32, reading: &Reading) -> bool
        ensures { result ≡ is_read (is_kept self.now) (slice_index self.now.layout self.now.group) self.now.group ask (time_stated reading.now) }
    {
        reading.index < self.size_of(self.group())
            && self.has_reading(ask, reading.index, ReadingValue::Time(reading.ms))
    }

    /// Whether a replica of the group gave this share for an ask.
    fn is_share_read(&self, ask: u32, share: &Share) -> bool
        ensures { result ≡ is_read (is_kept self.now) (slice_index self.now.layout self.now.group) self.now.group ask (share_stated share.now) }
    {
        share.index < self.size_of(self.group())
            && self.has_reading(ask, share.index, ReadingValue::Share(share.bytes))
    }

    /// Whether the replicas of the group gave these readings for an ask.
    fn all_times_read(&self, ask: u32, readings: &[Reading]) -> bool
        ensures { result ≡ list_all (λ r. is_read (is_kept self.now) (slice_index self.now.layout self.now.group) self.now.group ask (time_stated r)) readings.now }
    {
        readings
            .iter()
            .all(|reading| self.is_time_read(ask, reading))
    }

    /// Whether the replicas of the group gave these shares for an ask.
    fn all_shares_read(&self, ask: u32, shares: &[Share]) -> bool
        ensures { result ≡ list_all (λ s. is_read (is_kept self.now) (slice_index self.now.layout self.now.group) self.now.group ask (share_stated s)) shares.now }
    {
        shares.iter().all(|share| self.is_share_read(ask, share))
    }

    /// Whether a quorum of the group gave just these readings.
    fn are_times_read(&self, clock: &Clock) -> bool
        ensures { result ≡ are_read (is_kept self.now) (slice_index self.now.layout self.now.group) self.now.group clock.now.ask (times_stated clock.now) }
    {
        let readings = clock.readings();
        readings.len() == self.quorum() as usize && self.all_times_read(clock.ask(), readings)
    }

    /// Whether a quorum of the group gave just these shares.
    fn are_shares_read(&self, random: &Random) -> bool
        ensures { result ≡ are_read (is_kept self.now) (slice_index self.now.layout self.now.group) self.now.group random.now.ask (shares_stated random.now) }
    {
        let shares = random.shares();
        shares.len() == self.quorum() as usize && self.all_shares_read(random.ask(), shares)
    }

    /// Whether the kept statements support an event: f + 1 replicas of the caller say the request, f + 1 of the called
    /// group the reply, f + 1 of the own group that the call expired, or 2f + 1 of the own group gave just these readings
    /// or shares. `Null` needs no statement.
    #[tactic(auto, unfolding(pws_protocol::specs::Support::supports, pws_protocol::specs::Support::supported_by, pws_protocol::specs::Support::support_of))]
    pub fn supports(&self, event: &Event) -> bool
        ensures { result ≡ supports self.now event.now }
    {
        match event {
            Event::Null => true,
            Event::Request(request) => {
                let body = request.body();
                let digest = Sha256::digest(body);
                self.is_request_said(
                    request.caller(),
                    request.number(),
                    request.low(),
                    body,
                    &digest,
                )
            }
            Event::Reply(reply) => {
                let digest = Sha256::digest(reply.body());
                self.is_reply_said(reply.called(), reply.number(), &digest)
            }
            Event::Abort(abort) => self.is_expired_said(abort.called(), abort.number()),
            Event::Clock(clock) => self.are_times_read(clock),
            Event::Random(random) => self.are_shares_read(random),
        }
    }

    /// Whether this reading is that of this replica of the group, and is kept.
    fn is_time_kept(&self, ask: u32, index: u8, reading: &Reading) -> bool
        ensures { result ≡ names_kept self.now ask index (time_stated reading.now) }
    {
        reading.index == index && self.has_reading(ask, index, ReadingValue::Time(reading.ms))
    }

    /// Whether this share is that of this replica of the group, and is kept.
    fn is_share_kept(&self, ask: u32, index: u8, share: &Share) -> bool
        ensures { result ≡ names_kept self.now ask index (share_stated share.now) }
    {
        share.index == index && self.has_reading(ask, index, ReadingValue::Share(share.bytes))
    }

    /// Whether one of these readings is that of this replica of the group, and is kept.
    fn any_time_kept(&self, ask: u32, index: u8, readings: &[Reading]) -> bool
        ensures { result ≡ list_any (λ r. names_kept self.now ask index (time_stated r)) readings.now }
    {
        readings
            .iter()
            .any(|reading| self.is_time_kept(ask, index, reading))
    }

    /// Whether one of these shares is that of this replica of the group, and is kept.
    fn any_share_kept(&self, ask: u32, index: u8, shares: &[Share]) -> bool
        ensures { result ≡ list_any (λ s. names_kept self.now ask index (share_stated s)) shares.now }
    {
        shares
            .iter()
            .any(|share| self.is_share_kept(ask, index, share))
    }

    /// Whether the reading that an event names of this replica of the group is kept.
    fn is_time_named(&self, clock: &Clock, index: u8) -> bool
        ensures { result ≡ is_named self.now clock.now.ask (times_stated clock.now) index }
    {
        self.any_time_kept(clock.ask(), index, clock.readings())
    }

    /// Whether the share that an event names of this replica of the group is kept.
    fn is_share_named(&self, random: &Random, index: u8) -> bool
        ensures { result ≡ is_named self.now random.now.ask (shares_stated random.now) index }
    {
        self.any_share_kept(random.ask(), index, random.shares())
    }

    /// The group whose replicas are counted for an event.
    #[tactic(auto, unfolding(pws_protocol::specs::Support::support_of))]
    fn sayer_of(&self, event: &Event) -> GroupId
        ensures { result ≡ sayer_of self.now (support_of self.now.group event.now) }
    {
        match event {
            Event::Request(request) => request.caller(),
            Event::Reply(reply) => reply.called(),
            _ => self.group(),
        }
    }

    /// Whether a replica of the group whose replicas are counted for an event is counted; the digest is that of the
    /// event's body.
    #[tactic(auto, unfolding(pws_protocol::specs::Support::support_of))]
    fn is_counted(&self, event: &Event, digest: &Digest, index: u8) -> bool
        requires { IsBodyDigest event.now digest.now }
        ensures { result ≡ is_counted self.now (support_of self.now.group event.now) index }
    {
        let sender = ReplicaId {
            group: self.sayer_of(event),
            index,
        };
        match event {
            Event::Null => false,
            Event::Request(request) => self.has_request(
                sender,
                request.number(),
                request.low(),
                request.body(),
                digest,
            ),
            Event::Reply(reply) => self.has_reply(sender, reply.number(), digest),
            Event::Abort(abort) => self.has_expired(sender, abort.called(), abort.number()),
            Event::Clock(clock) => self.is_time_named(clock, index),
            Event::Random(random) => self.is_share_named(random, index),
        }
    }

    /// The first n replicas of the group whose replicas are counted for an event that are counted.
    fn counted_of(&self, alloc: Global, event: &Event, n: u8) -> Result<Vec<ReplicaId>, Memory>
        ensures { IfOk result (λ v. v.items ≡ counted_among self.now (support_of self.now.group event.now) n) }
    {
        let digest = body_digest(event);
        let mut counted = Vec::new(alloc);
        for index in 0..n {
            let replica = ReplicaId {
                group: self.sayer_of(event),
                index,
            };
            push_if(
                &mut counted,
                self.is_counted(event, &digest, index),
                replica,
            )?;
        }
        Ok(counted)
    }

    /// The senders whose kept statements are counted for an event, rising, at most ten.
    ///
    /// # Errors
    ///
    /// `Memory` only.
    #[tactic(auto, unfolding(pws_protocol::specs::Support::vouchers, pws_protocol::specs::Support::support_of))]
    pub fn vouchers(&self, alloc: Global, event: &Event) -> Result<Vec<ReplicaId>, Memory>
        ensures { IfOk result (λ v. v.items ≡ vouchers self.now event.now) }
    {
        match self.layout().shape(self.sayer_of(event)) {
            Some(shape) => self.counted_of(alloc, event, shape.n()),
            None => Ok(Vec::new(alloc)),
        }
    }
}
