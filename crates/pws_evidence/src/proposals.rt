//! The events that a primary may propose.

ghost use Rattle.std.specs.Prelude.{◌≡◌, ◌<◌, ◌≤◌, ◌++◌, false, IfOk, OnOk, IsTrue, Some, option_to_list};
ghost use Rattle.std.specs.List.{filter_map, flat_map};
ghost use Rattle.std.specs.Option.{option_map_or, option_and_then};
ghost use Rattle.sha2.specs.Sha256.{sha256};
ghost use Rattle.pws_event.specs.Events.{digest_of};
ghost use Rattle.pws_change.specs.Rising.{is_digest_below};
ghost use Rattle.pws_protocol.specs.Support.{supports};
ghost use Rattle.pws_protocol.specs.Candidates.{lesser_of, request_in, kept_request, is_due, request_for, kept_reply, reply_for, abort_for, answer_for, answers_from, other_groups, kept_value, kept_times, kept_shares, time_in, share_in, answer_of_sort, ask_answer, candidates};
ghost use Rattle.pws_evidence.specs.Proposed.{request_event, reply_under, lesser_if, better_of, IsBetter};

use crate::statements::Statement;
use crate::stores::Evidence;
use pws_base::bytes::Bytes;
use pws_base::limits::CALL_WINDOW;
use pws_base::lists::{ExactCopy, Sequence};
use pws_base::memory::Memory;
use pws_base::shapes::{Digest, GroupId, Number, ReplicaId};
use pws_event::answers::{Abort, Reply};
use pws_event::effects::Effect;
use pws_event::events::{Event, event_digest};
use pws_event::readings::{Clock, Random, Reading, Share, Sort};
use pws_event::requests::Request;
use pws_msg::contents::Content;
use pws_msg::readings::ReadingValue;
use pws_msg::requests::OwnRequest;
use pws_protocol::keys::{BodyKey, Matter};
use std::alloc::Global;

/// Whether the digest of an event is below that of another, by the first byte in which they differ.
fn is_event_below(alloc: Global, a: &Event, b: &Event) -> Result<bool, Memory>
    ensures { IfOk result (λ below. below ≡ is_digest_below (digest_of a.now) (digest_of b.now)) }
{
    let first = event_digest(alloc, a)?;
    let second = event_digest(alloc, b)?;
    Ok(first.as_slice().cmp(second.as_slice()).is_lt())
}

/// Of two events the one of the lesser digest.
fn lesser_of(alloc: Global, best: Option<Event>, event: Event) -> Result<Option<Event>, Memory>
    ensures { IfOk result (λ lesser. lesser ≡ lesser_of best event) }
{
    let Some(best) = best else {
        return Ok(Some(event));
    };
    if is_event_below(alloc, &event, &best)? {
        Ok(Some(event))
    } else {
        Ok(Some(best))
    }
}

/// Whether the event is that of this request of the caller.
fn is_event_of(best: &Option<Event>, caller: GroupId, own: &OwnRequest) -> bool
    ensures { IsTrue result → best.now ≡ Some (request_event caller own.now) }
{
    match best {
        Some(Event::Request(request)) => {
            request.caller() == caller
                && request.number() == own.number()
                && request.low() == own.low()
                && request.body() == own.body()
        }
        _ => false,
    }
}

/// Adds an item, where there is one.
fn push_some<T: Drop>(items: &mut Vec<T>, next: Option<T>) -> Result<(), Memory>
    ensures { OnOk result (items.new.items ≡ items.old.items ++ option_to_list next) }
{
    if let Some(item) = next {
        items.push(item)?;
    }
    Ok(())
}

/// A replica's time, where the reading is one.
fn time_in(index: u8, value: ReadingValue) -> Option<Reading>
    ensures { result ≡ time_in index value }
{
    match value {
        ReadingValue::Time(ms) => Some(Reading { index, ms }),
        ReadingValue::Share(_) => None,
    }
}

/// A replica's share, where the reading is one.
fn share_in(index: u8, value: ReadingValue) -> Option<Share>
    ensures { result ≡ share_in index value }
{
    match value {
        ReadingValue::Time(_) => None,
        ReadingValue::Share(bytes) => Some(Share { index, bytes }),
    }
}

/// The event of a content of a replica of the caller, where it is a request.
fn event_of_request(
    alloc: Global,
    caller: GroupId,
    content: &Content,
) -> Result<Option<Event>, Memory>
    requires { caller < 16 }
    ensures { IfOk result (λ event. event ≡ request_in caller content.now) }
{
    match content {
        Content::Request(own) => {
            let request = own.copy(alloc)?.into_request(caller);
            Ok(Some(Event::Request(request)))
        }
        _ => Ok(None),
    }
}

impl Evidence {
    /// Whether a request of a caller is supported and would take effect; the digest is that of its body.
    #[tactic(auto, unfolding(pws_protocol::specs::Support::supports, pws_protocol::specs::Support::supported_by, pws_protocol::specs::Support::support_of))]
    fn is_due(
        &self,
        alloc: Global,
        asked: &Effect,
        caller: GroupId,
        own: &OwnRequest,
        digest: &Digest,
    ) -> bool
        requires caller { caller < 16 }
        requires digest { digest.now ≡ sha256 own.now.body }
        ensures { result ≡ is_due self.now asked.now (request_event caller own.now) }
    {
        let request = Request::new(caller, own.number(), own.low(), Bytes::new(alloc));
        asked.would_take(&request)
            && self.is_request_said(caller, own.number(), own.low(), own.body(), digest)
    }

    /// Whether a statement is a request that is due, and isn't the best so far.
    fn is_due_statement(
        &self,
        alloc: Global,
        asked: &Effect,
        caller: GroupId,
        statement: &Statement,
        best: &Option<Event>,
    ) -> bool
        requires { caller < 16 }
        ensures { IsBetter (is_due self.now asked.now) (request_in caller statement.now) best.now result }
    {
        match statement.content() {
            Content::Request(own) => {
                !is_event_of(best, caller, own)
                    && self.is_due(alloc, asked, caller, own, &statement.mark())
            }
            _ => false,
        }
    }

    /// Whether the request of this number that is kept of a replica of the caller is due, and isn't the best so far.
    fn is_due_request(
        &self,
        alloc: Global,
        asked: &Effect,
        sender: ReplicaId,
        number: Number,
        best: &Option<Event>,
    ) -> bool
        requires { sender.group < 16 }
        ensures { IsBetter (is_due self.now asked.now) (kept_request self.now sender.group number sender.index) best.now result }
    {
        let matter = Matter::Requested {
            caller: sender.group,
            number,
        };
        match self.first_of(sender, matter) {
            Some(first) => self.is_due_statement(alloc, asked, sender.group, first, best),
            None => false,
        }
    }

    /// The event of the request of this number that is kept of a replica of the caller.
    fn request_of(
        &self,
        alloc: Global,
        sender: ReplicaId,
        number: Number,
    ) -> Result<Option<Event>, Memory>
        requires { sender.group < 16 }
        ensures { IfOk result (λ event. event ≡ kept_request self.now sender.group number sender.index) }
    {
        let matter = Matter::Requested {
            caller: sender.group,
            number,
        };
        match self.first_of(sender, matter) {
            Some(first) => event_of_request(alloc, sender.group, first.content()),
            None => Ok(None),
        }
    }

    /// The better of the best event so far and of the request of this number that is kept of a replica of the caller.
    fn better_request(
        &self,
        alloc: Global,
        asked: &Effect,
        sender: ReplicaId,
        number: Number,
        best: Option<Event>,
    ) -> Result<Option<Event>, Memory>
        requires { sender.group < 16 }
        ensures { IfOk result (λ event. event ≡ better_of (is_due self.now asked.now) best (kept_request self.now sender.group number sender.index)) }
    {
        if !self.is_due_request(alloc, asked, sender, number, &best) {
            return Ok(best);
        }
        match self.request_of(alloc, sender, number)? {
            Some(event) => lesser_of(alloc, best, event),
            None => Ok(best),
        }
    }

    /// A caller's next request, where it is due; of several the one of the least digest.
    #[tactic(auto, unfolding(pws_protocol::specs::Candidates::request_for))]
    fn request_for(
        &self,
        alloc: Global,
        asked: &Effect,
        caller: GroupId,
    ) -> Result<Option<Event>, Memory>
        requires { caller < 16 }
        ensures { IfOk result (λ event. event ≡ request_for self.now asked.now caller) }
    {
        let number = asked.last(caller) + 1;
        let mut best = None;
        for index in 0..self.size_of(caller) {
            let sender = ReplicaId {
                group: caller,
                index,
            };
            best = self.better_request(alloc, asked, sender, number, best)?;
        }
        Ok(best)
    }

    /// The digest of the body of the reply to a call that is kept of a replica of the called group.
    fn reply_digest(&self, sender: ReplicaId, number: Number) -> Option<Digest>
        ensures { option_and_then (reply_under self.now sender.group number) result ≡ kept_reply self.now sender.group number sender.index }
    {
        let matter = Matter::Replied {
            called: sender.group,
            number,
        };
        match self.first_of(sender, matter) {
            Some(first) => first.reply_digest(),
            None => None,
        }
    }

    /// The event of the reply to a call whose body has this digest, where it is held.
    fn reply_of(
        &self,
        alloc: Global,
        called: GroupId,
        number: Number,
        digest: &Digest,
    ) -> Result<Option<Event>, Memory>
        requires called { called < 16 }
        requires number_from { 1 ≤ number }
        requires number_to { number ≤ 1000000 }
        ensures { IfOk result (λ event. event ≡ reply_under self.now called number digest.now) }
    {
        let key = BodyKey {
            called,
            number,
            digest: *digest,
        };
        match self.body(&key) {
            Some(body) => {
                let copy = Bytes::from_slice(alloc, body)?;
                Ok(Some(Event::Reply(Reply::new(called, number, copy))))
            }
            None => Ok(None),
        }
    }

    /// Whether the reply to a call whose body has this digest is supported, and its body held.
    #[tactic(auto, unfolding(pws_protocol::specs::Support::supports, pws_protocol::specs::Support::supported_by, pws_protocol::specs::Support::support_of))]
    fn is_reply_due(&self, called: GroupId, number: Number, digest: &Digest) -> bool
        ensures { result ≡ option_map_or (supports self.now) (reply_under self.now called number digest.now) false }
    {
        let key = BodyKey {
            called,
            number,
            digest: *digest,
        };
        match self.body(&key) {
            Some(_body) => self.is_reply_said(called, number, digest),
            None => false,
        }
    }

    /// Of the replies to a call whose bodies have these digests the one whose event has the lesser digest.
    fn lesser_reply(
        &self,
        alloc: Global,
        called: GroupId,
        number: Number,
        best: Option<Digest>,
        digest: Digest,
    ) -> Result<Option<Digest>, Memory>
        requires called { called < 16 }
        requires number_from { 1 ≤ number }
        requires number_to { number ≤ 1000000 }
        ensures { IfOk result (λ lesser. option_and_then (reply_under self.now called number) lesser ≡ lesser_if (option_and_then (reply_under self.now called number) best) (reply_under self.now called number digest)) }
    {
        let Some(best) = best else {
            return Ok(Some(digest));
        };
        let Some(first) = self.reply_of(alloc, called, number, &best)? else {
            return Ok(Some(digest));
        };
        let Some(second) = self.reply_of(alloc, called, number, &digest)? else {
            return Ok(Some(best));
        };
        if is_event_below(alloc, &second, &first)? {
            Ok(Some(digest))
        } else {
            Ok(Some(best))
        }
    }

    /// The better of the best reply so far and of the one whose body has this digest.
    fn better_reply(
        &self,
        alloc: Global,
        called: GroupId,
        number: Number,
        best: Option<Digest>,
        digest: Digest,
    ) -> Result<Option<Digest>, Memory>
        requires called { called < 16 }
        requires number_from { 1 ≤ number }
        requires number_to { number ≤ 1000000 }
        ensures { IfOk result (λ better. option_and_then (reply_under self.now called number) better ≡ better_of (supports self.now) (option_and_then (reply_under self.now called number) best) (reply_under self.now called number digest)) }
    {
        if let Some(known) = best {
            if known.as_slice() == digest.as_slice() {
                return Ok(best);
            }
        }
        if !self.is_reply_due(called, number, &digest) {
            return Ok(best);
        }
        self.lesser_reply(alloc, called, number, best, digest)
    }

    /// The digest of the body of a call's supported reply; of several that of the one whose event has the least digest.
    fn best_reply(
        &self,
        alloc: Global,
        called: GroupId,
        number: Number,
    ) -> Result<Option<Digest>, Memory>
        requires called { called < 16 }
        requires number_from { 1 ≤ number }
        requires number_to { number ≤ 1000000 }
        ensures { IfOk result (λ best. option_and_then (reply_under self.now called number) best ≡ reply_for self.now called number) }
    {
        let mut best = None;
        for index in 0..self.size_of(called) {
            let sender = ReplicaId {
                group: called,
                index,
            };
            if let Some(digest) = self.reply_digest(sender, number) {
                best = self.better_reply(alloc, called, number, best, digest)?;
            }
        }
        Ok(best)
    }

    /// A call's supported reply; of several the one of the least digest.
    fn reply_for(
        &self,
        alloc: Global,
        called: GroupId,
        number: Number,
    ) -> Result<Option<Event>, Memory>
        requires called { called < 16 }
        requires number_from { 1 ≤ number }
        requires number_to { number ≤ 1000000 }
        ensures { IfOk result (λ event. event ≡ reply_for self.now called number) }
    {
        match self.best_reply(alloc, called, number)? {
            Some(digest) => self.reply_of(alloc, called, number, &digest),
            None => Ok(None),
        }
    }

    /// A call's abort, where it is supported.
    #[tactic(auto, unfolding(pws_protocol::specs::Support::supports, pws_protocol::specs::Support::supported_by, pws_protocol::specs::Support::support_of))]
    fn abort_for(&self, called: GroupId, number: Number) -> Option<Event>
        requires called { called < 16 }
        requires number_from { 1 ≤ number }
        requires number_to { number ≤ 1000000 }
        ensures { result ≡ abort_for self.now called number }
    {
        if self.is_expired_said(called, number) {
            Some(Event::Abort(Abort::new(called, number)))
        } else {
            None
        }
    }

    /// A waiting call's supported reply, or without one its supported abort.
    fn answer_for(
        &self,
        alloc: Global,
        asked: &Effect,
        called: GroupId,
        number: Number,
    ) -> Result<Option<Event>, Memory>
        ensures { IfOk result (λ event. event ≡ answer_for self.now asked.now called number) }
    {
        // shows: the numbers of calls that wait are in range
        let _me = asked.me();
        if !asked.waits(called, number) {
            return Ok(None);
        }
        match self.reply_for(alloc, called, number)? {
            Some(event) => Ok(Some(event)),
            None => Ok(self.abort_for(called, number)),
        }
    }

    /// Adds the answers to the waiting calls to a group, by rising number.
    #[tactic(auto, unfolding(pws_protocol::specs::Candidates::answers_from))]
    fn put_answers(
        &self,
        alloc: Global,
        events: &mut Vec<Event>,
        asked: &Effect,
        called: GroupId,
    ) -> Result<(), Memory>
        ensures { OnOk result (events.new.items ≡ events.old.items ++ answers_from self.now asked.now called) }
    {
        let least = asked.low_out(called);
        for number in least..least + CALL_WINDOW {
            push_some(events, self.answer_for(alloc, asked, called, number)?)?;
        }
        Ok(())
    }

    /// The reading for an ask that is kept of a replica of the group.
    fn value_of(&self, ask: u32, index: u8) -> Option<ReadingValue>
        ensures { result ≡ kept_value self.now ask index }
    {
        let sender = ReplicaId {
            group: self.group(),
            index,
        };
        match self.first_of(sender, Matter::Read { ask }) {
            Some(first) => first.reading_value(),
            None => None,
        }
    }

    /// The time for an ask that is kept of a replica of the group.
    fn time_of(&self, ask: u32, index: u8) -> Option<Reading>
        ensures { result ≡ option_and_then (time_in index) (kept_value self.now ask index) }
    {
        match self.value_of(ask, index) {
            Some(value) => time_in(index, value),
            None => None,
        }
    }

    /// The share for an ask that is kept of a replica of the group.
    fn share_of(&self, ask: u32, index: u8) -> Option<Share>
        ensures { result ≡ option_and_then (share_in index) (kept_value self.now ask index) }
    {
        match self.value_of(ask, index) {
            Some(value) => share_in(index, value),
            None => None,
        }
    }

    /// The kept times for an ask, by rising index.
    fn times_for(&self, alloc: Global, ask: u32) -> Result<Vec<Reading>, Memory>
        ensures { IfOk result (λ v. v.items ≡ kept_times self.now ask) }
    {
        let mut times = Vec::new(alloc);
        for index in 0..self.size_of(self.group()) {
            push_some(&mut times, self.time_of(ask, index))?;
        }
        Ok(times)
    }

    /// The kept shares for an ask, by rising index.
    fn shares_for(&self, alloc: Global, ask: u32) -> Result<Vec<Share>, Memory>
        ensures { IfOk result (λ v. v.items ≡ kept_shares self.now ask) }
    {
        let mut shares = Vec::new(alloc);
        for index in 0..self.size_of(self.group()) {
            push_some(&mut shares, self.share_of(ask, index))?;
        }
        Ok(shares)
    }

    /// The event of the first quorum of times for an ask.
    fn clock_for(&self, alloc: Global, ask: u32) -> Result<Option<Event>, Memory>
        ensures { IfOk result (λ event. event ≡ answer_of_sort self.now ask Sort.Clock) }
    {
        // shows: what is kept is in range
        let _group = self.group();
        let quorum = self.quorum() as usize;
        let mut times = self.times_for(alloc, ask)?;
        times.truncate(quorum);
        if times.len() == quorum {
            let readings = Sequence::from_vec(times);
            Ok(Some(Event::Clock(Clock::new(ask, readings))))
        } else {
            Ok(None)
        }
    }

    /// The event of the first quorum of shares for an ask.
    fn random_for(&self, alloc: Global, ask: u32) -> Result<Option<Event>, Memory>
        ensures { IfOk result (λ event. event ≡ answer_of_sort self.now ask Sort.Random) }
    {
        // shows: what is kept is in range
        let _group = self.group();
        let quorum = self.quorum() as usize;
        let mut shares = self.shares_for(alloc, ask)?;
        shares.truncate(quorum);
        if shares.len() == quorum {
            let seeds = Sequence::from_vec(shares);
            Ok(Some(Event::Random(Random::new(ask, seeds))))
        } else {
            Ok(None)
        }
    }

    /// The answer to the ask that waits.
    #[tactic(auto, unfolding(pws_protocol::specs::Candidates::ask_answer))]
    fn ask_answer(&self, alloc: Global, asked: &Effect) -> Result<Option<Event>, Memory>
        ensures { IfOk result (λ event. event ≡ ask_answer self.now asked.now) }
    {
        match asked.waiting_ask() {
            Some((ask, Sort::Clock)) => self.clock_for(alloc, ask),
            Some((ask, Sort::Random)) => self.random_for(alloc, ask),
            None => Ok(None),
        }
    }

    /// Adds the next requests that are due, by caller.
    fn put_requests(
        &self,
        alloc: Global,
        events: &mut Vec<Event>,
        asked: &Effect,
    ) -> Result<(), Memory>
        ensures { OnOk result (events.new.items ≡ events.old.items ++ filter_map (request_for self.now asked.now) (other_groups self.now)) }
    {
        let layout = self.layout();
        for caller in 0..layout.groups() {
            if layout.is_other(self.group(), caller) {
                push_some(events, self.request_for(alloc, asked, caller)?)?;
            }
        }
        Ok(())
    }

    /// Adds the answers to the calls that wait, by called group and number.
    fn put_all_answers(
        &self,
        alloc: Global,
        events: &mut Vec<Event>,
        asked: &Effect,
    ) -> Result<(), Memory>
        ensures { OnOk result (events.new.items ≡ events.old.items ++ flat_map (answers_from self.now asked.now) (other_groups self.now)) }
    {
        let layout = self.layout();
        for called in 0..layout.groups() {
            if layout.is_other(self.group(), called) {
                self.put_answers(alloc, events, asked, called)?;
            }
        }
        Ok(())
    }

    /// The events that a primary may propose, in order: of each caller, rising, the next request that is supported and
    /// would take effect; of each waiting call, rising by called group and number, the supported reply, or without one the
    /// supported abort; the answer to the ask that waits, of the 2f + 1 lowest replicas whose kept reading has its sort.
    /// Of several the one of the least digest; a reply whose body isn't held is none.
    ///
    /// # Errors
    ///
    /// `Memory` only.
    #[tactic(auto, unfolding(pws_protocol::specs::Candidates::candidates))]
    pub fn candidates(&self, alloc: Global, asked: &Effect) -> Result<Vec<Event>, Memory>
        ensures { IfOk result (λ v. v.items ≡ candidates self.now asked.now) }
    {
        let mut events = Vec::new(alloc);
        self.put_requests(alloc, &mut events, asked)?;
        self.put_all_answers(alloc, &mut events, asked)?;
        push_some(&mut events, self.ask_answer(alloc, asked)?)?;
        Ok(events)
    }
}
