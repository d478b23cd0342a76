//! What is said of requests, calls and asks.

ghost use Rattle.std.specs.Prelude.{◌≡◌, ◌≤◌, length};
ghost use Rattle.pws_msg.specs.Statements.{IsOwnRequest, IsReplyNote, IsCallName, IsOwnReading};

use crate::readings::ReadingValue;
use pws_base::bytes::Bytes;
use pws_base::lists::ExactCopy;
use pws_base::memory::Memory;
use pws_base::shapes::{Digest, GroupId, Number};
use pws_event::requests::Request;
use std::alloc::Global;
use std::marker::Model;

/// A request of the sender's own group.
#[derive(Debug, Drop, PartialEq, Eq)]
pub struct OwnRequest {
    /// The number among the requests to the receiver's group.
    number: Number,
    /// The least number whose answer the group's service hasn't taken.
    low: Number,
    /// The body, at most 32,768 bytes.
    body: Bytes,
}

impl Model for OwnRequest {
    ghost use Rattle.pws_msg.specs.Statements.{OwnRequestFields, IsOwnRequest};

    ghost Value = { OwnRequestFields };

    ghost view = { λ r. record { number = r.number; low = r.low; body = r.body } };

    ghost invariant = { λ r. IsOwnRequest (record { number = r.number; low = r.low; body = r.body }) };

    ghost inverse = { λ r. record { number = r.number; low = r.low; body = r.body } };
}

impl OwnRequest {
    /// One with these fields, which are to be in range.
    pub fn new(number: Number, low: Number, body: Bytes) -> OwnRequest
        requires number_from { 1 ≤ number }
        requires number_to { number ≤ 1000000 }
        requires low_from { 1 ≤ low }
        requires low_to { low ≤ 1000000 }
        requires body { length body ≤ 32768 }
        ensures { result ≡ record { number = number; low = low; body = body } }
    {
        OwnRequest { number, low, body }
    }

    /// The number of the request among those to the receiver's group, 1 to 1,000,000.
    pub fn number(&self) -> Number
        ensures value { result ≡ self.now.number }
        ensures lawful { IsOwnRequest self.now }
    {
        self.number
    }

    /// The least number whose answer the group's service hasn't taken, 1 to 1,000,000.
    pub fn low(&self) -> Number
        ensures value { result ≡ self.now.low }
        ensures lawful { IsOwnRequest self.now }
    {
        self.low
    }

    /// The body, at most 32,768 bytes.
    pub fn body(&self) -> &[u8]
        ensures value { result.now ≡ self.now.body }
        ensures lawful { IsOwnRequest self.now }
    {
        self.body.as_slice()
    }

    /// The body, which isn't copied.
    pub fn into_body(self) -> Bytes
        ensures value { result ≡ self.body }
        ensures lawful { IsOwnRequest self }
    {
        let OwnRequest { body, .. } = self;
        body
    }

    /// The request as an event's, of this caller, which is to be 0 to 15; nothing is copied.
    pub fn into_request(self, caller: GroupId) -> Request
        requires { caller ≤ 15 }
        ensures { result ≡ record { caller = caller; number = self.number; low = self.low; body = self.body } }
    {
        let OwnRequest { number, low, body } = self;
        Request::new(caller, number, low, body)
    }
}

impl ExactCopy for OwnRequest {
    fn copy(&self, alloc: Global) -> Result<OwnRequest, Memory> {
        Ok(OwnRequest {
            number: self.number,
            low: self.low,
            body: self.body.copy(alloc)?,
        })
    }
}

/// A reply, named by its caller and number, with the digest of its body.
#[derive(Clone, Copy, Debug, PartialEq, Eq)]
pub struct ReplyNote {
    /// The group that called.
    caller: GroupId,
    /// The number of the call.
    number: Number,
    /// The digest of the reply's body.
    digest: Digest,
}

impl Model for ReplyNote {
    ghost use Rattle.pws_msg.specs.Statements.{ReplyNoteFields, IsReplyNote};

    ghost Value = { ReplyNoteFields };

    ghost view = { λ r. record { caller = r.caller; number = r.number; digest = r.digest } };

    ghost invariant = { λ r. IsReplyNote (record { caller = r.caller; number = r.number; digest = r.digest }) };

    ghost inverse = { λ r. record { caller = r.caller; number = r.number; digest = r.digest } };
}

impl ReplyNote {
    /// One with these fields, which are to be in range.
    pub fn new(caller: GroupId, number: Number, digest: Digest) -> ReplyNote
        requires caller { caller ≤ 15 }
        requires number_from { 1 ≤ number }
        requires number_to { number ≤ 1000000 }
        ensures { result ≡ record { caller = caller; number = number; digest = digest } }
    {
        ReplyNote {
            caller,
            number,
            digest,
        }
    }

    /// The group that called, 0 to 15.
    pub fn caller(&self) -> GroupId
        ensures value { result ≡ self.now.caller }
        ensures lawful { IsReplyNote self.now }
    {
        self.caller
    }

    /// The number of the call among those of that group, 1 to 1,000,000.
    pub fn number(&self) -> Number
        ensures value { result ≡ self.now.number }
        ensures lawful { IsReplyNote self.now }
    {
        self.number
    }

    /// The digest of the reply's body.
    pub fn digest(&self) -> Digest
        ensures value { result ≡ self.now.digest }
        ensures lawful { IsReplyNote self.now }
    {
        self.digest
    }
}

impl ExactCopy for ReplyNote {
    fn copy(&self, _alloc: Global) -> Result<ReplyNote, Memory> {
        Ok(*self)
    }
}

/// A call of the sender's own group, named by the called group and number.
#[derive(Clone, Copy, Debug, PartialEq, Eq)]
pub struct CallName {
    /// The group that was called.
    called: GroupId,
    /// The number of the call.
    number: Number,
}

impl Model for CallName {
    ghost use Rattle.pws_msg.specs.Statements.{CallNameFields, IsCallName};

    ghost Value = { CallNameFields };

    ghost view = { λ n. record { called = n.called; number = n.number } };

    ghost invariant = { λ n. IsCallName (record { called = n.called; number = n.number }) };

    ghost inverse = { λ n. record { called = n.called; number = n.number } };
}

impl CallName {
    /// One with these fields, which are to be in range.
    pub fn new(called: GroupId, number: Number) -> CallName
        requires called { called ≤ 15 }
        requires number_from { 1 ≤ number }
        requires number_to { number ≤ 1000000 }
        ensures { result ≡ record { called = called; number = number } }
    {
        CallName { called, number }
    }

    /// The group that was called, 0 to 15.
    pub fn called(&self) -> GroupId
        ensures value { result ≡ self.now.called }
        ensures lawful { IsCallName self.now }
    {
        self.called
    }

    /// The number of the call among those to that group, 1 to 1,000,000.
    pub fn number(&self) -> Number
        ensures value { result ≡ self.now.number }
        ensures lawful { IsCallName self.now }
    {
        self.number
    }
}

impl ExactCopy for CallName {
    fn copy(&self, _alloc: Global) -> Result<CallName, Memory> {
        Ok(*self)
    }
}

/// What a replica gives where its group's service asks for the time or for a seed.
#[derive(Clone, Copy, Debug, PartialEq, Eq)]
pub struct OwnReading {
    /// The ask that is answered.
    ask: u32,
    /// What the replica gives.
    value: ReadingValue,
}

impl Model for OwnReading {
    ghost use Rattle.pws_msg.specs.Statements.{OwnReadingFields, IsOwnReading};

    ghost Value = { OwnReadingFields };

    ghost view = { λ r. record { ask = r.ask; value = r.value } };

    ghost invariant = { λ r. IsOwnReading (record { ask = r.ask; value = r.value }) };

    ghost inverse = { λ r. record { ask = r.ask; value = r.value } };
}

impl OwnReading {
    /// One with these fields, which are to be in range.
    pub fn new(ask: u32, value: ReadingValue) -> OwnReading
        requires ask_from { 1 ≤ ask }
        requires ask_to { ask ≤ 1000000 }
        ensures { result ≡ record { ask = ask; value = value } }
    {
        // shows: a share has 32 bytes
        value.is_lawful();
        OwnReading { ask, value }
    }

    /// The ask that is answered, 1 to 1,000,000.
    pub fn ask(&self) -> u32
        ensures value { result ≡ self.now.ask }
        ensures lawful { IsOwnReading self.now }
    {
        self.ask
    }

    /// What the replica gives.
    pub fn value(&self) -> ReadingValue
        ensures value { result ≡ self.now.value }
        ensures lawful { IsOwnReading self.now }
    {
        self.value
    }
}

impl ExactCopy for OwnReading {
    fn copy(&self, _alloc: Global) -> Result<OwnReading, Memory> {
        Ok(*self)
    }
}
