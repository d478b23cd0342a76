//! The request of a caller.

ghost use Rattle.std.specs.Prelude.{◌≡◌, ◌↔◌, IsTrue};
ghost use Rattle.pws_event.specs.Requests.{RequestFields, IsRequest};

use pws_base::bytes::Bytes;
use pws_base::lists::ExactCopy;
use pws_base::memory::Memory;
use pws_base::shapes::{GroupId, Number};
use std::alloc::Global;
use std::marker::Model;

/// A request of a group to another: its number, its low number, and a body.
///
/// The low number is the least number of a request to that group whose answer the caller's service hasn't taken, this
/// request included. The caller is 0 to 15, the numbers are 1 to 1,000,000, and the body has at most 32,768 bytes.
#[derive(Debug, Drop)]
pub struct Request {
    caller: GroupId,
    number: Number,
    low: Number,
    body: Bytes,
}

impl Model for Request {
    ghost use Rattle.pws_event.specs.Requests.{RequestFields, IsRequest};

    ghost Value = { RequestFields };

    ghost view = { λ r. record { caller = r.caller; number = r.number; low = r.low; body = r.body } };

    ghost invariant = { λ r. IsRequest (record { caller = r.caller; number = r.number; low = r.low; body = r.body }) };
}

impl Request {
    /// A request with these fields, which are to be in range.
    pub fn new(caller: GroupId, number: Number, low: Number, body: Bytes) -> Request
        requires { IsRequest (record { caller = caller; number = number; low = low; body = body }) }
        ensures { result ≡ record { caller = caller; number = number; low = low; body = body } }
    {
        Request {
            caller,
            number,
            low,
            body,
        }
    }

    /// The group that asks, 0 to 15.
    pub fn caller(&self) -> GroupId
        ensures value { result ≡ self.now.caller }
        ensures lawful { IsRequest self.now }
    {
        self.caller
    }

    /// The number of the request among those of its caller to this group, 1 to 1,000,000.
    pub fn number(&self) -> Number
        ensures value { result ≡ self.now.number }
        ensures lawful { IsRequest self.now }
    {
        self.number
    }

    /// The least number whose answer the caller's service hasn't taken, 1 to 1,000,000.
    pub fn low(&self) -> Number
        ensures value { result ≡ self.now.low }
        ensures lawful { IsRequest self.now }
    {
        self.low
    }

    /// The body, which isn't copied, at most 32,768 bytes.
    pub fn into_body(self) -> Bytes
        ensures value { result ≡ self.body }
        ensures lawful { IsRequest self }
    {
        let Request { body, .. } = self;
        body
    }

    /// The body, at most 32,768 bytes.
    pub fn body(&self) -> &[u8]
        ensures value { result.now ≡ self.now.body }
        ensures lawful { IsRequest self.now }
    {
        self.body.as_slice()
    }
}

impl ExactCopy for Request {
    fn copy(&self, alloc: Global) -> Result<Request, Memory> {
        Ok(Request {
            caller: self.caller,
            number: self.number,
            low: self.low,
            body: self.body.copy(alloc)?,
        })
    }
}

impl PartialEq for Request {
    ghost use Rattle.std.proofs.Common.{rules};
    ghost use Rattle.std.specs.Cmp.Rules.{comparing};
    ghost use Rattle.pws_event.specs.Equal.{same_request};

    ghost eq = { same_request };

    ghost laws = { Prim.search (comparing, rules) };

    fn eq(&self, other: &Request) -> bool
        ensures value { result ≡ same_request self.now other.now }
        ensures same { IsTrue result ↔ (self.now ≡ other.now) }
    {
        self.caller == other.caller
            && self.number == other.number
            && self.low == other.low
            && self.body == other.body
    }
}

impl Eq for Request {
    ghost use Rattle.std.proofs.Common.{rules};
    ghost use Rattle.std.specs.Cmp.Rules.{comparing};

    ghost laws = { Prim.search (comparing, rules) };
}
