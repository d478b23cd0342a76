//! The answers to a call: a reply, or an abort.

ghost use Rattle.std.specs.Prelude.{◌≡◌, ◌↔◌, IsTrue};
ghost use Rattle.pws_event.specs.Answers.{IsReply, IsAbort};

use pws_base::bytes::Bytes;
use pws_base::lists::ExactCopy;
use pws_base::memory::Memory;
use pws_base::shapes::{GroupId, Number};
use std::alloc::Global;
use std::marker::Model;

/// The reply of a called group: the group, the number of the call, and a body.
///
/// The group is 0 to 15, the number is 1 to 1,000,000, and the body has at most 32,768 bytes.
#[derive(Debug, Drop)]
pub struct Reply {
    called: GroupId,
    number: Number,
    body: Bytes,
}

impl Model for Reply {
    ghost use Rattle.pws_event.specs.Answers.{ReplyFields, IsReply};

    ghost Value = { ReplyFields };

    ghost view = { λ r. record { called = r.called; number = r.number; body = r.body } };

    ghost invariant = { λ r. IsReply (record { called = r.called; number = r.number; body = r.body }) };
}

impl Reply {
    /// A reply with these fields, which are to be in range.
    pub fn new(called: GroupId, number: Number, body: Bytes) -> Reply
        requires { IsReply (record { called = called; number = number; body = body }) }
        ensures { result ≡ record { called = called; number = number; body = body } }
    {
        Reply {
            called,
            number,
            body,
        }
    }

    /// The group that was called, 0 to 15.
    pub fn called(&self) -> GroupId
        ensures value { result ≡ self.now.called }
        ensures lawful { IsReply self.now }
    {
        self.called
    }

    /// The number of the call among those to that group, 1 to 1,000,000.
    pub fn number(&self) -> Number
        ensures value { result ≡ self.now.number }
        ensures lawful { IsReply self.now }
    {
        self.number
    }

    /// The body, which isn't copied, at most 32,768 bytes.
    pub fn into_body(self) -> Bytes
        ensures value { result ≡ self.body }
        ensures lawful { IsReply self }
    {
        let Reply { body, .. } = self;
        body
    }

    /// The body, at most 32,768 bytes.
    pub fn body(&self) -> &[u8]
        ensures value { result.now ≡ self.now.body }
        ensures lawful { IsReply self.now }
    {
        self.body.as_slice()
    }
}

impl ExactCopy for Reply {
    fn copy(&self, alloc: Global) -> Result<Reply, Memory> {
        Ok(Reply {
            called: self.called,
            number: self.number,
            body: self.body.copy(alloc)?,
        })
    }
}

impl PartialEq for Reply {
    ghost use Rattle.std.proofs.Common.{rules};
    ghost use Rattle.std.specs.Cmp.Rules.{comparing};
    ghost use Rattle.pws_event.specs.Equal.{same_reply};

    ghost eq = { same_reply };

    ghost laws = { Prim.search (comparing, rules) };

    fn eq(&self, other: &Reply) -> bool
        ensures value { result ≡ same_reply self.now other.now }
        ensures same { IsTrue result ↔ (self.now ≡ other.now) }
    {
        self.called == other.called && self.number == other.number && self.body == other.body
    }
}

impl Eq for Reply {
    ghost use Rattle.std.proofs.Common.{rules};
    ghost use Rattle.std.specs.Cmp.Rules.{comparing};

    ghost laws = { Prim.search (comparing, rules) };
}

/// The abort of a call that wasn't answered in time: the called group, 0 to 15, and the number of the call, 1 to
/// 1,000,000.
#[derive(Clone, Copy, Debug, PartialEq, Eq)]
pub struct Abort {
    called: GroupId,
    number: Number,
}

impl Model for Abort {
    ghost use Rattle.pws_event.specs.Answers.{AbortFields, IsAbort};

    ghost Value = { AbortFields };

    ghost view = { λ a. record { called = a.called; number = a.number } };

    ghost invariant = { λ a. IsAbort (record { called = a.called; number = a.number }) };

    ghost inverse = { λ a. record { called = a.called; number = a.number } };
}

impl Abort {
    /// An abort with these fields, which are to be in range.
    pub fn new(called: GroupId, number: Number) -> Abort
        requires { IsAbort (record { called = called; number = number }) }
        ensures { result ≡ record { called = called; number = number } }
    {
        Abort { called, number }
    }

    /// The group that was called, 0 to 15.
    pub fn called(&self) -> GroupId
        ensures value { result ≡ self.now.called }
        ensures lawful { IsAbort self.now }
    {
        self.called
    }

    /// The number of the call among those to that group, 1 to 1,000,000.
    pub fn number(&self) -> Number
        ensures value { result ≡ self.now.number }
        ensures lawful { IsAbort self.now }
    {
        self.number
    }
}

impl ExactCopy for Abort {
    fn copy(&self, _alloc: Global) -> Result<Abort, Memory> {
        Ok(*self)
    }
}
