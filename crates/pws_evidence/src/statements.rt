//! Statements as they are kept.

ghost use Rattle.std.specs.Prelude.{◌≡◌, IfOk};
ghost use Rattle.sha2.specs.Sha256.{sha256};
ghost use Rattle.pws_msg.specs.declared.contents.Content.TheVariants as content;
ghost use Rattle.pws_protocol.specs.Evidence.{same_statement, same_value};
ghost use Rattle.pws_protocol.specs.Support.{reading_said};
ghost use Rattle.pws_protocol.specs.Candidates.{value_in};
ghost use Rattle.pws_evidence.specs.Stores.{IsMarked, reply_digest_in};

use pws_base::lists::ExactCopy;
use pws_base::memory::Memory;
use pws_base::shapes::{Digest, GroupId, Number};
use pws_msg::contents::Content;
use pws_msg::readings::ReadingValue;
use sha2::{Digest as _, Sha256};
use std::alloc::Global;
use std::marker::Model;

/// A statement of a replica, with the digest of a request's body: by it most requests that differ are told apart.
///
/// Contracts see it as its content.
#[derive(Drop)]
pub struct Statement {
    /// What was said.
    content: Content,
    /// The digest of the body, where it is a request; zeros where it isn't.
    mark: Digest,
}

impl Model for Statement {
    ghost use Rattle.pws_msg.specs.declared.contents.Content.{Content};
    ghost use Rattle.pws_evidence.specs.Stores.{content_code, IsMarked};

    ghost Value = { Content };

    ghost coded = { content_code };

    ghost view = { λ s. s.content };

    ghost invariant = { λ s. IsMarked s.content s.mark };
}

/// The digest of the body of a request, and zeros for another content.
fn mark_of(content: &Content) -> Digest
    ensures { IsMarked content.now result }
{
    match content {
        Content::Request(request) => Sha256::digest(request.body()),
        _ => [0; 32],
    }
}

/// Whether two readings are one.
fn is_same_value(a: ReadingValue, b: ReadingValue) -> bool
    ensures { result ≡ same_value a b }
{
    match (a, b) {
        (ReadingValue::Time(ms), ReadingValue::Time(second)) => ms == second,
        (ReadingValue::Share(share), ReadingValue::Share(second)) => {
            share.as_slice() == second.as_slice()
        }
        _ => false,
    }
}

impl Statement {
    /// A copy of a content as a statement.
    ///
    /// # Errors
    ///
    /// `Memory` only.
    pub(crate) fn of(alloc: Global, content: &Content) -> Result<Statement, Memory>
        ensures { IfOk result (λ s. s ≡ content.now) }
    {
        Ok(Statement {
            content: content.copy(alloc)?,
            mark: mark_of(content),
        })
    }

    /// What was said.
    pub fn content(&self) -> &Content
        ensures { result.now ≡ self.now }
    {
        &self.content
    }

    /// The digest of the body, where it is a request.
    pub(crate) fn mark(&self) -> Digest
        ensures { IsMarked self.now result }
    {
        self.mark
    }

    /// Whether it is the request with this number, low number and body, which has this digest.
    #[tactic(auto, unfolding(pws_protocol::specs::Evidence::same_statement))]
    pub(crate) fn is_request(
        &self,
        number: Number,
        low: Number,
        body: &[u8],
        digest: &Digest,
    ) -> bool
        requires { digest.now ≡ sha256 body.now }
        ensures { result ≡ same_statement self.now (content.Request (record { number = number; low = low; body = body.now })) }
    {
        match &self.content {
            Content::Request(own) => {
                own.number() == number
                    && own.low() == low
                    && self.mark.as_slice() == digest.as_slice()
                    && own.body() == body
            }
            _ => false,
        }
    }

    /// Whether it is the reply to this call of the group, with this digest of its body.
    #[tactic(auto, unfolding(pws_protocol::specs::Evidence::same_statement))]
    pub(crate) fn is_reply(&self, caller: GroupId, number: Number, digest: &Digest) -> bool
        ensures { result ≡ same_statement self.now (content.Reply (record { caller = caller; number = number; digest = digest.now })) }
    {
        match &self.content {
            Content::Reply(own) => {
                own.caller() == caller
                    && own.number() == number
                    && own.digest().as_slice() == digest.as_slice()
            }
            _ => false,
        }
    }

    /// Whether it says that this call expired.
    #[tactic(auto, unfolding(pws_protocol::specs::Evidence::same_statement))]
    pub(crate) fn is_expired(&self, called: GroupId, number: Number) -> bool
        ensures { result ≡ same_statement self.now (content.Expired (record { called = called; number = number })) }
    {
        match &self.content {
            Content::Expired(own) => own.called() == called && own.number() == number,
            _ => false,
        }
    }

    /// Whether it is this reading for this ask.
    #[tactic(auto, unfolding(pws_protocol::specs::Evidence::same_statement))]
    pub(crate) fn is_reading(&self, ask: u32, value: ReadingValue) -> bool
        ensures { result ≡ same_statement self.now (reading_said ask value) }
    {
        match &self.content {
            Content::Reading(own) => own.ask() == ask && is_same_value(own.value(), value),
            _ => false,
        }
    }

    /// The digest of the body, where it is a reply.
    pub(crate) fn reply_digest(&self) -> Option<Digest>
        ensures { result ≡ reply_digest_in self.now }
    {
        match &self.content {
            Content::Reply(own) => Some(own.digest()),
            _ => None,
        }
    }

    /// What was read, where it is a reading.
    pub(crate) fn reading_value(&self) -> Option<ReadingValue>
        ensures { result ≡ value_in self.now }
    {
        match &self.content {
            Content::Reading(own) => Some(own.value()),
            _ => None,
        }
    }

    /// Whether it is this content.
    #[tactic(auto, unfolding(pws_protocol::specs::Evidence::same_statement))]
    pub(crate) fn is_same(&self, content: &Content) -> bool
        ensures { result ≡ same_statement self.now content.now }
    {
        match content {
            Content::Request(request) => {
                let body = request.body();
                let digest = Sha256::digest(body);
                self.is_request(request.number(), request.low(), body, &digest)
            }
            Content::Reply(reply) => self.is_reply(reply.caller(), reply.number(), &reply.digest()),
            Content::Expired(call) => self.is_expired(call.called(), call.number()),
            Content::Reading(reading) => self.is_reading(reading.ask(), reading.value()),
            _ => false,
        }
    }
}

impl ExactCopy for Statement {
    fn copy(&self, alloc: Global) -> Result<Statement, Memory> {
        Ok(Statement {
            content: self.content.copy(alloc)?,
            mark: self.mark,
        })
    }
}
