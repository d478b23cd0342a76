//! How statements are heard.

ghost use Rattle.std.specs.Prelude.{◌≡◌, ◌≤◌, length, true, false, is_some, IfOk, OnOk, OnErr, Some, None};
ghost use Rattle.std.specs.Option.{option_map_or};
ghost use Rattle.std.specs.FinMap.{get};
ghost use Rattle.pws_protocol.specs.Evidence.{matter_of, first_of, same_statement, new_body, note, note_about, with_body, with_statement};
ghost use Rattle.pws_protocol.specs.Held.{evidence_held};
ghost use Rattle.pws_base.specs.Shapes.{has_replica};
ghost use Rattle.pws_evidence.specs.Bounds.{IsSettled, max_evidence};
ghost use Rattle.pws_evidence.specs.Stores.{IsNamed, heard_again};

use crate::matters::{is_inside, matter_of};
use crate::statements::Statement;
use crate::stores::Evidence;
use pws_base::memory::Memory;
use pws_base::shapes::ReplicaId;
use pws_event::effects::Effect;
use pws_msg::contents::Content;
use pws_protocol::keys::{BodyKey, Matter, StatementKey};
use pws_votes::kinds::Vote;
use sha2::{Digest as _, Sha256};
use std::alloc::Global;

impl Evidence {
    /// Under which key a body is to be held: of a reply that tells its digest, where it isn't held yet.
    fn new_body(&self, sender: ReplicaId, content: &Content, body: &[u8]) -> Option<BodyKey>
        ensures { result ≡ new_body self.now sender content.now body.now }
    {
        match content {
            Content::Reply(reply) => {
                let key = BodyKey {
                    called: sender.group,
                    number: reply.number(),
                    digest: reply.digest(),
                };
                if Sha256::digest(body).as_slice() == key.digest.as_slice()
                    && !self.has_body(&key)
                {
                    Some(key)
                } else {
                    None
                }
            }
            _ => None,
        }
    }

    /// Whether a statement is kept under a key.
    fn has_first(&self, key: StatementKey) -> bool
        ensures { result ≡ is_some (get self.now.statements key) }
    {
        self.first_of(key.sender, key.matter).is_some()
    }

    /// Whether a content is what is kept of a sender about a matter.
    fn is_first(&self, sender: ReplicaId, matter: Matter, content: &Content) -> bool
        ensures { result ≡ option_map_or (λ first. same_statement first content.now) (first_of self.now sender matter) false }
    {
        match self.first_of(sender, matter) {
            Some(first) => first.is_same(content),
            None => false,
        }
    }

    /// Hears a content about a matter of which the sender said nothing yet.
    fn hear_first(
        &mut self,
        alloc: Global,
        key: StatementKey,
        content: &Content,
        new: Option<BodyKey>,
        body: &[u8],
    ) -> Result<Vote, Memory>
        requires matter { matter_of self.old.group key.sender content.now ≡ Some key.matter }
        requires first { get self.old.statements key ≡ None }
        requires short { length body.now ≤ 32768 }
        requires digest { IsNamed new body.now }
        ensures answer { IfOk result (λ v. v ≡ Vote.Kept) }
        ensures heard { OnOk result (self.new ≡ with_body (with_statement self.old key content.now) new body.now) }
        ensures err { OnErr result (self.new ≡ self.old) }
    {
        let statement = Statement::of(alloc, content)?;
        self.put_both(alloc, key, statement, new, body)?;
        Ok(Vote::Kept)
    }

    /// Hears a content about a matter of which the sender said something before.
    fn hear_again(
        &mut self,
        alloc: Global,
        key: StatementKey,
        content: &Content,
        new: Option<BodyKey>,
        body: &[u8],
    ) -> Result<Vote, Memory>
        requires short { length body.now ≤ 32768 }
        requires digest { IsNamed new body.now }
        ensures answer { IfOk result (λ v. v ≡ (heard_again self.old key content.now new body.now).answer) }
        ensures heard { OnOk result (self.new ≡ (heard_again self.old key content.now new body.now).evidence) }
        ensures err { OnErr result (self.new ≡ self.old) }
    {
        let Some(name) = new else {
            return Ok(Vote::Already);
        };
        if !self.is_first(key.sender, key.matter, content) {
            return Ok(Vote::Already);
        }
        self.put_body(alloc, name, body)?;
        Ok(Vote::Kept)
    }

    /// Hears a content about a matter.
    fn hear_about(
        &mut self,
        alloc: Global,
        key: StatementKey,
        content: &Content,
        body: &[u8],
        asked: &Effect,
    ) -> Result<Vote, Memory>
        requires matter { matter_of self.old.group key.sender content.now ≡ Some key.matter }
        requires short { length body.now ≤ 32768 }
        ensures answer { IfOk result (λ v. v ≡ (note_about (Some key.matter) self.old asked.now key.sender content.now body.now).answer) }
        ensures heard { OnOk result (self.new ≡ (note_about (Some key.matter) self.old asked.now key.sender content.now body.now).evidence) }
        ensures err { OnErr result (self.new ≡ self.old) }
    {
        if !is_inside(self.group(), &self.layout(), asked, key.matter) {
            return Ok(Vote::Outside);
        }
        let new = self.new_body(key.sender, content, body);
        if self.has_first(key) {
            self.hear_again(alloc, key, content, new, body)
        } else {
            self.hear_first(alloc, key, content, new, body)
        }
    }

    /// Hears a content, which may be about nothing.
    #[tactic(auto, unfolding(pws_protocol::specs::Evidence::note))]
    fn hear_content(
        &mut self,
        alloc: Global,
        sender: ReplicaId,
        content: &Content,
        body: &[u8],
        asked: &Effect,
    ) -> Result<Vote, Memory>
        requires { length body.now ≤ 32768 }
        ensures answer { IfOk result (λ v. v ≡ (note self.old asked.now sender content.now body.now).answer) }
        ensures heard { OnOk result (self.new ≡ (note self.old asked.now sender content.now body.now).evidence) }
        ensures err { OnErr result (self.new ≡ self.old) }
    {
        match matter_of(self.group(), sender, content) {
            Some(matter) => {
                let key = StatementKey { sender, matter };
                self.hear_about(alloc, key, content, body, asked)
            }
            None => Ok(Vote::Outside),
        }
    }

    /// Hears what a sender said, with the body of its packet, empty where that has none; the body is to have at most
    /// 32,768 bytes.
    ///
    /// `Kept` where it is the sender's first statement about a matter that is inside, or the same again with a body that
    /// is held for it only now. Of other contents `Already` where the matter is inside, and else `Outside`, as also
    /// where it is evidence of nothing. Where all that was heard is settled and of replicas of the layout, and this sender is
    /// one, at most 160 MiB are held afterwards.
    ///
    /// # Errors
    ///
    /// `Memory` only; the evidence is unchanged then.
    pub fn hear(
        &mut self,
        alloc: Global,
        sender: ReplicaId,
        content: &Content,
        body: &[u8],
        asked: &Effect,
    ) -> Result<Vote, Memory>
        requires { length body.now ≤ 32768 }
        ensures answer { IfOk result (λ v. v ≡ (note self.old asked.now sender content.now body.now).answer) }
        ensures heard { OnOk result (self.new ≡ (note self.old asked.now sender content.now body.now).evidence) }
        ensures err { OnErr result (self.new ≡ self.old) }
        ensures bounded { IsSettled self.old asked.now → has_replica self.old.layout sender ≡ true → evidence_held self.new ≤ max_evidence }
    {
        // shows: the content's fields are in range
        content.is_lawful();
        self.hear_content(alloc, sender, content, body, asked)
    }
}
