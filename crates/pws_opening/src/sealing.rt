//! The packets that a replica makes.
//!
//! Each contract speaks of any state of the replica: one with its name and its keys.

ghost use Rattle.std.specs.Prelude.{◌≡◌, ◌<◌, ◌≤◌, ◌++◌, [], ◌∷◌, Some, None, length, All, IfOk, OnOk};
ghost use Rattle.pws_msg.specs.Contents.{kind_of, content_text};
ghost use Rattle.pws_msg.specs.declared.contents.Content.TheVariants as content;
ghost use Rattle.pws_auth.specs.Keys.{tags_for};
ghost use Rattle.pws_msg.specs.declared.kinds.Kind.TheVariants as kind;
ghost use Rattle.pws_msg.specs.Rules.{rule_of};
ghost use Rattle.pws_msg.specs.Packets.{Fits};
ghost use Rattle.pws_runs.specs.ReplicaStates.{ReplicaState, Send};
ghost use Rattle.pws_runs.specs.Packets.{packet_with, to_group, to_one, to_own, note_of, reply_out, responder, is_responder, part_out};

use crate::members::Member;
use crate::outputs::Outputs;
use pws_base::bytes::Bytes;
use pws_base::lists::Sequence;
use pws_base::memory::Memory;
use pws_base::shapes::GroupId;
use pws_msg::contents::Content;
use pws_msg::packets::{Packet, Voucher};
use pws_msg::requests::ReplyNote;
use pws_service::keys::Key;
use sha2::{Digest as _, Sha256};
use std::alloc::Global;

/// What is told of a reply.
fn note_of(key: Key, body: &[u8]) -> ReplyNote
    requires group { key.group ≤ 15 }
    requires number_from { 1 ≤ key.number }
    requires number_to { key.number ≤ 1000000 }
    ensures { result ≡ note_of key body.now }
{
    ReplyNote::new(key.group, key.number, Sha256::digest(body))
}

impl Member {
    /// My packet to a group of the layout. What is attached is to be what the content's kind has.
    ///
    /// # Errors
    ///
    /// `Memory` only.
    #[tactic(auto, unfolding(pws_runs::specs::Packets::packet_with))]
    pub fn packet(
        &self,
        alloc: Global,
        group: GroupId,
        content: Content,
        body: Option<Bytes>,
        vouchers: Sequence<Voucher>,
    ) -> Result<Packet, Memory>
        requires group { group < length self.now.keys.layout }
        requires attached { Fits (rule_of content) body vouchers }
        ensures { (s : ReplicaState) → s.me ≡ self.now.me → s.keys ≡ self.now.keys → IfOk result (λ p. p ≡ packet_with s group content body vouchers) }
    {
        // shows: sender and receiver are in range
        self.in_range();
        let tags = self.seal(alloc, group, &content)?;
        Ok(Packet::new(self.me(), group, content, tags, body, vouchers))
    }

    /// Puts out a statement to a whole group of the layout.
    ///
    /// # Errors
    ///
    /// `Memory` only.
    pub fn to_group(
        &self,
        alloc: Global,
        group: GroupId,
        content: Content,
        vouchers: Sequence<Voucher>,
        outs: &mut Outputs,
    ) -> Result<(), Memory>
        requires group { group < length self.now.keys.layout }
        requires attached { Fits (rule_of content) None vouchers }
        ensures { (s : ReplicaState) → s.me ≡ self.now.me → s.keys ≡ self.now.keys → OnOk result (outs.new ≡ outs.old ++ to_group s group content vouchers ∷ []) }
    {
        let packet = self.packet(alloc, group, content, None, vouchers)?;
        outs.send(group, None, packet)
    }

    /// Puts out a statement to one replica of a group of the layout.
    ///
    /// # Errors
    ///
    /// `Memory` only.
    pub fn to_one(
        &self,
        alloc: Global,
        group: GroupId,
        index: u8,
        content: Content,
        vouchers: Sequence<Voucher>,
        outs: &mut Outputs,
    ) -> Result<(), Memory>
        requires group { group < length self.now.keys.layout }
        requires attached { Fits (rule_of content) None vouchers }
        ensures { (s : ReplicaState) → s.me ≡ self.now.me → s.keys ≡ self.now.keys → OnOk result (outs.new ≡ outs.old ++ to_one s group index content vouchers ∷ []) }
    {
        let packet = self.packet(alloc, group, content, None, vouchers)?;
        outs.send(group, Some(index), packet)
    }

    /// Puts out a statement to my whole group; a group of one sends nothing to itself.
    ///
    /// # Errors
    ///
    /// `Memory` only.
    pub fn to_own(
        &self,
        alloc: Global,
        content: Content,
        vouchers: Sequence<Voucher>,
        outs: &mut Outputs,
    ) -> Result<(), Memory>
        requires { Fits (rule_of content) None vouchers }
        ensures { (s : ReplicaState) → s.me ≡ self.now.me → s.keys ≡ self.now.keys → OnOk result (outs.new ≡ outs.old ++ to_own s content vouchers) }
    {
        if self.shape().f() == 0 {
            return Ok(());
        }
        // shows: my group is one of the layout
        self.in_range();
        self.to_group(alloc, self.me().group, content, vouchers, outs)
    }

    /// Puts out my REPLY with its body, and with vouchers of others, to the caller's whole group or to one replica of it.
    ///
    /// # Errors
    ///
    /// `Memory` only.
    pub fn reply_out(
        &self,
        alloc: Global,
        key: Key,
        body: &[u8],
        to: Option<u8>,
        vouchers: Sequence<Voucher>,
        outs: &mut Outputs,
    ) -> Result<(), Memory>
        requires group { key.group < length self.now.keys.layout }
        requires number_from { 1 ≤ key.number }
        requires number_to { key.number ≤ 1000000 }
        requires body { length body.now ≤ 32768 }
        requires few { length vouchers ≤ 10 }
        requires kinds { All (λ v. kind_of v.content ≡ kind.Reply) vouchers }
        ensures { (s : ReplicaState) → s.me ≡ self.now.me → s.keys ≡ self.now.keys → OnOk result (outs.new ≡ outs.old ++ reply_out s key body.now to vouchers ∷ []) }
    {
        // shows: the caller's group is in range
        self.in_range();
        let content = Content::Reply(note_of(key, body));
        let body = Some(Bytes::from_slice(alloc, body)?);
        let packet = self.packet(alloc, key.group, content, body, vouchers)?;
        outs.send(key.group, to, packet)
    }

    /// The index of the replica that gathers the parts of a reply.
    pub fn responder(&self, key: Key) -> u8
        ensures value { (s : ReplicaState) → s.me ≡ self.now.me → s.keys ≡ self.now.keys → result ≡ responder s key }
    {
        ((u64::from(key.group) + u64::from(key.number)) % u64::from(self.n())) as u8
    }

    /// Whether that replica is me.
    pub fn is_responder(&self, key: Key) -> bool
        ensures { (s : ReplicaState) → s.me ≡ self.now.me → s.keys ≡ self.now.keys → result ≡ is_responder s key }
    {
        self.responder(key) == self.me().index
    }

    /// My REPLY, sealed for the caller's group.
    fn own_voucher(&self, alloc: Global, key: Key, body: &[u8]) -> Result<Voucher, Memory>
        requires group { key.group < length self.now.keys.layout }
        requires number_from { 1 ≤ key.number }
        requires number_to { key.number ≤ 1000000 }
        ensures value { IfOk result (λ v. v ≡ record { sender = self.now.me; content = content.Reply (note_of key body.now); tags = tags_for self.now.keys self.now.me (content_text (content.Reply (note_of key body.now))) key.group }) }
    {
        // shows: sender and caller are in range
        self.in_range();
        let content = Content::Reply(note_of(key, body));
        let tags = self.seal(alloc, key.group, &content)?;
        Ok(Voucher::new(self.me(), content, tags))
    }

    /// Puts out my PART to the responder, with my REPLY as its voucher.
    ///
    /// # Errors
    ///
    /// `Memory` only.
    pub fn part_out(
        &self,
        alloc: Global,
        key: Key,
        body: &[u8],
        outs: &mut Outputs,
    ) -> Result<(), Memory>
        requires group { key.group < length self.now.keys.layout }
        requires number_from { 1 ≤ key.number }
        requires number_to { key.number ≤ 1000000 }
        ensures { (s : ReplicaState) → s.me ≡ self.now.me → s.keys ≡ self.now.keys → OnOk result (outs.new ≡ outs.old ++ part_out s key body.now ∷ []) }
    {
        // shows: my group and the caller's are in range
        self.in_range();
        let voucher = self.own_voucher(alloc, key, body)?;
        let mut vouchers = Sequence::new(alloc);
        vouchers.push(voucher)?;
        let content = Content::Part(note_of(key, body));
        let (group, index) = (self.me().group, self.responder(key));
        self.to_one(alloc, group, index, content, vouchers, outs)
    }
}
