//! Packets, and the vouchers in them.

ghost use Rattle.std.specs.Prelude.{◌≡◌, ◌≤◌, ◌++◌, [], ◌∷◌, length, All, IfOk, OnOk, Some, None, map, option_to_list};
ghost use Rattle.std.specs.List.{flat_map};
ghost use Rattle.std.specs.Option.{option_map, option_copied};
ghost use Rattle.pws_msg.specs.Rows.{IsDigest};
ghost use Rattle.pws_msg.specs.Rules.{rule_of};
ghost use Rattle.pws_msg.specs.Packets.{IsSender, IsTags, IsVoucher, IsAttachment, Fits, IsPacket, voucher_text, packet_text};

use crate::contents::Content;
use pws_base::bytes::Bytes;
use pws_base::lists::{ExactCopy, Sequence};
use pws_base::memory::Memory;
use pws_base::shapes::{GroupId, ReplicaId, Tag};
use std::alloc::Global;
use std::marker::Model;

/// Each tag has 32 bytes, by its type.
pub(crate) fn tags_are_whole(tags: &[Tag])
    ensures { All IsDigest tags.now }
{}

/// What a replica said, with its tags: a part of a packet of another, which vouches by it.
///
/// The sender's group is 0 to 15 and its index 0 to 9; there are at most 10 tags.
#[derive(Drop)]
pub struct Voucher {
    /// Who said it.
    sender: ReplicaId,
    /// What was said.
    content: Content,
    /// The tags, by the index of the replica that each is for.
    tags: Sequence<Tag>,
}

/// The parts of a voucher, as its own.
#[derive(Drop)]
pub struct VoucherParts {
    /// Who said it.
    pub sender: ReplicaId,
    /// What was said.
    pub content: Content,
    /// The tags, by the index of the replica that each is for.
    pub tags: Sequence<Tag>,
}

impl Model for Voucher {
    ghost use Rattle.pws_msg.specs.Packets.{VoucherFields, IsVoucher};

    ghost Value = { VoucherFields };

    ghost view = { λ v. record { sender = v.sender; content = v.content; tags = v.tags } };

    ghost invariant = { λ v. IsVoucher (record { sender = v.sender; content = v.content; tags = v.tags }) };
}

impl Voucher {
    /// What this sender said, with its tags, which are to be at most 10.
    pub fn new(sender: ReplicaId, content: Content, tags: Sequence<Tag>) -> Voucher
        requires sender { IsSender sender }
        requires tags { length tags ≤ 10 }
        ensures { result ≡ record { sender = sender; content = content; tags = tags } }
    {
        // shows: the parts are in range, by their types
        content.is_lawful();
        tags_are_whole(tags.as_slice());
        Voucher {
            sender,
            content,
            tags,
        }
    }

    /// Who said it.
    pub fn sender(&self) -> ReplicaId
        ensures value { result ≡ self.now.sender }
        ensures lawful { IsVoucher self.now }
    {
        self.sender
    }

    /// What was said.
    pub fn content(&self) -> &Content
        ensures value { result.now ≡ self.now.content }
        ensures lawful { IsVoucher self.now }
    {
        &self.content
    }

    /// The tags, at most 10, by the index of the replica that each is for.
    pub fn tags(&self) -> &[Tag]
        ensures value { result.now ≡ self.now.tags }
        ensures lawful { IsVoucher self.now }
    {
        self.tags.as_slice()
    }

    /// Its parts, which aren't copied.
    pub fn into_parts(self) -> VoucherParts
        ensures value { result ≡ record { sender = self.sender; content = self.content; tags = self.tags } }
        ensures lawful { IsVoucher self }
    {
        let Voucher {
            sender,
            content,
            tags,
        } = self;
        VoucherParts {
            sender,
            content,
            tags,
        }
    }
}

impl ExactCopy for VoucherParts {
    fn copy(&self, alloc: Global) -> Result<VoucherParts, Memory> {
        Ok(VoucherParts {
            sender: self.sender,
            content: self.content.copy(alloc)?,
            tags: self.tags.copy(alloc)?,
        })
    }
}

impl ExactCopy for Voucher {
    fn copy(&self, alloc: Global) -> Result<Voucher, Memory> {
        Ok(Voucher {
            sender: self.sender,
            content: self.content.copy(alloc)?,
            tags: self.tags.copy(alloc)?,
        })
    }
}

/// Vouchers are in range, by their type.
fn vouchers_are_lawful(vouchers: &[Voucher])
    ensures { All IsVoucher vouchers.now }
{
    for voucher in vouchers.iter() {
        // shows: a voucher's parts are in range
        let _sender = voucher.sender();
    }
}

/// What one replica says to a group, with its tags, and what is attached: a body, and vouchers.
///
/// The groups are 0 to 15 and the sender's index 0 to 9; there are at most 10 tags. Attached is what the content's
/// kind has: in a REPLY a body of at most 32,768 bytes and up to 10 vouchers, each a REPLY; in a PART one voucher, a
/// REPLY; in a RELAY one, a VIEW_CHANGE; in all others nothing.
#[derive(Drop)]
pub struct Packet {
    /// Who sends it.
    sender: ReplicaId,
    /// The group that it is for.
    receiver: GroupId,
    /// What it says.
    content: Content,
    /// The tags, by the index of the replica that each is for.
    tags: Sequence<Tag>,
    /// The body, there exactly in a REPLY.
    body: Option<Bytes>,
    /// The vouchers, as the content's kind has them.
    vouchers: Sequence<Voucher>,
}

/// The parts of a packet, as its own.
#[derive(Drop)]
pub struct PacketParts {
    /// Who sends it.
    pub sender: ReplicaId,
    /// The group that it is for.
    pub receiver: GroupId,
    /// What it says.
    pub content: Content,
    /// The tags, by the index of the replica that each is for.
    pub tags: Sequence<Tag>,
    /// The body.
    pub body: Option<Bytes>,
    /// The vouchers.
    pub vouchers: Sequence<Voucher>,
}

impl Model for Packet {
    ghost use Rattle.pws_msg.specs.Packets.{PacketFields, IsPacket};

    ghost Value = { PacketFields };

    ghost view = { λ p. record { sender = p.sender; receiver = p.receiver; content = p.content; tags = p.tags; body = p.body; vouchers = p.vouchers } };

    ghost invariant = { λ p. IsPacket (record { sender = p.sender; receiver = p.receiver; content = p.content; tags = p.tags; body = p.body; vouchers = p.vouchers }) };
}

impl Packet {
    /// A packet with these fields, which are to be in range, and with what its content's kind has attached.
    #[tactic(auto, using(crate::proofs::Attached::attached))]
    pub fn new(
        sender: ReplicaId,
        receiver: GroupId,
        content: Content,
        tags: Sequence<Tag>,
        body: Option<Bytes>,
        vouchers: Sequence<Voucher>,
    ) -> Packet
        requires sender { IsSender sender }
        requires receiver { receiver ≤ 15 }
        requires tags { length tags ≤ 10 }
        requires attached { Fits (rule_of content) body vouchers }
        ensures { result ≡ record { sender = sender; receiver = receiver; content = content; tags = tags; body = body; vouchers = vouchers } }
    {
        // shows: the parts are in range, by their types
        content.is_lawful();
        tags_are_whole(tags.as_slice());
        vouchers_are_lawful(vouchers.as_slice());
        Packet {
            sender,
            receiver,
            content,
            tags,
            body,
            vouchers,
        }
    }

    /// Who sends it.
    pub fn sender(&self) -> ReplicaId
        ensures value { result ≡ self.now.sender }
        ensures lawful { IsPacket self.now }
    {
        self.sender
    }

    /// The group that it is for.
    pub fn receiver(&self) -> GroupId
        ensures value { result ≡ self.now.receiver }
        ensures lawful { IsPacket self.now }
    {
        self.receiver
    }

    /// What it says.
    pub fn content(&self) -> &Content
        ensures value { result.now ≡ self.now.content }
        ensures lawful { IsPacket self.now }
    {
        &self.content
    }

    /// The tags, at most 10, by the index of the replica that each is for.
    pub fn tags(&self) -> &[Tag]
        ensures value { result.now ≡ self.now.tags }
        ensures lawful { IsPacket self.now }
    {
        self.tags.as_slice()
    }

    /// The body, there exactly in a REPLY, of at most 32,768 bytes.
    pub fn body(&self) -> Option<&Bytes>
        ensures value { option_copied result ≡ self.now.body }
        ensures lawful { IsPacket self.now }
    {
        self.body.as_ref()
    }

    /// The vouchers, at most 10.
    pub fn vouchers(&self) -> &[Voucher]
        ensures value { result.now ≡ self.now.vouchers }
        ensures lawful { IsPacket self.now }
    {
        self.vouchers.as_slice()
    }

    /// Its parts, which aren't copied.
    pub fn into_parts(self) -> PacketParts
        ensures value { result ≡ record { sender = self.sender; receiver = self.receiver; content = self.content; tags = self.tags; body = self.body; vouchers = self.vouchers } }
        ensures lawful { IsPacket self }
    {
        let Packet {
            sender,
            receiver,
            content,
            tags,
            body,
            vouchers,
        } = self;
        PacketParts {
            sender,
            receiver,
            content,
            tags,
            body,
            vouchers,
        }
    }
}

fn copy_body(alloc: Global, body: &Option<Bytes>) -> Result<Option<Bytes>, Memory>
    ensures { IfOk result (λ b. b ≡ body.now) }
{
    match body {
        None => Ok(None),
        Some(body) => Ok(Some(body.copy(alloc)?)),
    }
}

impl ExactCopy for PacketParts {
    fn copy(&self, alloc: Global) -> Result<PacketParts, Memory> {
        Ok(PacketParts {
            sender: self.sender,
            receiver: self.receiver,
            content: self.content.copy(alloc)?,
            tags: self.tags.copy(alloc)?,
            body: copy_body(alloc, &self.body)?,
            vouchers: self.vouchers.copy(alloc)?,
        })
    }
}

impl ExactCopy for Packet {
    fn copy(&self, alloc: Global) -> Result<Packet, Memory> {
        Ok(Packet {
            sender: self.sender,
            receiver: self.receiver,
            content: self.content.copy(alloc)?,
            tags: self.tags.copy(alloc)?,
            body: copy_body(alloc, &self.body)?,
            vouchers: self.vouchers.copy(alloc)?,
        })
    }
}
