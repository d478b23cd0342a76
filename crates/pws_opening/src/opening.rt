//! Opening the bytes of a packet.

ghost use Rattle.std.specs.Prelude.{◌≡◌, length, map, IfOk, Ok};
ghost use Rattle.std.specs.Option.{option_copied};
ghost use Rattle.pws_runs.specs.Saying.{verifies};
ghost use Rattle.pws_runs.specs.Opening.{is_said_by, is_known, has_digest, has_its_body, checked, open_read, opens};
ghost use Rattle.pws_opening.specs.Opened.{GivesChecked, IsFor, judged};

use crate::checked::Checked;
use crate::errors::OpeningError;
use crate::members::Member;
use pws_base::bytes::Bytes;
use pws_base::lists::Sequence;
use pws_base::memory::Memory;
use pws_base::shapes::Digest;
use pws_msg::contents::Content;
use pws_msg::packet_reading::read_packet;
use pws_msg::packets::{Packet, Voucher};
use pws_runs::errors::OpenError;
use sha2::{Digest as _, Sha256};
use std::alloc::Global;

/// Whether contents of this kind are said by the own group, or by another.
fn is_said_by(own: bool, content: &Content) -> bool
    ensures { result ≡ is_said_by own content.now }
{
    match content {
        Content::Request(_) => !own,
        Content::Reply(_) => !own,
        _ => own,
    }
}

/// Whether a body, where there is one, has this digest.
fn has_digest(digest: &Digest, body: Option<&Bytes>) -> bool
    ensures { result ≡ has_digest digest.now (option_copied body.entry) }
{
    match body {
        Some(body) => Sha256::digest(body.as_slice()) == *digest,
        None => true,
    }
}

/// Whether the body of a REPLY is the one that it tells of.
fn has_its_body(packet: &Packet) -> bool
    ensures { result ≡ has_its_body packet.now.content packet.now.body }
{
    match packet.content() {
        Content::Reply(reply) => has_digest(&reply.digest(), packet.body()),
        _ => true,
    }
}

impl Member {
    /// Whether a packet is of a replica of the layout, for my group, with a tag for each of my group, of a kind that its
    /// group says.
    #[tactic(auto, unfolding(pws_runs::specs::Opening::is_known))]
    fn is_known(&self, packet: &Packet) -> bool
        ensures { result ≡ is_known self.now.keys self.now.me packet.now }
    {
        let sender = packet.sender();
        let group = self.me().group;
        self.layout().has(sender)
            && (packet.receiver() == group
                && (packet.tags().len() == usize::from(self.n())
                    && is_said_by(sender.group == group, packet.content())))
    }

    /// Whether the outer tag of a packet verifies.
    fn is_sealed_outside(&self, alloc: Global, packet: &Packet) -> Result<bool, Memory>
        ensures { IfOk result (λ b. b ≡ verifies self.now.keys self.now.me (record { sender = packet.now.sender; content = packet.now.content; tags = packet.now.tags })) }
    {
        self.verifies(alloc, packet.sender(), packet.content(), packet.tags())
    }

    /// Why a packet isn't opened, if it isn't.
    #[tactic(auto, unfolding(pws_runs::specs::Opening::open_read))]
    fn refusal(&self, alloc: Global, packet: &Packet) -> Result<Option<OpenError>, Memory>
        ensures { IfOk result (λ why. open_read self.now.keys self.now.me (Ok packet.now) ≡ judged why (checked self.now.keys self.now.me packet.now)) }
    {
        if !self.is_known(packet) {
            return Ok(Some(OpenError::Unknown));
        }
        if packet.sender() == self.me() {
            return Ok(Some(OpenError::Own));
        }
        if !self.is_sealed_outside(alloc, packet)? {
            return Ok(Some(OpenError::Tag));
        }
        if !has_its_body(packet) {
            return Ok(Some(OpenError::Body));
        }
        Ok(None)
    }

    /// For each voucher whether its tag verifies.
    fn marks(&self, alloc: Global, vouchers: &[Voucher]) -> Result<Sequence<bool>, Memory>
        ensures { IfOk result (λ marks. marks ≡ map (verifies self.now.keys self.now.me) vouchers.now) }
    {
        let mut marks = Sequence::new(alloc);
        for voucher in vouchers {
            let sender = voucher.sender();
            marks.push(self.verifies(alloc, sender, voucher.content(), voucher.tags())?)?;
        }
        Ok(marks)
    }

    /// A packet with its vouchers verified.
    #[tactic(auto, using(crate::proofs::Marks::marked_map))]
    fn checked(&self, alloc: Global, packet: Packet) -> Result<Checked, Memory>
        ensures { IfOk result (λ c. c ≡ checked self.now.keys self.now.me packet) }
    {
        let verified = self.marks(alloc, packet.vouchers())?;
        Ok(Checked::new(packet, verified))
    }

    /// Opens a packet that was read.
    fn open_read(&self, alloc: Global, packet: Packet) -> Result<Checked, OpeningError>
        ensures { GivesChecked result (open_read self.now.keys self.now.me (Ok packet)) }
    {
        if let Some(why) = self.refusal(alloc, &packet)? {
            return Err(OpeningError::Refused(why));
        }
        Ok(self.checked(alloc, packet)?)
    }

    /// Opens the bytes of a packet.
    ///
    /// # Errors
    ///
    /// `Refused` for the first of these: `Packet` exactly where the bytes spell none, with the reader's refusal;
    /// `Unknown` where the sender is no replica, the receiver isn't my group, the tags aren't as many as its replicas, or
    /// the sender's group doesn't say such a thing (REQ and REPLY come from other groups, all else from mine); `Own`
    /// where I am the sender; `Tag` where the tag for me isn't the sender's; `Body` where the body of a REPLY hasn't the
    /// digest that it tells. Else `Memory` only.
    #[tactic(auto, unfolding(pws_runs::specs::Opening::opens, pws_runs::specs::Opening::open_read))]
    pub fn open_packet(&self, alloc: Global, bytes: &[u8]) -> Result<Checked, OpeningError>
        ensures value { GivesChecked result (opens self.now.keys self.now.me bytes.now) }
        ensures own { IfOk result (λ c. IsFor self.now.keys self.now.me c) }
    {
        let packet = read_packet(alloc, bytes)?;
        self.open_read(alloc, packet)
    }
}
