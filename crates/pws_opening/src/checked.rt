//! What was opened.

ghost use Rattle.std.specs.Prelude.{◌≡◌, length, slice_get, false, IfOk};
ghost use Rattle.std.specs.Option.{option_map_or, unwrap_or};
ghost use Rattle.pws_msg.specs.Packets.{IsPacket};
ghost use Rattle.pws_opening.specs.Marked.{marked};

use pws_base::lists::{ExactCopy, Sequence};
use pws_base::memory::Memory;
use pws_msg::packets::{Packet, PacketParts};
use std::alloc::Global;
use std::marker::Model;

/// A packet that was opened, and for each of its vouchers whether its tag verified.
///
/// It is for the replica that opened it, with its keys and layout, and for no other. Contracts see it as a `Checked`.
#[derive(Drop)]
pub struct Checked {
    /// The packet.
    packet: Packet,
    /// By voucher, whether its tag verified.
    verified: Sequence<bool>,
}

/// The parts of a packet that was opened, as its own.
#[derive(Drop)]
pub struct CheckedParts {
    /// The parts of the packet.
    pub packet: PacketParts,
    /// By voucher, whether its tag verified.
    pub verified: Sequence<bool>,
}

impl Model for Checked {
    ghost use Rattle.std.specs.Prelude.{◌≡◌, length};
    ghost use Rattle.pws_runs.specs.Opening.{Checked};
    ghost use Rattle.pws_opening.specs.Marked.{marked};

    ghost Value = { Checked };

    ghost view = { λ c. record { packet = c.packet; vouchers = marked c.packet.vouchers c.verified } };

    ghost invariant = { λ c. length c.verified ≡ length c.packet.vouchers };
}

/// The mark at an index; false where there is none.
fn mark_at(marks: &[bool], index: usize) -> bool
    ensures { result ≡ unwrap_or (slice_get marks.now index) false }
{
    match marks.get(index) {
        Some(mark) => *mark,
        None => false,
    }
}

impl Checked {
    /// A packet with what verified in it, a mark a voucher.
    pub(crate) fn new(packet: Packet, verified: Sequence<bool>) -> Checked
        requires { length verified ≡ length packet.vouchers }
        ensures { result ≡ record { packet = packet; vouchers = marked packet.vouchers verified } }
    {
        Checked { packet, verified }
    }

    /// The packet.
    pub fn packet(&self) -> &Packet
        ensures { result.now ≡ self.now.packet }
    {
        &self.packet
    }

    /// Whether the tag of this voucher verified; false where there is no such voucher.
    #[tactic(auto, using(crate::proofs::Marks::marked_at))]
    pub fn is_verified(&self, voucher: usize) -> bool
        ensures { result ≡ option_map_or (λ v. v.is_verified) (slice_get self.now.vouchers voucher) false }
    {
        mark_at(self.verified.as_slice(), voucher)
    }

    /// Its parts, which aren't copied.
    pub fn into_parts(self) -> CheckedParts
        ensures packet { result.packet ≡ record { sender = self.packet.sender; receiver = self.packet.receiver; content = self.packet.content; tags = self.packet.tags; body = self.packet.body; vouchers = self.packet.vouchers } }
        ensures vouchers { self.vouchers ≡ marked self.packet.vouchers result.verified }
        ensures whole { length result.verified ≡ length self.packet.vouchers }
        ensures lawful { IsPacket self.packet }
    {
        let Checked { packet, verified } = self;
        CheckedParts {
            packet: packet.into_parts(),
            verified,
        }
    }
}

/// Marks as they stand.
fn copy_marks(alloc: Global, marks: &[bool]) -> Result<Sequence<bool>, Memory>
    ensures { IfOk result (λ copies. copies ≡ marks.now) }
{
    let mut copies = Sequence::new(alloc);
    for mark in marks {
        copies.push(*mark)?;
    }
    Ok(copies)
}

impl ExactCopy for Checked {
    fn copy(&self, alloc: Global) -> Result<Checked, Memory> {
        Ok(Checked {
            packet: self.packet.copy(alloc)?,
            verified: copy_marks(alloc, self.verified.as_slice())?,
        })
    }
}
