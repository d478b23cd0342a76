//! Packets whose parts needn't be lawful, as a compromised replica may send them: with any bytes in the place of a
//! content, and with any body and any vouchers.

ghost use Rattle.std.specs.Prelude.{◌≡◌, ◌<◌, ◌++◌, All, length, IfOk, OnOk};
ghost use Rattle.std.specs.List.{flat_map};
ghost use Rattle.pws_msg.specs.RawPackets.{raw_voucher_text, raw_packet_text, RawVoucherFits, RawPacketFits};

use crate::packet_writing::{put_body, put_head, put_sender, put_tags};
use crate::putting::put_sized;
use pws_base::bytes::Bytes;
use pws_base::lists::{ExactCopy, Sequence};
use pws_base::memory::Memory;
use pws_base::shapes::{GroupId, ReplicaId, Tag};
use pws_base::writers::Writer;
use std::alloc::Global;

/// A voucher with any bytes in the place of its content.
#[derive(Debug, Drop)]
pub struct RawVoucher {
    /// Who is to have said it.
    pub sender: ReplicaId,
    /// The bytes in the place of its content.
    pub content: Bytes,
    /// The tags.
    pub tags: Sequence<Tag>,
}

/// A packet with any bytes in the place of its content, and with anything attached.
#[derive(Debug, Drop)]
pub struct RawPacket {
    /// Who is to send it.
    pub sender: ReplicaId,
    /// The group that it is for.
    pub receiver: GroupId,
    /// The bytes in the place of its content.
    pub content: Bytes,
    /// The tags.
    pub tags: Sequence<Tag>,
    /// The body, where it is to have one.
    pub body: Option<Bytes>,
    /// The vouchers.
    pub vouchers: Sequence<RawVoucher>,
}

impl ExactCopy for RawVoucher {
    fn copy(&self, alloc: Global) -> Result<RawVoucher, Memory> {
        Ok(RawVoucher {
            sender: self.sender,
            content: self.content.copy(alloc)?,
            tags: self.tags.copy(alloc)?,
        })
    }
}

impl ExactCopy for RawPacket {
    fn copy(&self, alloc: Global) -> Result<RawPacket, Memory> {
        Ok(RawPacket {
            sender: self.sender,
            receiver: self.receiver,
            content: self.content.copy(alloc)?,
            tags: self.tags.copy(alloc)?,
            body: self.body.copy(alloc)?,
            vouchers: self.vouchers.copy(alloc)?,
        })
    }
}

/// Writes a voucher.
fn put_raw_voucher(text: &mut Writer, voucher: &RawVoucher) -> Result<(), Memory>
    requires { RawVoucherFits voucher.now }
    ensures { OnOk result (text.new ≡ text.old ++ raw_voucher_text voucher.now) }
{
    put_sender(text, voucher.sender)?;
    put_sized(text, voucher.content.as_slice())?;
    put_tags(text, voucher.tags.as_slice())
}

/// Writes vouchers, one after the other.
fn put_raw_vouchers(text: &mut Writer, vouchers: &[RawVoucher]) -> Result<(), Memory>
    requires { All RawVoucherFits vouchers.now }
    ensures { OnOk result (text.new ≡ text.old ++ flat_map raw_voucher_text vouchers.now) }
{
    for voucher in vouchers.iter() {
        put_raw_voucher(text, voucher)?;
    }
    Ok(())
}

/// The bytes of a packet whose parts needn't be lawful. The content, the body and each voucher's content are to be
/// shorter than 2^32 bytes; the tags, the vouchers and each voucher's tags are to be at most 255.
///
/// For a lawful packet with the bytes of its contents they are its one spelling, by the law `lawful_is_raw`.
///
/// # Errors
///
/// `Memory` only.
pub fn write_raw_packet(alloc: Global, packet: &RawPacket) -> Result<Vec<u8>, Memory>
    requires { RawPacketFits packet.now }
    ensures { IfOk result (λ bytes. bytes.items ≡ raw_packet_text packet.now) }
{
    let vouchers = packet.vouchers.as_slice();
    let mut text = Writer::new(alloc);
    put_head(&mut text, packet.sender, packet.receiver)?;
    put_sized(&mut text, packet.content.as_slice())?;
    put_tags(&mut text, packet.tags.as_slice())?;
    put_body(&mut text, packet.body.as_ref())?;
    text.put_u8(vouchers.len() as u8)?;
    put_raw_vouchers(&mut text, vouchers)?;
    Ok(text.into_bytes().into_vec())
}
