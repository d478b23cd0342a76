//! Writing packets.

ghost use Rattle.std.specs.Prelude.{◌≡◌, ◌<◌, ◌≤◌, ◌^◌, ◌++◌, [], ◌∷◌, length, IfOk, IfSome, OnOk};
ghost use Rattle.std.specs.List.{flat_map};
ghost use Rattle.std.specs.Option.{option_copied};
ghost use Rattle.pws_base.specs.Limits.{max_packet};
ghost use Rattle.pws_base.specs.Texts.{sized_text};
ghost use Rattle.pws_msg.specs.Contents.{content_text};
ghost use Rattle.pws_msg.specs.StatementTexts.{counted_text};
ghost use Rattle.pws_msg.specs.Wire.{wire_version};
ghost use Rattle.pws_msg.specs.Packets.{sender_text, tags_text, voucher_text, body_text, magic, packet_text};
ghost use Rattle.pws_msg.specs.Spelling.{Spells};

use crate::contents::{Content, content_bytes};
use crate::packets::{Packet, Voucher, tags_are_whole};
use crate::putting::put_sized;
use crate::rows::put_counted;
use crate::wire::VERSION;
use pws_base::bytes::Bytes;
use pws_base::memory::Memory;
use pws_base::shapes::{GroupId, ReplicaId, Tag};
use pws_base::writers::Writer;
use std::alloc::Global;

/// Writes a sender.
pub(crate) fn put_sender(text: &mut Writer, sender: ReplicaId) -> Result<(), Memory>
    ensures { OnOk result (text.new ≡ text.old ++ sender_text sender) }
{
    text.put_u8(sender.group)?;
    text.put_u8(sender.index)
}

/// Writes tags after their count, which fits a byte.
pub(crate) fn put_tags(text: &mut Writer, tags: &[Tag]) -> Result<(), Memory>
    requires { length tags.now < 256 }
    ensures { OnOk result (text.new ≡ text.old ++ tags_text tags.now) }
{
    // shows: each tag has 32 bytes
    tags_are_whole(tags);
    put_counted(text, tags)
}

/// Writes a content after its length.
fn put_sized_content(alloc: Global, text: &mut Writer, content: &Content) -> Result<(), Memory>
    ensures { OnOk result (text.new ≡ text.old ++ sized_text (content_text content.now)) }
{
    // shows: the content is short, since its fields are in range
    content.is_lawful();
    let bytes = content_bytes(alloc, content)?;
    put_sized(text, bytes.as_slice())
}

/// Writes a voucher.
fn put_voucher(alloc: Global, text: &mut Writer, voucher: &Voucher) -> Result<(), Memory>
    ensures { OnOk result (text.new ≡ text.old ++ voucher_text voucher.now) }
{
    put_sender(text, voucher.sender())?;
    put_sized_content(alloc, text, voucher.content())?;
    put_tags(text, voucher.tags())
}

/// Writes vouchers, one after the other.
fn put_each_voucher(alloc: Global, text: &mut Writer, vouchers: &[Voucher]) -> Result<(), Memory>
    ensures { OnOk result (text.new ≡ text.old ++ flat_map voucher_text vouchers.now) }
{
    for voucher in vouchers.iter() {
        put_voucher(alloc, text, voucher)?;
    }
    Ok(())
}

/// Writes vouchers after their count, which fits a byte.
fn put_vouchers(alloc: Global, text: &mut Writer, vouchers: &[Voucher]) -> Result<(), Memory>
    requires { length vouchers.now < 256 }
    ensures { OnOk result (text.new ≡ text.old ++ counted_text voucher_text vouchers.now) }
{
    text.put_u8(vouchers.len() as u8)?;
    put_each_voucher(alloc, text, vouchers)
}

/// Writes a body, where there is one, after the flag that tells.
pub(crate) fn put_body(text: &mut Writer, body: Option<&Bytes>) -> Result<(), Memory>
    requires { IfSome (option_copied body) (λ b. length b < 2 ^ 32) }
    ensures { OnOk result (text.new ≡ text.old ++ body_text (option_copied body.entry)) }
{
    match body {
        None => text.put_u8(0),
        Some(body) => {
            text.put_u8(1)?;
            put_sized(text, body.as_slice())
        }
    }
}

/// Writes what stands before the content: the letters PWS, the version 1, the sender and the receivers' group.
pub(crate) fn put_head(
    text: &mut Writer,
    sender: ReplicaId,
    receiver: GroupId,
) -> Result<(), Memory>
    ensures { OnOk result (text.new ≡ text.old ++ (magic ++ (wire_version ∷ []) ++ sender_text sender ++ (receiver ∷ []))) }
{
    text.put_u8(b'P')?;
    text.put_u8(b'W')?;
    text.put_u8(b'S')?;
    text.put_u8(VERSION)?;
    put_sender(text, sender)?;
    text.put_u8(receiver)
}

/// The bytes that spell a packet, its one spelling, of at most 98,304 bytes.
///
/// # Errors
///
/// `Memory` only.
#[tactic(auto, using(crate::proofs::WholePackets::written_spells, crate::proofs::WholePackets::written_few))]
pub fn write_packet(alloc: Global, packet: &Packet) -> Result<Vec<u8>, Memory>
    ensures value { IfOk result (λ bytes. bytes.items ≡ packet_text packet.now) }
    ensures spells { IfOk result (λ bytes. Spells packet.now bytes.items) }
    ensures few { IfOk result (λ bytes. length bytes.items ≤ max_packet) }
{
    let vouchers = packet.vouchers();
    let mut text = Writer::new(alloc);
    put_head(&mut text, packet.sender(), packet.receiver())?;
    put_sized_content(alloc, &mut text, packet.content())?;
    put_tags(&mut text, packet.tags())?;
    put_body(&mut text, packet.body())?;
    put_vouchers(alloc, &mut text, vouchers)?;
    Ok(text.into_bytes().into_vec())
}
