//! Reading packets.

ghost use Rattle.std.specs.Prelude.{◌≡◌, ◌≤◌, All, length, IfOk, IfSome, option_to_list};
ghost use Rattle.pws_base.specs.Fields.{Gives, GivesOrMemory};
ghost use Rattle.pws_msg.specs.RowFields.{rows_at, counted_at};
ghost use Rattle.pws_msg.specs.Bytes.{IsBytes};
ghost use Rattle.pws_msg.specs.Spelling.{IsSpelled};
ghost use Rattle.pws_msg.specs.ContentFields.{content_of, content_of_kind};
ghost use Rattle.pws_msg.specs.Contents.{kind_of};
ghost use Rattle.pws_msg.specs.Rules.{rule_of};
ghost use Rattle.pws_msg.specs.Packets.{IsSender, IsTags};
ghost use Rattle.pws_msg.specs.PacketFields.{sender_at, part_at, sized_at, tags_at, voucher_at, bodies_at, packet_at, magic_at, version_at, packet_of, onward, in_packet, GivesHead, GivesPacket};

use crate::content_reading::{take_content, take_content_of_kind};
use crate::contents::Content;
use crate::errors::{PacketError, PacketFault, PacketReadError};
use crate::kinds::Kind;
use crate::packets::{Packet, Voucher};
use crate::rows::take_counted;
use crate::rules::{AttachmentRule, attachment_rule};
use crate::wire::{MOST_TAGS, VERSION};
use pws_base::bytes::Bytes;
use pws_base::fields::{FieldError, FieldFault, FieldReader};
use pws_base::limits::MAX_PACKET;
use pws_base::lists::Sequence;
use pws_base::shapes::{ReplicaId, Tag};
use std::alloc::Global;

/// Reads a sender.
#[tactic(auto, unfolding(crate::specs::PacketFields::sender_at), using(crate::proofs::Ranges::u8_range))]
fn take_sender(fields: &mut FieldReader<'_>) -> Result<ReplicaId, FieldFault>
    ensures read { Gives (λ s. s) result fields.new (sender_at fields.old) }
    ensures lawful { IfOk result (λ s. IsSender s) }
{
    let group = fields.take_group()?;
    let index = fields.take_index()?;
    Ok(ReplicaId { group, index })
}

/// The bytes of a content, after their length, as a text of their own.
#[tactic(auto, unfolding(crate::specs::PacketFields::part_at))]
fn take_part<'a>(fields: &mut FieldReader<'a>) -> Result<FieldReader<'a>, FieldFault>
    ensures { Gives (λ part. part) result fields.new (part_at fields.old) }
{
    let size = fields.take_u32()?;
    let at = fields.at();
    let bytes = fields.take_bytes(size as usize)?;
    Ok(FieldReader::within(bytes, at))
}

/// Reads a content after its length.
#[tactic(auto, unfolding(crate::specs::PacketFields::sized_at))]
fn take_sized_content(alloc: Global, fields: &mut FieldReader<'_>) -> Result<Content, FieldError>
    ensures { GivesOrMemory (λ c. c) result fields.new (sized_at content_of fields.old) }
{
    let mut part = take_part(fields)?;
    take_content(alloc, &mut part)
}

/// Reads a content of this kind after its length.
#[tactic(auto, unfolding(crate::specs::PacketFields::sized_at))]
fn take_sized_content_of_kind(
    alloc: Global,
    kind: Kind,
    fields: &mut FieldReader<'_>,
) -> Result<Content, FieldError>
    ensures read { GivesOrMemory (λ c. c) result fields.new (sized_at (content_of_kind kind) fields.old) }
    ensures kind { IfOk result (λ c. kind_of c ≡ kind) }
{
    let mut part = take_part(fields)?;
    take_content_of_kind(alloc, kind, &mut part)
}

/// Reads tags.
fn take_tags(alloc: Global, fields: &mut FieldReader<'_>) -> Result<Sequence<Tag>, FieldError>
    ensures read { GivesOrMemory (λ tags. tags) result fields.new (tags_at fields.old) }
    ensures lawful { IfOk result (λ tags. IsTags tags) }
{
    take_counted(alloc, fields, 0, MOST_TAGS)
}

/// Reads a voucher, whose content is to be of this kind.
#[tactic(auto, unfolding(crate::specs::PacketFields::voucher_at))]
fn take_voucher(
    alloc: Global,
    kind: Kind,
    fields: &mut FieldReader<'_>,
) -> Result<Voucher, FieldError>
    ensures read { GivesOrMemory (λ v. v) result fields.new (voucher_at kind fields.old) }
    ensures kind { IfOk result (λ v. kind_of v.content ≡ kind) }
{
    let sender = take_sender(fields)?;
    let content = take_sized_content_of_kind(alloc, kind, fields)?;
    let tags = take_tags(alloc, fields)?;
    Ok(Voucher::new(sender, content, tags))
}

/// Reads vouchers, whose contents are to be of this kind, one after the other.
fn take_vouchers(
    alloc: Global,
    kind: Kind,
    fields: &mut FieldReader<'_>,
    count: u8,
) -> Result<Sequence<Voucher>, FieldError>
    ensures read { GivesOrMemory (λ vs. vs) result fields.new (rows_at (voucher_at kind) count fields.old) }
    ensures kinds { IfOk result (λ vs. All (λ v. kind_of v.content ≡ kind) vs) }
    ensures count { IfOk result (λ vs. length vs ≡ count) }
{
    let mut vouchers = Sequence::new(alloc);
    for _ in 0..count {
        vouchers.push(take_voucher(alloc, kind, fields)?)?;
    }
    Ok(vouchers)
}

/// Reads vouchers after their count, as the rule for what is attached has them.
#[tactic(auto, unfolding(crate::specs::RowFields::counted_at), using(crate::proofs::Ranges::u8_range))]
fn take_counted_vouchers(
    alloc: Global,
    rule: AttachmentRule,
    fields: &mut FieldReader<'_>,
) -> Result<Sequence<Voucher>, FieldError>
    ensures read { GivesOrMemory (λ vs. vs) result fields.new (counted_at (voucher_at rule.kind) rule.least rule.most fields.old) }
    ensures least { IfOk result (λ vs. rule.least ≤ length vs) }
    ensures most { IfOk result (λ vs. length vs ≤ rule.most) }
    ensures kinds { IfOk result (λ vs. All (λ v. kind_of v.content ≡ rule.kind) vs) }
{
    let count = fields.take_u8_within(rule.least, rule.most)?;
    take_vouchers(alloc, rule.kind, fields, count)
}

/// Reads a body, where there is to be one.
#[tactic(auto, unfolding(crate::specs::PacketFields::bodies_at), using(crate::proofs::Ranges::u8_range))]
fn take_body(
    alloc: Global,
    bodies: u8,
    fields: &mut FieldReader<'_>,
) -> Result<Option<Bytes>, FieldError>
    requires { bodies ≤ 1 }
    ensures read { GivesOrMemory (λ b. b) result fields.new (bodies_at bodies fields.old) }
    ensures bodies { IfOk result (λ b. length (option_to_list b) ≡ bodies) }
    ensures short { IfOk result (λ b. IfSome b (λ bytes. length bytes ≤ 32768)) }
{
    let flag = fields.take_u8_within(bodies, bodies)?;
    if flag == 0 {
        return Ok(None);
    }
    let body = Bytes::from_slice(alloc, fields.take_body()?)?;
    Ok(Some(body))
}

/// The letters PWS.
#[tactic(auto, unfolding(crate::specs::PacketFields::magic_at))]
fn take_magic(fields: &mut FieldReader<'_>) -> Result<(), PacketError>
    ensures { GivesHead result fields.new (magic_at fields.old) }
{
    let at = fields.at();
    let magic = fields.take_bytes(3)?;
    if magic[0] == b'P' && magic[1] == b'W' && magic[2] == b'S' {
        return Ok(());
    }
    Err(PacketError {
        kind: PacketFault::Magic,
        at,
    })
}

/// The version, 1.
#[tactic(auto, unfolding(crate::specs::PacketFields::version_at))]
fn take_version(fields: &mut FieldReader<'_>) -> Result<(), PacketError>
    ensures { GivesHead result fields.new (version_at fields.old) }
{
    let at = fields.at();
    let version = fields.take_u8()?;
    if version == VERSION {
        return Ok(());
    }
    Err(PacketError {
        kind: PacketFault::Version,
        at,
    })
}

/// Reads the fields of a packet behind its version.
#[tactic(auto, unfolding(crate::specs::PacketFields::packet_at), using(crate::proofs::Ranges::u8_range))]
fn take_packet(alloc: Global, fields: &mut FieldReader<'_>) -> Result<Packet, FieldError>
    ensures { GivesOrMemory (λ p. p) result fields.new (packet_at fields.old) }
{
    let sender = take_sender(fields)?;
    let receiver = fields.take_group()?;
    let content = take_sized_content(alloc, fields)?;
    let tags = take_tags(alloc, fields)?;
    let rule = attachment_rule(content.kind());
    let body = take_body(alloc, rule.bodies, fields)?;
    let vouchers = take_counted_vouchers(alloc, rule, fields)?;
    Ok(Packet::new(sender, receiver, content, tags, body, vouchers))
}

/// Reads a whole packet.
#[tactic(auto, unfolding(crate::specs::PacketFields::packet_of))]
fn take_whole(alloc: Global, bytes: &[u8]) -> Result<Packet, PacketReadError>
    ensures { GivesPacket result (packet_of bytes.now) }
{
    if bytes.len() > MAX_PACKET {
        return Err(PacketReadError::Refused(PacketError {
            kind: PacketFault::Long,
            at: MAX_PACKET,
        }));
    }
    let mut fields = FieldReader::new(bytes);
    take_magic(&mut fields)?;
    take_version(&mut fields)?;
    let packet = take_packet(alloc, &mut fields)?;
    fields.end()?;
    Ok(packet)
}

/// Bytes are below 256, which a `u8` says by its type.
fn are_bytes(bytes: &[u8])
    ensures { IsBytes bytes.now }
{}

/// The packet that bytes spell, by the tables of packets and of contents in docs/FORMATS.md.
///
/// # Errors
///
/// `Refused` exactly where the bytes spell no packet, with the first refusal: `Long` at 98,304 for longer input, and
/// then of the first field that fails in its order. `Short` stands at the first byte of a field that isn't whole
/// within the packet or its content, `Magic` at 0, `Version` at 3, `Kind` at a kind byte that no content has or that a
/// voucher isn't to have here, `Range` at the first byte of a field that is out of range, and `Rest` at the first byte
/// left over in a content or in the packet. Else `Memory` only.
pub fn read_packet(alloc: Global, bytes: &[u8]) -> Result<Packet, PacketReadError>
    ensures value { GivesPacket result (packet_of bytes.now) }
    ensures spells { IsSpelled bytes.now result }
{
    // shows: each byte is below 256
    are_bytes(bytes);
    take_whole(alloc, bytes)
}
