//! Contents and packets that are made, and not read.

use pws_base::bytes::Bytes;
use pws_base::lists::Sequence;
use pws_base::memory::Memory;
use pws_base::shapes::ReplicaId;
use pws_event::events::Event;
use pws_msg::contents::{Content, content_bytes, content_digest};
use pws_msg::packet_writing::write_packet;
use pws_msg::packets::Packet;
use pws_msg::places::WantedPlace;
use pws_msg::requests::{OwnRequest, ReplyNote};
use sha2::{Digest as _, Sha256};
use std::alloc::Global;
use std::test::Fail;

/// A REPLY of the replica 1.0 to the first call of group 0, with the body `hi` and no tag.
const REPLY: &[u8] =
    b"PWS\x01\x01\x00\x00\x00\x00\x00\x26\x02\x00\x00\x00\x00\x01\x8f\x43\x43\x46\x64\x8f\x6b\x96\xdf\x89\xdd\xa9\x01\xc5\x17\x6b\x10\xa6\xd8\x39\x61\xdd\x3c\x1a\xc8\x8b\x59\xb2\xdc\x32\x7a\xa4\x00\x01\x00\x00\x00\x02hi\x00";

/// Whether the content has these bytes and their digest.
fn has_bytes(alloc: Global, content: &Content, wanted: &[u8]) -> Result<bool, Memory> {
    let bytes = content_bytes(alloc, content)?;
    let digest = content_digest(alloc, content)?;
    Ok(bytes.as_slice() == wanted && digest == Sha256::digest(wanted))
}

/// The same of a content that is dropped then, in one place: a content has many kinds to drop.
fn is_spelled(alloc: Global, content: Content, wanted: &[u8]) -> Result<bool, Memory> {
    has_bytes(alloc, &content, wanted)
}

/// Whether the packet has these bytes.
fn has_text(alloc: Global, packet: &Packet, wanted: &[u8]) -> Result<bool, Memory> {
    let bytes = write_packet(alloc, packet)?;
    Ok(bytes.as_slice() == wanted)
}

/// The same of a packet that is dropped then.
fn is_written(alloc: Global, packet: Packet, wanted: &[u8]) -> Result<bool, Memory> {
    has_text(alloc, &packet, wanted)
}

/// A request with the body `hi`.
fn request(alloc: Global) -> Result<OwnRequest, Memory> {
    let body = Bytes::from_slice(alloc, b"hi")?;
    Ok(OwnRequest::new(1, 1, body))
}

/// The packet of `REPLY`.
fn reply_packet(alloc: Global) -> Result<Packet, Memory> {
    let body = Bytes::from_slice(alloc, b"hi")?;
    let sender = ReplicaId { group: 1, index: 0 };
    let reply = Content::Reply(ReplyNote::new(0, 1, Sha256::digest(b"hi")));
    let (tags, vouchers) = (Sequence::new(alloc), Sequence::new(alloc));
    Ok(Packet::new(sender, 0, reply, tags, Some(body), vouchers))
}

#[test]
fn a_place_is_wanted(rt: HostRuntime) -> Result<(), Fail> {
    let wanted = b"\x0e\x00\x00\x00\x01";
    let fetch = Content::Fetch(WantedPlace::new(1));
    assert!(rt; is_spelled(rt.alloc(), fetch, wanted)?);
    Ok(())
}

#[test]
fn an_event_is_given(rt: HostRuntime) -> Result<(), Fail> {
    let give = Content::Give(Event::Null);
    assert!(rt; is_spelled(rt.alloc(), give, b"\x11\x00")?);
    Ok(())
}

#[test]
fn a_request_is_made(rt: HostRuntime) -> Result<(), Fail> {
    let wanted = b"\x01\x00\x00\x00\x01\x00\x00\x00\x01\x00\x00\x00\x02hi";
    let content = Content::Request(request(rt.alloc())?);
    assert!(rt; is_spelled(rt.alloc(), content, wanted)?);
    Ok(())
}

#[test]
fn a_packet_is_made(rt: HostRuntime) -> Result<(), Fail> {
    let packet = reply_packet(rt.alloc())?;
    assert!(rt; is_written(rt.alloc(), packet, REPLY)?);
    Ok(())
}
