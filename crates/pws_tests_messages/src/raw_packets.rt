//! Packets whose parts aren't lawful: they are written as they are, and refused by the reader.

use pws_base::bytes::Bytes;
use pws_base::lists::Sequence;
use pws_base::memory::Memory;
use pws_base::shapes::ReplicaId;
use pws_msg::packet_reading::read_packet;
use pws_msg::raw_packets::{RawPacket, write_raw_packet};
use std::alloc::Global;
use std::test::Fail;

/// A packet of the replica 1.0 to group 0, with a content of no kind and a body.
const WRITTEN: &[u8] = b"PWS\x01\x01\x00\x00\x00\x00\x00\x02??\x00\x01\x00\x00\x00\x01x\x00";

/// The bytes that are written of it.
fn written(alloc: Global) -> Result<Vec<u8>, Memory> {
    let content = Bytes::from_slice(alloc, b"??")?;
    let body = Bytes::from_slice(alloc, b"x")?;
    let packet = RawPacket {
        sender: ReplicaId { group: 1, index: 0 },
        receiver: 0,
        content,
        tags: Sequence::new(alloc),
        body: Some(body),
        vouchers: Sequence::new(alloc),
    };
    write_raw_packet(alloc, &packet)
}

#[test]
fn a_raw_packet_is_written(rt: HostRuntime) -> Result<(), Fail> {
    let text = written(rt.alloc())?;
    assert!(rt; text.as_slice() == WRITTEN);
    Ok(())
}

#[test]
fn a_raw_packet_is_refused(rt: HostRuntime) -> Result<(), Fail> {
    assert!(rt; read_packet(rt.alloc(), WRITTEN).is_err());
    Ok(())
}
