//! Runs of the looker in which a call on the source or the sink fails, or in which the input is too long.

use pws_base::memory_streams::{MemorySink, MemorySource};
use pws_look::look_main;
use pws_look::statuses::LookStatus;
use std::alloc::Global;
use std::test::Fail;

/// What is written of the input `text` as a packet.
const REFUSED: &str = "Magic at 0\n";

/// The status of a look at the input `text` as a packet; the reads of these numbers fail.
fn look(alloc: Global, failing: &[u32], sink: &mut MemorySink) -> Result<LookStatus, Fail> {
    let bytes = b"text".to_vec(alloc)?;
    let failing = failing.to_vec(alloc)?;
    let mut source = MemorySource::new(bytes, failing);
    Ok(look_main(alloc, &["packet"], &mut source, sink))
}

/// Whether a look whose read of this number fails writes nothing.
fn fails_at_read(alloc: Global, read: u32) -> Result<bool, Fail> {
    let mut sink = MemorySink::new(alloc, 100, Vec::new(alloc))?;
    let status = look(alloc, &[read], &mut sink)?;
    Ok(status == LookStatus::ReadFault && sink.bytes().is_empty())
}

#[test]
fn a_read_fails(rt: HostRuntime) -> Result<(), Fail> {
    // the bytes come by the first read, and their end by the second
    assert!(rt; fails_at_read(rt.alloc(), 1)?);
    assert!(rt; fails_at_read(rt.alloc(), 2)?);
    Ok(())
}

/// Whether these bytes are as many as that from the beginning of the answer.
fn are_first(bytes: &[u8], count: usize) -> bool {
    bytes.len() == count && REFUSED.as_bytes().starts_with(bytes)
}

/// Whether a look on a sink with this room fills it, and fails.
fn is_cut(alloc: Global, room: usize) -> Result<bool, Fail> {
    let mut sink = MemorySink::new(alloc, room, Vec::new(alloc))?;
    let status = look(alloc, &[], &mut sink)?;
    Ok(status == LookStatus::WriteFault && are_first(sink.bytes(), room))
}

#[test]
fn the_room_of_the_sink_ends(rt: HostRuntime) -> Result<(), Fail> {
    assert!(rt; is_cut(rt.alloc(), 0)?);
    assert!(rt; is_cut(rt.alloc(), 1)?);
    assert!(rt; is_cut(rt.alloc(), REFUSED.len() - 1)?);
    Ok(())
}

/// A source of one byte more than an input may have.
fn long_source(alloc: Global) -> Result<MemorySource, Fail> {
    let mut input = Vec::new(alloc);
    input.resize(67108865, 0u8)?;
    Ok(MemorySource::new(input, Vec::new(alloc)))
}

#[test]
fn the_input_is_too_long(rt: HostRuntime) -> Result<(), Fail> {
    let mut source = long_source(rt.alloc())?;
    let mut sink = MemorySink::new(rt.alloc(), 100, Vec::new(rt.alloc()))?;
    let status = look_main(rt.alloc(), &["event", "--lines"], &mut source, &mut sink);
    assert!(rt; status == LookStatus::Limit);
    assert!(rt; sink.bytes() == b"input: limit\n".as_slice());
    Ok(())
}
