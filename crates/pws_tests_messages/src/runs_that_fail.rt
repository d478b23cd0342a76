//! Runs in which a call on the source or the sink fails.

use pws_base::memory_streams::{MemorySink, MemorySource};
use pws_sched::statuses::Status;
use pws_sim::sim_main;
use std::alloc::Global;
use std::test::Fail;

const READ: &str =
    "pws-schedule 1\nseed 0000000000000000000000000000000000000000000000000000000000000000\ngroup 0 0\ngroup 1 0\nbad 0.0\nbegin\nsay 0.0 1.0 010000000100000001000000026869\nend\n";

const WRITTEN: &str =
    "pws-first 1\nplace 1 request 0 1 taken f12a3af980e3e4cbca3e92cbeda20ed3172b818866a56afc1a01eeda7e68f6e3\nend\n";

/// A sink with this room, whose calls of these numbers fail.
fn sink(alloc: Global, room: usize, failing: &[u32]) -> Result<MemorySink, Fail> {
    let failing = failing.to_vec(alloc)?;
    Ok(MemorySink::new(alloc, room, failing)?)
}

/// A source of a schedule that says one request; its calls of these numbers fail.
fn source(alloc: Global, failing: &[u32]) -> Result<MemorySource, Fail> {
    let bytes = READ.as_bytes().to_vec(alloc)?;
    let failing = failing.to_vec(alloc)?;
    Ok(MemorySource::new(bytes, failing))
}

/// The status of a run of the schedule, in which the reads of these numbers fail.
fn run(alloc: Global, failing: &[u32], sink: &mut MemorySink) -> Result<Status, Fail> {
    let mut source = source(alloc, failing)?;
    Ok(sim_main(alloc, &["run"], &mut source, sink))
}

/// Whether a run whose read of this number fails writes nothing.
fn fails_at_read(alloc: Global, read: u32) -> Result<bool, Fail> {
    let mut sink = sink(alloc, 1000, &[])?;
    let status = run(alloc, &[read], &mut sink)?;
    Ok(status == Status::ReadFault && sink.bytes().is_empty())
}

#[test]
fn a_read_fails(rt: HostRuntime) -> Result<(), Fail> {
    // the schedule comes by the first read, and its end by the second
    assert!(rt; fails_at_read(rt.alloc(), 1)?);
    assert!(rt; fails_at_read(rt.alloc(), 2)?);
    Ok(())
}

/// The status of a run with words that are no command, on a source whose first read fails.
fn status_of_unknown_words(alloc: Global) -> Result<Status, Fail> {
    let mut source = source(alloc, &[1])?;
    let mut sink = sink(alloc, 1000, &[])?;
    Ok(sim_main(alloc, &["run", "x"], &mut source, &mut sink))
}

#[test]
fn nothing_is_read_for_unknown_words(rt: HostRuntime) -> Result<(), Fail> {
    assert!(rt; status_of_unknown_words(rt.alloc())? == Status::Usage);
    Ok(())
}

#[test]
fn the_first_write_fails(rt: HostRuntime) -> Result<(), Fail> {
    let mut sink = sink(rt.alloc(), 1000, &[1])?;
    assert!(rt; run(rt.alloc(), &[], &mut sink)? == Status::WriteFault);
    assert!(rt; sink.bytes().is_empty());
    Ok(())
}

/// Whether these bytes are as many as that from the beginning of the report.
fn are_first(bytes: &[u8], count: usize) -> bool {
    bytes.len() == count && WRITTEN.as_bytes().starts_with(bytes)
}

/// Whether a run on a sink with this room fills it, and fails.
fn is_cut(alloc: Global, room: usize) -> Result<bool, Fail> {
    let mut sink = sink(alloc, room, &[])?;
    let status = run(alloc, &[], &mut sink)?;
    Ok(status == Status::WriteFault && are_first(sink.bytes(), room))
}

#[test]
fn the_room_of_the_sink_ends(rt: HostRuntime) -> Result<(), Fail> {
    assert!(rt; is_cut(rt.alloc(), 1)?);
    assert!(rt; is_cut(rt.alloc(), 30)?);
    assert!(rt; is_cut(rt.alloc(), WRITTEN.len() - 1)?);
    Ok(())
}

#[test]
fn the_room_of_the_sink_is_enough(rt: HostRuntime) -> Result<(), Fail> {
    let mut sink = sink(rt.alloc(), WRITTEN.len(), &[])?;
    assert!(rt; run(rt.alloc(), &[], &mut sink)? == Status::Done);
    assert!(rt; sink.bytes() == WRITTEN.as_bytes());
    Ok(())
}
