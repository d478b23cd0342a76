//! The calls of `pws_base`, each once with ample memory.

use pws_base::bytes::Bytes;
use pws_base::cursors::{Cursor, Short};
use pws_base::lists::{ExactCopy, Sequence};
use pws_base::memory::Memory;
use pws_base::memory_streams::{MemorySink, MemorySource};
use pws_base::shapes::{BadLayout, BadShape, GroupShape, Layout, ReplicaId};
use pws_base::standard::{ReaderSource, WriterSink};
use pws_base::streams::{Got, Sink, Source, Took};
use pws_base::writers::Writer;
use std::alloc::Global;
use std::io;
use std::io::{ErrorKind, Read, Write};
use std::test::Fail;

/// Numbers of each width and two letters, high byte first.
const WRITTEN: &[u8] = b"\x01\x02\x03\x04\x05\x06\x07\x08\x09\x0a\x0b\x0c\x0d\x0e\x0fhi";

/// Writes numbers of each width and two letters.
fn write_numbers(writer: &mut Writer) -> Result<(), Memory> {
    writer.put_u8(0x01)?;
    writer.put_u16(0x0203)?;
    writer.put_u32(0x0405_0607)?;
    writer.put_u64(0x0809_0a0b_0c0d_0e0f)?;
    writer.put_bytes(b"hi")?;
    Ok(())
}

/// Whether they are written, copied and given as their bytes.
fn are_written(alloc: Global) -> Result<bool, Memory> {
    let mut writer = Writer::new(alloc);
    write_numbers(&mut writer)?;
    let copied = writer.copy(alloc)?.into_bytes();
    Ok(writer.bytes() == WRITTEN && copied.as_slice() == WRITTEN)
}

/// A number of each width.
fn take_numbers(cursor: &mut Cursor<'_>) -> Result<(u8, u16, u32, u64), Short> {
    let one = cursor.take_u8()?;
    let two = cursor.take_u16()?;
    let four = cursor.take_u32()?;
    let eight = cursor.take_u64()?;
    Ok((one, two, four, eight))
}

/// Whether no number of four bytes is left, but the two letters.
fn letters_are_left(cursor: &mut Cursor<'_>) -> bool {
    if cursor.take_u32().is_ok() {
        return false;
    }
    match cursor.take_bytes(2) {
        Ok(letters) => letters == b"hi".as_slice() && cursor.is_empty(),
        Err(Short) => false,
    }
}

#[test]
fn numbers_are_written_and_read_high_byte_first(rt: HostRuntime) -> Result<(), Fail> {
    assert!(rt; are_written(rt.alloc())?);
    let mut cursor = Cursor::new(WRITTEN);
    let wanted = (0x01, 0x0203, 0x0405_0607, 0x0809_0a0b_0c0d_0e0f);
    assert!(rt; take_numbers(&mut cursor)? == wanted);
    assert!(rt; letters_are_left(&mut cursor));
    Ok(())
}

/// Whether a list of these bytes and of none is copied.
fn is_copied(alloc: Global, bytes: Bytes) -> Result<bool, Memory> {
    let mut list = Sequence::new(alloc);
    list.push(bytes)?;
    list.push(Bytes::new(alloc))?;
    let copied = list.copy(alloc)?;
    Ok(copied.as_slice() == list.as_slice() && copied.len() == 2)
}

#[test]
fn lists_are_copied(rt: HostRuntime) -> Result<(), Fail> {
    let one = Bytes::from_slice(rt.alloc(), b"one")?;
    assert!(rt; one.clone()? == one);
    assert!(rt; is_copied(rt.alloc(), one)?);
    Ok(())
}

/// A source of five bytes whose second call fails.
fn hello(alloc: Global) -> Result<MemorySource, Fail> {
    let bytes = b"hello".to_vec(alloc)?;
    let failing = [2].to_vec(alloc)?;
    Ok(MemorySource::new(bytes, failing))
}

/// What reading four bytes gives.
fn read_four(source: &mut MemorySource) -> Got {
    let mut piece = [0u8; 4];
    source.read(&mut piece)
}

/// Whether the next call fails, the next gives a byte, and then it ends.
fn fails_and_ends(source: &mut MemorySource) -> bool {
    let failed = read_four(source) == Got::Failed;
    let read = read_four(source) == Got::Read(1);
    failed && read && read_four(source) == Got::End
}

#[test]
fn a_source_over_memory_is_copied_with_its_calls(rt: HostRuntime) -> Result<(), Fail> {
    let mut source = hello(rt.alloc())?;
    assert!(rt; read_four(&mut source) == Got::Read(4));
    let mut copied = source.copy(rt.alloc())?;
    assert!(rt; fails_and_ends(&mut source));
    assert!(rt; fails_and_ends(&mut copied));
    Ok(())
}

/// A sink with room for three bytes, whose first call fails.
fn narrow(alloc: Global) -> Result<MemorySink, Fail> {
    let failing = [1].to_vec(alloc)?;
    Ok(MemorySink::new(alloc, 3, failing)?)
}

/// Whether three bytes are taken, and no more.
fn takes_three(sink: &mut MemorySink) -> bool {
    let two = sink.write(b"ab") == Took::Wrote(2);
    let one = sink.write(b"cd") == Took::Wrote(1);
    let none = sink.write(b"e") == Took::Failed;
    two && one && none && sink.bytes() == b"abc".as_slice()
}

#[test]
fn a_sink_over_memory_is_copied_with_its_calls(rt: HostRuntime) -> Result<(), Fail> {
    let mut sink = narrow(rt.alloc())?;
    assert!(rt; sink.write(b"ab") == Took::Failed);
    let mut copied = sink.copy(rt.alloc())?;
    assert!(rt; takes_three(&mut copied));
    assert!(rt; sink.bytes().is_empty());
    Ok(())
}

#[test]
fn shapes_have_their_bounds(rt: HostRuntime) -> Result<(), Fail> {
    assert!(rt; matches!(GroupShape::new(4), Err(BadShape)));
    let widest = GroupShape::new(3)?;
    assert!(rt; widest.n() == 10 && widest.quorum() == 7);
    assert!(rt; widest.weak() == 4 && widest.primary(23) == 3);
    Ok(())
}

/// The layout of a group of one replica and one of ten, copied.
fn two_groups(alloc: Global) -> Result<Layout, Fail> {
    let shapes = [GroupShape::new(0)?, GroupShape::new(3)?];
    let layout = Layout::new(&shapes)?;
    Ok(layout.copy(alloc)?)
}

#[test]
fn layouts_have_their_bounds(rt: HostRuntime) -> Result<(), Fail> {
    assert!(rt; matches!(Layout::new(&[]), Err(BadLayout)));
    let shape = GroupShape::new(0)?;
    assert!(rt; matches!(Layout::new(&[shape; 17]), Err(BadLayout)));
    let layout = two_groups(rt.alloc())?;
    assert!(rt; layout.groups() == 2);
    assert!(rt; layout.has(ReplicaId { group: 1, index: 9 }));
    assert!(rt; !layout.has(ReplicaId { group: 0, index: 1 }));
    assert!(rt; !layout.has(ReplicaId { group: 2, index: 0 }));
    Ok(())
}

/// A reader and writer whose first call is interrupted, the second takes a byte and the third fails.
#[derive(Drop)]
struct Uneven {
    calls: u8,
}

impl Read for Uneven {
    fn read(&mut self, buffer: &mut [u8]) -> io::Result<usize> {
        self.calls = self.calls.saturating_add(1);
        match self.calls {
            1 => Err(io::Error::from(ErrorKind::Interrupted)),
            2 if !buffer.is_empty() => Ok(1),
            _ => Err(io::Error::from(ErrorKind::BrokenPipe)),
        }
    }
}

impl Write for Uneven {
    fn write(&mut self, piece: &[u8]) -> io::Result<usize> {
        self.calls = self.calls.saturating_add(1);
        match self.calls {
            1 => Err(io::Error::from(ErrorKind::Interrupted)),
            2 if !piece.is_empty() => Ok(1),
            _ => Err(io::Error::from(ErrorKind::BrokenPipe)),
        }
    }

    fn flush(&mut self) -> io::Result<()> {
        Ok(())
    }
}

#[test]
fn an_interrupted_read_is_tried_again(rt: HostRuntime) {
    let mut source = ReaderSource::new(Uneven { calls: 0 });
    let mut piece = [0u8; 2];
    assert!(rt; source.read(&mut piece) == Got::Read(1));
    assert!(rt; source.read(&mut piece) == Got::Failed);
}

#[test]
fn an_interrupted_write_is_tried_again(rt: HostRuntime) {
    let mut sink = WriterSink::new(Uneven { calls: 0 });
    assert!(rt; sink.write(b"ab") == Took::Wrote(1));
    assert!(rt; sink.write(b"b") == Took::Failed);
}
