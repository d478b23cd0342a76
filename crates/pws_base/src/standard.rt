//! Sources and sinks over the readers and writers of std, as standard input and output are.
//!
//! They tell the bytes that the reader or writer tells. Standard input and output tell none: no clause can say what
//! the system gives or takes.

ghost use Rattle.std.specs.Prelude.{◌≡◌};

use crate::streams::{Got, Sink, Source, Took};
use std::io::{ErrorKind, Read, Write};

/// A source over a reader. An interrupted read is tried again, up to 2^64 - 1 times, and every other error is a fault.
#[derive(Drop)]
pub struct ReaderSource<R: Read> {
    reader: R,
    faults: u64,
}

impl<R: Read> ReaderSource<R> {
    /// A source of the bytes that this reader gives.
    pub fn new(reader: R) -> ReaderSource<R>
        ensures left { ⟦<ReaderSource<R> as Source>⟧.left result ≡ R.remaining reader }
        ensures faults { ⟦<ReaderSource<R> as Source>⟧.faults result ≡ 0 }
    {
        ReaderSource { reader, faults: 0 }
    }
}

impl<R: Read> Source for ReaderSource<R> {
    ghost left = { λ s. R.remaining s.reader };

    ghost faults = { λ s. s.faults };

    #[tactic(auto, using(crate::proofs::Known::read_next, crate::proofs::Known::read_end, crate::proofs::Known::read_failed, crate::proofs::Known::kept_again))]
    fn read(&mut self, into: &mut [u8]) -> Got {
        for _ in 0..u64::MAX {
            match self.reader.read(into) {
                Ok(0) => return Got::End,
                Ok(count) => return Got::Read(count),
                Err(error) if error.kind() == ErrorKind::Interrupted => {}
                Err(_) => break,
            }
        }
        self.faults = self.faults.saturating_add(1);
        Got::Failed
    }
}

/// A sink over a writer. An interrupted write is tried again, up to 2^64 - 1 times; every other error, and a write of
/// no byte, is a fault.
#[derive(Drop)]
pub struct WriterSink<W: Write> {
    writer: W,
    faults: u64,
}

impl<W: Write> WriterSink<W> {
    /// A sink that hands its bytes to this writer.
    pub fn new(writer: W) -> WriterSink<W>
        ensures held { ⟦<WriterSink<W> as Sink>⟧.held result ≡ W.contents writer }
        ensures faults { ⟦<WriterSink<W> as Sink>⟧.faults result ≡ 0 }
    {
        WriterSink { writer, faults: 0 }
    }
}

impl<W: Write> Sink for WriterSink<W> {
    ghost held = { λ s. W.contents s.writer };

    ghost faults = { λ s. s.faults };

    #[tactic(auto, using(crate::proofs::Known::write_more, crate::proofs::Known::write_failed, crate::proofs::Known::kept_again))]
    fn write(&mut self, from: &[u8]) -> Took {
        for _ in 0..u64::MAX {
            match self.writer.write(from) {
                Ok(0) => break,
                Ok(count) => return Took::Wrote(count),
                Err(error) if error.kind() == ErrorKind::Interrupted => {}
                Err(_) => break,
            }
        }
        self.faults = self.faults.saturating_add(1);
        Took::Failed
    }
}
