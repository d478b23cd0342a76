//! Whole texts, from a source and to a sink.

ghost use Rattle.std.specs.Prelude.{ℕ};
ghost use Rattle.pws_base.specs.Whole.{ReadsAll, ReadsAllCause, WritesAll, WritesAllCause};

use crate::bytes::Bytes;
use crate::streams::{Got, Sink, Source, Took};
use std::alloc::{AllocError, Global};
use thiserror::Error;

/// Why no whole text was read.
#[derive(Clone, Copy, Debug, PartialEq, Eq, Error)]
pub enum ReadError {
    /// The source has more bytes than the limit.
    #[error("more bytes than the limit")]
    Limit,
    /// The source failed.
    #[error("the source failed")]
    Fault,
    /// There was no memory.
    #[error("out of memory")]
    Memory,
}

impl From<AllocError> for ReadError {
    ghost use Rattle.std.specs.Prelude.{◌≡◌};
    ghost use Rattle.pws_base.specs.declared.whole.ReadError.TheVariants as read_error;

    ghost from_gives = { λ _ e. e ≡ read_error.Memory };

    fn from(_error: AllocError) -> ReadError {
        ReadError::Memory
    }
}

/// The sink failed before the whole text was written.
#[derive(Clone, Copy, Debug, PartialEq, Eq, Error)]
#[error("the sink failed")]
pub struct WriteFault;

/// Reads a source to its end, of which there are to be at most `limit` bytes.
///
/// # Errors
///
/// Where the source tells its bytes: `Limit` exactly where more than `limit` are left, unless a fault or the want
/// of memory came before. `Fault` only where the source's faults rose in this call, and every other answer leaves
/// them. `Memory` at any time.
pub fn read_all<S: Source>(alloc: Global, source: &mut S, limit: usize) -> Result<Bytes, ReadError>
    ensures bytes { ReadsAll limit (S.left source.old) result }
    ensures cause { ReadsAllCause result (S.faults source.old) (S.faults source.new) }
{
    let mut all = Vec::new(alloc);
    let mut piece = [0u8; 4096];
    loop {
        let count = match source.read(&mut piece) {
            Got::Read(count) => count,
            Got::End => return Ok(Bytes::from_vec(all)),
            Got::Failed => return Err(ReadError::Fault),
        };
        if count > limit - all.len() {
            return Err(ReadError::Limit);
        }
        all.extend_from_slice(&piece[..count])?;
    }
}

/// Writes a whole text to a sink.
///
/// # Errors
///
/// `WriteFault` only where the sink's faults rose in this call; it then holds a prefix of the text more. After Ok
/// it holds the text more, and its faults are as they were.
pub fn write_all<K: Sink>(sink: &mut K, text: &[u8]) -> Result<(), WriteFault>
    ensures held { WritesAll (K.held sink.old) (K.held sink.new) text.now result }
    ensures cause { WritesAllCause result (K.faults sink.old) (K.faults sink.new) }
{
    let mut at = 0;
    while at < text.len() {
        match sink.write(&text[at..]) {
            Took::Wrote(count) => at += count,
            Took::Failed => return Err(WriteFault),
        }
    }
    Ok(())
}
