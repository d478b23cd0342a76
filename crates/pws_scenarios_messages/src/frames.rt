//! Streams of frames, however they are cut.

use pws_base::bytes::Bytes;
use pws_base::lists::Sequence;
use pws_msg::frames::{Deframer, FeedError};
use pws_scenarios::layers::StepError;
use pws_scenarios::words::{bytes_of, spelled};
use std::alloc::Global;

/// A reader of one stream.
#[derive(Drop)]
pub struct Frames {
    reader: Deframer,
}

/// Adds the packets.
fn put_packets(
    alloc: Global,
    packets: &Sequence<Bytes>,
    answers: &mut Vec<String>,
) -> Result<(), StepError> {
    for packet in packets.as_slice() {
        answers.push(spelled(alloc, packet.as_slice())?)?;
    }
    Ok(())
}

impl Frames {
    /// A reader to which nothing was fed.
    pub fn new(alloc: Global) -> Frames {
        Frames {
            reader: Deframer::new(alloc),
        }
    }

    /// Feeds a piece, and adds the packets that it completes and the place of a bad length.
    fn feed(
        &mut self,
        alloc: Global,
        piece: &[u8],
        answers: &mut Vec<String>,
    ) -> Result<(), StepError> {
        if self.reader.fed() > 1_000_000 || piece.len() > 1_000_000 {
            return Err(StepError::Expected("at most a million bytes"));
        }
        match self.reader.feed(alloc, piece) {
            Ok(whole) => put_packets(alloc, &whole, answers),
            Err(FeedError::Frame(error)) => {
                put_packets(alloc, &error.whole, answers)?;
                Ok(answers.push(format!(in alloc; "bad length at {}", error.at)?)?)
            }
            Err(FeedError::Memory) => Err(StepError::Memory),
        }
    }

    /// Takes a step.
    pub fn step(
        &mut self,
        alloc: Global,
        words: &[&str],
        answers: &mut Vec<String>,
    ) -> Result<(), StepError> {
        match words {
            ["feed", piece] => self.feed(alloc, &bytes_of(alloc, piece)?, answers),
            ["fed"] => {
                let stopped = if self.reader.is_stopped() {
                    " stopped"
                } else {
                    ""
                };
                Ok(answers.push(format!(in alloc; "{}{stopped}", self.reader.fed())?)?)
            }
            _ => Err(StepError::NoSuchStep),
        }
    }
}
